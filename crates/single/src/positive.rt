ghost use Rattle.std.specs.Prelude.{◌^◌, ◌<◌, ◌≤◌, pos, negsuc, ◌≤ℤ◌};

/// A positive number m 2^(E - 150), by its significand m of 24 bits and its signed exponent E.
#[derive(Clone, Copy, Drop, PartialEq, Eq, Debug)]
pub struct Positive {
    pub significand: u32,
    pub exponent: i32,
    ghost significant: { (2 ^ 23 ≤ significand) × (significand < 2 ^ 24) },
    ghost representable: { (negsuc 21 ≤ℤ exponent) × (exponent ≤ℤ pos 254) },
}
