ghost use Rattle.std.specs.Prelude.{◌≡◌, ◌-◌, ◌%◌, ◌^◌, ◌<◌, ◌≤◌};

/// A fixed-point operand X = x / 2^K of width K, whose reciprocal root is worked out to Q places. X lies from 1/4 up to, not including, 1.
#[derive(Clone, Copy, Drop, PartialEq, Eq, Debug)]
pub struct Operand {
    pub k: u32,
    pub q: u32,
    pub x: u32,
    ghost width: { (4 ≤ k) × (k ≤ 28) },
    ghost places: { (2 ≤ q) × (q ≤ 28) },
    ghost even: { q % 2 ≡ 0 },
    ghost range: { (2 ^ (k - 2) ≤ x) × (x < 2 ^ k) },
}
