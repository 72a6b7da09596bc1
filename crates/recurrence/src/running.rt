ghost use Rattle.std.specs.Prelude.{◌≡◌, ◌+◌, ◌^◌, ◌≤◌};

use crate::registers::Registers;

/// A job under way. Its invariant holds for every selector, and makes every sum of a turn safe.
#[derive(Clone, Copy, Drop, PartialEq, Eq, Debug)]
pub struct Running {
    pub(crate) registers: Registers,
    ghost width: { (4 ≤ registers.k) × (registers.k ≤ 28) },
    ghost places: { (2 ≤ registers.q) × (registers.q ≤ 28) × (registers.place ≤ registers.q) },
    ghost factor: { registers.factor ≤ 2 ^ 28 },
    ghost least: { 2 ^ registers.place ≤ registers.partial.s },
    ghost most: { registers.partial.s + 2 ^ registers.place ≤ 2 ^ (registers.q + 2) },
    ghost below: { registers.partial.below + 2 ^ registers.place ≡ registers.partial.s },
}
