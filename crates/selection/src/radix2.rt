ghost use Rattle.std.specs.Prelude.{◌≡◌, ℕ, pos, refl};
ghost use Rattle.arithmetic.specs.Estimates.{shortfall};
ghost use Rattle.selection.specs.Operands.{Sized, InRange};
ghost use Rattle.selection.specs.Selectors.{LawfulSelector, Contains};
ghost use Rattle.selection.specs.Radix2.{choice_2, radix_2};

use crate::start::Start;
use crate::{Selector, is_beyond};

/// Radix 2 with digits -1, 0 and 1, chosen from the residual alone.
#[derive(Clone, Copy, Drop, PartialEq, Eq, Debug)]
pub struct Radix2;

impl Selector for Radix2 {
    const B: u32 = 1;

    ghost B = { 1 };

    const A: u32 = 1;

    ghost A = { 1 };

    const T: u32 = 2;

    ghost T = { 2 };

    const D: u32 = 0;

    ghost D = { 0 };

    ghost model = { λ _. radix_2 };

    ghost named = { λ _. record { bits = refl; largest = refl; residual_places = refl; product_places = refl } };

    fn lawful(&self)
        ensures laws { LawfulSelector shortfall radix_2 }
        ensures every_operand { (K Q x : ℕ) → Sized K Q → InRange K x → Contains shortfall radix_2 K Q x }
    {}

    fn start(&self, _k: u32, _x: u32) -> Start {
        Start::One
    }

    fn digit(&self, residual: i64, product: i64) -> i64 {
        if is_beyond(residual) || is_beyond(product) {
            return 0;
        }
        by_thresholds(residual)
    }
}

/// Chooses a digit by the two thresholds, without a branch.
fn by_thresholds(residual: i64) -> i64
    ensures { result ≡ choice_2 residual (pos 0) }
{
    i64::from(residual >= 1) - i64::from(residual <= -2)
}
