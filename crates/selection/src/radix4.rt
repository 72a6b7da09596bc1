ghost use Rattle.std.specs.Prelude.{◌≡◌, ℕ, ◌^◌, ◌≤◌, false, pos, ◌≤ℤ◌, neg_ℤ, unsigned_abs, refl};
ghost use Rattle.arithmetic.specs.Estimates.{shortfall};
ghost use Rattle.selection.specs.Operands.{Sized, InRange};
ghost use Rattle.selection.specs.Selectors.{LawfulSelector, Contains, beyond};
ghost use Rattle.selection.specs.Radix4.{threshold, by_thresholds, radix_4};

use crate::start::Start;
use crate::{Selector, is_beyond};

/// Radix 4 with digits from -2 to 2, chosen from the residual in sixteenths and the product in 64ths.
#[derive(Clone, Copy, Drop, PartialEq, Eq, Debug)]
pub struct Radix4;

impl Selector for Radix4 {
    const B: u32 = 2;

    ghost B = { 2 };

    const A: u32 = 2;

    ghost A = { 2 };

    const T: u32 = 4;

    ghost T = { 4 };

    const D: u32 = 6;

    ghost D = { 6 };

    ghost model = { λ _. radix_4 };

    ghost named = { λ _. record { bits = refl; largest = refl; residual_places = refl; product_places = refl } };

    fn lawful(&self)
        ensures laws { LawfulSelector shortfall radix_4 }
        ensures every_operand { (K Q x : ℕ) → Sized K Q → InRange K x → Contains shortfall radix_4 K Q x }
    {}

    fn start(&self, k: u32, x: u32) -> Start {
        // 3 * 2^K; past 34 a larger K makes no difference, since 8 x is below 2^35
        let three = 3u64 << k.min(34);
        let x = u64::from(x);
        if 8 * x < three {
            Start::Two
        } else if 4 * x < three {
            Start::ThreeHalves
        } else {
            Start::One
        }
    }

    fn digit(&self, residual: i64, product: i64) -> i64 {
        if is_beyond(residual) || is_beyond(product) {
            return 0;
        }
        by_thresholds(residual, threshold(1, product), threshold(3, product))
    }
}

/// Chooses a digit by the two thresholds and the same with their signs turned, the first that the residual reaches.
// A chain of `if`s: a form without branches was measured slower. An i64, as the estimates are: a narrower digit is converted at every turn.
fn by_thresholds(residual: i64, inner: i64, outer: i64) -> i64
    requires { (unsigned_abs inner ≤ 2 ^ 42) × (unsigned_abs outer ≤ 2 ^ 42) }
    ensures { result ≡ by_thresholds outer inner (neg_ℤ inner) (neg_ℤ outer) residual }
{
    if residual >= outer {
        2
    } else if residual >= inner {
        1
    } else if residual >= -inner {
        0
    } else if residual >= -outer {
        -1
    } else {
        -2
    }
}

/// Gives the least residual for a digit: so many times the product and 1/64, cut down to sixteenths. The shift cuts toward minus infinity.
fn threshold(times: i64, product: i64) -> i64
    requires times { (pos 1 ≤ℤ times) × (times ≤ℤ pos 3) }
    requires product { beyond product ≡ false }
    ensures is { result ≡ threshold times product }
    ensures small { unsigned_abs result ≤ 2 ^ 42 }
{
    (times * (product + 1)) >> 2
}
