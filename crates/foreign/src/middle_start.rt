ghost use Rattle.std.specs.Prelude.{refl};
ghost use Rattle.foreign.specs.MiddleStart.{middle_start};

use selection::Selector;
use selection::radix2::Radix2;
use selection::start::Start;

/// Radix 2 with the start 3/2 for every operand.
#[derive(Clone, Copy, Drop, PartialEq, Eq, Debug)]
pub struct MiddleStart;

impl Selector for MiddleStart {
    const B: u32 = 1;

    ghost B = { 1 };

    const A: u32 = 1;

    ghost A = { 1 };

    const T: u32 = 2;

    ghost T = { 2 };

    const D: u32 = 0;

    ghost D = { 0 };

    ghost model = { λ _. middle_start };

    ghost named = { λ _. record { bits = refl; largest = refl; residual_places = refl; product_places = refl } };

    fn lawful(&self) {
        Radix2.lawful();
    }

    fn start(&self, _k: u32, _x: u32) -> Start {
        Start::ThreeHalves
    }

    fn digit(&self, residual: i64, product: i64) -> i64 {
        Radix2.digit(residual, product)
    }
}
