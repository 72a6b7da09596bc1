ghost use Rattle.std.specs.Prelude.{◌≡◌, ◌+◌, ◌^◌, ◌≤◌, pos, ◌≤ℤ◌};
ghost use Rattle.recurrence.specs.Recurrence.{first_residual, first_product, first_partial, first_registers};

use crate::digit::at_place;
use crate::make::Make;
use crate::registers::{Partial, Registers};
use crate::running::Running;
use number_form::NumberForm;
use selection::Selector;
use selection::operand::Operand;
use selection::start::Start;

impl Running {
    /// Sets the registers for an operand.
    pub(crate) fn new<S: Selector, F: NumberForm>(
        make: &Make<'_, S, F>,
        operand: Operand,
    ) -> Running
        ensures { result.registers ≡ first_registers (S.Selector.model make.now.selector.now) (F.NumberForm.model make.now.form.now) operand.k operand.q operand.x }
    {
        let start = make.selector.start(operand.k, operand.x);
        let residual = make.form.set(first_residual(operand, start));
        let product = make.form.set(first_product(operand, start));
        let partial = Partial::first(operand, start);
        Running {
            registers: Registers {
                k: operand.k,
                q: operand.q,
                factor: operand.x,
                place: operand.q,
                residual,
                product,
                partial,
            },
        }
    }
}

/// Works out 1 - X S[0]^2, times 2^(K+Q).
fn first_residual(operand: Operand, start: Start) -> i64
    ensures { result ≡ first_residual operand.k operand.q operand.x start }
{
    let halves = u64::from(start.halves());
    let factor = u64::from(operand.x) * (halves * halves);
    one(operand) - at_place(factor, operand.q - 2)
}

/// Gives 2^(K+Q).
fn one(operand: Operand) -> i64
    ensures is { result ≡ pos (2 ^ (operand.k + operand.q)) }
    ensures most { result ≤ℤ pos (2 ^ 56) }
{
    1 << (operand.k + operand.q)
}

/// Works out X S[0], times 2^(K+Q).
fn first_product(operand: Operand, start: Start) -> i64
    ensures { result ≡ first_product operand.q operand.x start }
{
    let factor = u64::from(operand.x) * u64::from(start.halves());
    at_place(factor, operand.q - 1)
}

impl Partial {
    /// Gives S[0] and S[0] - 1.
    fn first(operand: Operand, start: Start) -> Partial
        ensures is { result ≡ first_partial operand.q start }
        ensures least { 2 ^ operand.q ≤ result.s }
        ensures most { result.s + 2 ^ operand.q ≤ 2 ^ (operand.q + 2) }
        ensures below { result.below + 2 ^ operand.q ≡ result.s }
    {
        let s = start.halves() << (operand.q - 1);
        Partial {
            s,
            below: s - (1 << operand.q),
        }
    }
}
