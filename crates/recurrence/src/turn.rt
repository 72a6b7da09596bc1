ghost use Rattle.std.specs.Prelude.{◌≡◌, ◌+◌, ◌-◌, ◌/◌, ◌^◌, ◌≤◌, true, ◌⊎◌, pos, neg_ℤ, ◌<ℤ◌, if◌then◌else◌, Some, None};
ghost use Rattle.number_form.specs.Shifts.{places};
ghost use Rattle.recurrence.specs.Recurrence.{chosen, chosen_from, complete, reduced_by, turned, result_of};

use crate::digit::at_place;
use crate::make::Make;
use crate::registers::{Choice, Outcome, Registers, Terms};
use crate::running::Running;
use number_form::NumberForm;
use number_form::cut::Cut;
use number_form::shift::Shift;
use number_form::sign::Sign;
use number_form::words::Words;
use selection::Selector;

impl Running {
    /// Makes one digit, and tells how it was chosen; where none is left to make, it tells nothing and changes nothing.
    pub(crate) fn turn<S: Selector, F: NumberForm>(
        &mut self,
        make: &Make<'_, S, F>,
    ) -> Option<Choice>
        ensures tells { result ≡ (if complete (S.Selector.model make.now.selector.now) self.old.registers then None else Some (chosen (S.Selector.model make.now.selector.now) (F.NumberForm.model make.now.form.now) self.old.registers)) }
        ensures after { self.new.registers ≡ turned (S.Selector.model make.now.selector.now) (F.NumberForm.model make.now.form.now) self.old.registers }
    {
        let bits = bits_of(make.selector);
        let radix = radix_of(make.selector);
        let before = self.registers;
        if before.place < bits {
            return None;
        }
        let place = before.place - bits;
        let shifted = make.form.shift(before.residual, shift_by(make.selector));
        let choice = pick(make, before.k + before.q, shifted, before.product);
        let terms = Terms::of(choice.digit, at_place(u64::from(before.factor), place));
        let residual = reduce(make.form, terms, before.product, shifted);
        let product = make.form.add(before.product, terms.once);
        let partial = before.partial.append(radix, choice.digit, place);
        self.registers = Registers {
            place,
            residual,
            product,
            partial,
            ..before
        };
        Some(choice)
    }

    /// Counts the digits made.
    pub(crate) fn made<S: Selector>(&self, selector: &S) -> u32
        ensures is { result ≡ (self.now.registers.q - self.now.registers.place) / (S.Selector.model selector.now).bits }
        ensures few { result ≤ 28 }
    {
        (self.registers.q - self.registers.place) / bits_of(selector)
    }

    /// Counts the digits left to make.
    pub(crate) fn left<S: Selector>(&self, selector: &S) -> u32
        ensures { result ≡ self.now.registers.place / (S.Selector.model selector.now).bits }
    {
        self.registers.place / bits_of(selector)
    }

    /// Reads the result off the registers: s, or s - 1 where the residual is negative.
    pub(crate) fn result<F: NumberForm>(&self, form: &F) -> Outcome
        ensures { result ≡ result_of (F.NumberForm.model form.now) self.now.registers }
    {
        let s = self.registers.partial.s;
        let f = match form.sign(self.registers.residual) {
            Sign::Negative => s - 1,
            Sign::NotNegative => s,
        };
        Outcome { f, exact: false }
    }
}

/// Chooses a digit from the shifted residual and the product, which are kept times 2^scale.
pub(crate) fn pick<S: Selector, F: NumberForm>(
    make: &Make<'_, S, F>,
    scale: u32,
    shifted: Words,
    product: Words,
) -> Choice
    requires { (6 ≤ scale) × (scale ≤ 60) }
    ensures is { result ≡ chosen_from (S.Selector.model make.now.selector.now) (F.NumberForm.model make.now.form.now) scale shifted product }
    ensures least { neg_ℤ (pos (2 ^ (S.Selector.model make.now.selector.now).bits)) <ℤ result.digit }
    ensures most { result.digit <ℤ pos (2 ^ (S.Selector.model make.now.selector.now).bits) }
{
    make.selector.lawful();
    let at_residual = Cut {
        place: scale - S::T,
    };
    let at_product = Cut {
        place: scale - S::D,
    };
    let residual = make.form.estimate(shifted, at_residual);
    let product = make.form.estimate(product, at_product);
    let digit = make.selector.digit(residual, product);
    Choice {
        residual,
        product,
        digit,
    }
}

/// Adds to the shifted residual what a digit adds: first the multiple of the product, then the operand term.
fn reduce<F: NumberForm>(form: &F, terms: Terms, product: Words, shifted: Words) -> Words
    ensures { result ≡ reduced_by (F.NumberForm.model form.now) terms product shifted }
{
    let less_multiple = form.add_multiple(shifted, terms.multiple, product);
    form.add(less_multiple, terms.square)
}

/// Gives the bits of a selector's digit.
fn bits_of<S: Selector>(selector: &S) -> u32
    ensures is { result ≡ (S.Selector.model selector.now).bits }
    ensures few { (result ≡ 1) ⊎ (result ≡ 2) }
{
    selector.lawful();
    S::B
}

/// Gives the shift by a digit's bits.
fn shift_by<S: Selector>(selector: &S) -> Shift
    ensures { places result ≡ (S.Selector.model selector.now).bits }
{
    if bits_of(selector) == 1 {
        Shift::One
    } else {
        Shift::Two
    }
}

/// Gives the radix of a selector.
fn radix_of<S: Selector>(selector: &S) -> u32
    ensures is { result ≡ 2 ^ (S.Selector.model selector.now).bits }
    ensures least { 2 ≤ result }
    ensures most { result ≤ 4 }
{
    1 << bits_of(selector)
}
