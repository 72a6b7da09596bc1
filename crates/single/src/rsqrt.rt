ghost use Rattle.std.specs.Prelude.{◌≡◌, ℕ};
ghost use Rattle.single.specs.declared.marks.Marks.{Marks};
ghost use Rattle.single.specs.Readings.{reading, told};
ghost use Rattle.single.specs.Rsqrt.{Rsqrt, NeverTied};

use crate::answer::Answer;
use crate::decoded::Decoded;
use crate::mode::Mode;
use number_form::NumberForm;
use recurrence::make::Make;
use recurrence::work::work;
use selection::Selector;

/// Gives the reciprocal square root of a single, correctly rounded, with the marks that it raises, as IEEE 754 defines them. A positive number
/// is worked off by the same turns as a fixed-point operand.
pub fn rsqrt<S: Selector, F: NumberForm>(make: &Make<'_, S, F>, word: u32, mode: Mode) -> Answer
    ensures digits { result ≡ told (S.Selector.model make.now.selector.now) (F.NumberForm.model make.now.form.now) mode (reading word) }
    ensures right { Rsqrt mode word result.word result.marks }
    ensures no_other { (w : ℕ) (m : Marks) → Rsqrt mode word w m → (w ≡ result.word) × (m ≡ result.marks) }
    ensures no_ties { NeverTied }
{
    make.selector.lawful();
    make.form.lawful();
    answer_by_digits(make, word, mode)
}

fn answer_by_digits<S: Selector, F: NumberForm>(
    make: &Make<'_, S, F>,
    word: u32,
    mode: Mode,
) -> Answer
    ensures { result ≡ told (S.Selector.model make.now.selector.now) (F.NumberForm.model make.now.form.now) mode (reading word) }
{
    match Decoded::from(word) {
        Decoded::Special(special) => special.answer(),
        Decoded::Positive(number) => {
            let outcome = work(make, number.operand());
            number.round(outcome, mode)
        }
    }
}
