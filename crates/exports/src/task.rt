ghost use Rattle.std.specs.Prelude.{◌≡◌};
ghost use Rattle.number_form.specs.Forms.{FormModel};
ghost use Rattle.selection.specs.Selectors.{SelectorModel};
ghost use Rattle.recurrence.specs.Recurrence.{worked};
ghost use Rattle.recurrence.specs.Root.{ReciprocalRoot};
ghost use Rattle.single.specs.Readings.{reading, told};
ghost use Rattle.single.specs.Rsqrt.{Rsqrt};

use number_form::NumberForm;
use recurrence::make::Make;
use recurrence::registers::Outcome;
use recurrence::work::work;
use selection::Selector;
use selection::operand::Operand;
use single::answer::Answer;
use single::mode::Mode;
use single::rsqrt::rsqrt;

/// What a make can work off: a fixed-point operand, or a single with its mode.
pub trait Task {
    type Told;

    /// What the task comes to over the models of a selector and a form.
    ghost gives: { Self → SelectorModel → FormModel → Self.Told };

    /// What is a right answer to the task, whatever the make.
    ghost right: { Self → Self.Told → Type 0 };

    /// Works the task off by a make.
    fn by<S: Selector, F: NumberForm>(&self, make: &Make<'_, S, F>) -> Self::Told
        ensures is { result ≡ gives self.now (S.Selector.model make.now.selector.now) (F.NumberForm.model make.now.form.now) }
        ensures right { right self.now result };
}

impl Task for Operand {
    type Told = Outcome;

    ghost gives = { λ o S F. worked S F o.k o.q o.x };

    ghost right = { λ o r. ReciprocalRoot o.k o.q o.x r.f };

    // each make's digits in a function of its own: with both makes in one, the loops were laid out to take a twentieth longer
    #[inline(never)]
    fn by<S: Selector, F: NumberForm>(&self, make: &Make<'_, S, F>) -> Outcome {
        work(make, *self)
    }
}

/// A single to be worked off in a mode.
#[derive(Clone, Copy, Drop, PartialEq, Eq, Debug)]
pub struct SingleTask {
    pub word: u32,
    pub mode: Mode,
}

impl Task for SingleTask {
    type Told = Answer;

    ghost gives = { λ t S F. told S F t.mode (reading t.word) };

    ghost right = { λ t r. Rsqrt t.mode t.word r.word r.marks };

    fn by<S: Selector, F: NumberForm>(&self, make: &Make<'_, S, F>) -> Answer {
        rsqrt(make, self.word, self.mode)
    }
}
