ghost use Rattle.std.specs.Prelude.{◌≡◌, ℕ, ◌≤◌, false};
ghost use Rattle.arithmetic.specs.Estimates.{shortfall};
ghost use Rattle.selection.specs.Operands.{quarter};
ghost use Rattle.recurrence.specs.Root.{ReciprocalRoot, Exactness};
ghost use Rattle.recurrence.specs.Stages.{Kept};
ghost use Rattle.recurrence.specs.Recurrence.{seen, begun, job_turned, turn_told, made, left, registers, partial_result, outcome, worked, quarter_outcome};

use crate::job::Job;
use crate::make::Make;
use crate::registers::{Choice, Outcome, Registers};
use crate::running::Running;
use number_form::NumberForm;
use selection::Selector;
use selection::operand::Operand;

/// Works an operand off by all its digits. The outcome is read off the registers after Q / b turns of the one step; it is the largest f with
/// X (f / 2^Q)^2 at most 1, whatever the selector and the form, and at every stage on the way the registers mean what they should.
pub fn work<S: Selector, F: NumberForm>(make: &Make<'_, S, F>, operand: Operand) -> Outcome
    ensures turns { result ≡ worked (S.Selector.model make.now.selector.now) (F.NumberForm.model make.now.form.now) operand.k operand.q operand.x }
    ensures root { ReciprocalRoot operand.k operand.q operand.x result.f }
    ensures no_other { (g : ℕ) → ReciprocalRoot operand.k operand.q operand.x g → g ≡ result.f }
    ensures exactness { Exactness operand.k operand.q operand.x result.f result.exact }
    ensures stages { quarter operand.k operand.x ≡ false → Kept shortfall (S.Selector.model make.now.selector.now) (F.NumberForm.model make.now.form.now) operand.k operand.q operand.x }
{
    make.selector.lawful();
    make.form.lawful();
    make_all_turns(make, operand)
}

/// Works an operand off by all its digits.
// On the registers, and not through `Job`: the C function calls it, and no enum is taken apart at each digit.
fn make_all_turns<S: Selector, F: NumberForm>(make: &Make<'_, S, F>, operand: Operand) -> Outcome
    ensures { result ≡ worked (S.Selector.model make.now.selector.now) (F.NumberForm.model make.now.form.now) operand.k operand.q operand.x }
{
    if operand.is_quarter() {
        return quarter_outcome(operand);
    }
    let mut running = Running::new(make, operand);
    let digits = running.left(make.selector);
    for _ in 0..digits {
        let _ = running.turn(make);
    }
    running.result(make.form)
}

impl Job {
    /// Begins a job. X = 1/4 is settled at once: it takes no digits, and its result 2 is exact.
    pub fn begin<S: Selector, F: NumberForm>(make: &Make<'_, S, F>, operand: Operand) -> Job
        ensures { seen result ≡ begun (S.Selector.model make.now.selector.now) (F.NumberForm.model make.now.form.now) operand.k operand.q operand.x }
    {
        if operand.is_quarter() {
            Job::Settled(quarter_outcome(operand))
        } else {
            Job::Running(Running::new(make, operand))
        }
    }

    /// Makes one digit, and tells how it was chosen; where none is left to make, it tells nothing and changes nothing.
    pub fn turn<S: Selector, F: NumberForm>(&mut self, make: &Make<'_, S, F>) -> Option<Choice>
        ensures tells { result ≡ turn_told (S.Selector.model make.now.selector.now) (F.NumberForm.model make.now.form.now) (seen self.old) }
        ensures after { seen self.new ≡ job_turned (S.Selector.model make.now.selector.now) (F.NumberForm.model make.now.form.now) (seen self.old) }
    {
        match self {
            Job::Settled(_) => None,
            Job::Running(running) => running.turn(make),
        }
    }

    // here and below a match of two arms answers for both cases of a job; an `Option` of the registers would name one of them alone
    /// Counts the digits made.
    pub fn made<S: Selector>(&self, selector: &S) -> u32
        ensures is { result ≡ made (S.Selector.model selector.now) (seen self.now) }
        ensures few { result ≤ 28 }
    {
        match self {
            Job::Settled(_) => 0,
            Job::Running(running) => running.made(selector),
        }
    }

    /// Counts the digits left to make.
    pub fn left<S: Selector>(&self, selector: &S) -> u32
        ensures { result ≡ left (S.Selector.model selector.now) (seen self.now) }
    {
        match self {
            Job::Settled(_) => 0,
            Job::Running(running) => running.left(selector),
        }
    }

    /// Shows the registers; a settled job has none.
    pub fn registers(&self) -> Option<Registers>
        ensures { result ≡ registers (seen self.now) }
    {
        match self {
            Job::Settled(_) => None,
            Job::Running(running) => Some(running.registers),
        }
    }

    /// Gives the partial result S times 2^Q; a settled job's is its result.
    pub fn partial_result(&self) -> u32
        ensures { result ≡ partial_result (seen self.now) }
    {
        match self {
            Job::Settled(outcome) => outcome.f,
            Job::Running(running) => running.registers.partial.s,
        }
    }

    /// Tells what the job came to, once no digit is left to make.
    pub fn outcome<S: Selector, F: NumberForm>(&self, make: &Make<'_, S, F>) -> Option<Outcome>
        ensures { result ≡ outcome (S.Selector.model make.now.selector.now) (F.NumberForm.model make.now.form.now) (seen self.now) }
    {
        match self {
            Job::Settled(outcome) => Some(*outcome),
            Job::Running(running) => {
                if running.registers.place < S::B {
                    Some(running.result(make.form))
                } else {
                    None
                }
            }
        }
    }
}

/// Gives the outcome of X = 1/4.
fn quarter_outcome(operand: Operand) -> Outcome
    ensures { result ≡ quarter_outcome operand.q }
{
    Outcome {
        f: 1 << (operand.q + 1),
        exact: true,
    }
}
