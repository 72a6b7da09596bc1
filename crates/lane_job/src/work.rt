ghost use Rattle.std.specs.Prelude.{◌≡◌, ◌≤◌};
ghost use Rattle.std.specs.Option.{option_map};
ghost use Rattle.recurrence.specs.Recurrence as recurrence;
ghost use Rattle.protocol.specs.Operands.{models};
ghost use Rattle.protocol.specs.Operands.Operand.{fixed, single};
ghost use Rattle.protocol.specs.Jobs.{begun, turned, turns, made, left, partial, told, fixed_answer, worked_by};
ghost use Rattle.lane_job.specs.Seen.{seen_job};

use crate::job::LaneJob;
use number_form::NumberForm;
use recurrence::job::Job;
use recurrence::make::Make;
use recurrence::registers::Outcome;
use selection::Selector;
use selection::operand::Operand;
use single::answer::Answer;
use single::decoded::Decoded;
use single::marks::Marks;
use single::mode::Mode;

impl LaneJob {
    /// Begins a fixed-point job.
    pub(crate) fn begin<S: Selector, F: NumberForm>(
        make: &Make<'_, S, F>,
        operand: Operand,
    ) -> LaneJob
        ensures { seen_job result ≡ begun (models S.model F.model make.now) (fixed operand.k operand.q operand.x) }
    {
        LaneJob::Fixed(Job::begin(make, operand))
    }

    /// Begins a single's job.
    pub(crate) fn begin_single<S: Selector, F: NumberForm>(
        make: &Make<'_, S, F>,
        word: u32,
    ) -> LaneJob
        ensures { seen_job result ≡ begun (models S.model F.model make.now) (single word) }
    {
        match Decoded::from(word) {
            Decoded::Special(special) => LaneJob::Settled(special.answer()),
            Decoded::Positive(number) => {
                let job = Job::begin(make, number.operand());
                LaneJob::Single(number, job)
            }
        }
    }

    /// Makes one digit, where one is left to make.
    // By two arms: one pattern for both over `&mut self` was tried, and its proof did not close.
    pub(crate) fn turn<S: Selector, F: NumberForm>(self, make: &Make<'_, S, F>) -> LaneJob
        ensures { seen_job result ≡ turned (models S.model F.model make.now) (seen_job self) }
    {
        match self {
            LaneJob::Settled(answer) => LaneJob::Settled(answer),
            LaneJob::Fixed(mut job) => {
                let _ = job.turn(make);
                LaneJob::Fixed(job)
            }
            LaneJob::Single(number, mut job) => {
                let _ = job.turn(make);
                LaneJob::Single(number, job)
            }
        }
    }

    /// Makes so many digits, one upon the other.
    pub(crate) fn turns<S: Selector, F: NumberForm>(
        self,
        make: &Make<'_, S, F>,
        count: u32,
    ) -> LaneJob
        ensures { seen_job result ≡ turns (models S.model F.model make.now) count (seen_job self) }
    {
        let mut job = self;
        for _ in 0..count {
            job = job.turn(make);
        }
        job
    }

    /// Gives the recurrence's job that works it; a settled job has none.
    fn worked_by(self) -> Option<Job>
        ensures { option_map (λ job. recurrence.seen job) result ≡ worked_by (seen_job self) }
    {
        match self {
            LaneJob::Settled(_) => None,
            LaneJob::Fixed(job) | LaneJob::Single(_, job) => Some(job),
        }
    }

    /// Counts the digits made.
    pub(crate) fn made<S: Selector, F: NumberForm>(self, make: &Make<'_, S, F>) -> u32
        ensures is { result ≡ made (models S.model F.model make.now) (seen_job self) }
        ensures few { result ≤ 28 }
    {
        self.worked_by().map_or(0, |job| job.made(make.selector))
    }

    /// Counts the digits left to make.
    pub(crate) fn left<S: Selector, F: NumberForm>(self, make: &Make<'_, S, F>) -> u32
        ensures { result ≡ left (models S.model F.model make.now) (seen_job self) }
    {
        self.worked_by().map_or(0, |job| job.left(make.selector))
    }

    /// Gives the partial result.
    pub(crate) fn partial(self) -> u32
        ensures { result ≡ partial (seen_job self) }
    {
        self.worked_by().map_or(0, |job| job.partial_result())
    }

    /// Tells word and marks, once no digit is left to make.
    pub(crate) fn told<S: Selector, F: NumberForm>(
        self,
        make: &Make<'_, S, F>,
        mode: Mode,
    ) -> Option<Answer>
        ensures { result ≡ told (models S.model F.model make.now) mode (seen_job self) }
    {
        match self {
            LaneJob::Settled(answer) => Some(answer),
            LaneJob::Fixed(job) => job.outcome(make).map(fixed_answer),
            LaneJob::Single(number, job) => job
                .outcome(make)
                .map(|outcome| number.round(outcome, mode)),
        }
    }
}

/// Tells what a fixed-point job came to.
fn fixed_answer(outcome: Outcome) -> Answer
    ensures { result ≡ fixed_answer outcome }
{
    Answer {
        word: outcome.f,
        marks: Marks::from(outcome),
    }
}
