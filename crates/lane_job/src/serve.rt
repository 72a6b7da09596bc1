ghost use Rattle.std.specs.Prelude.{◌≡◌};
ghost use Rattle.protocol.specs.declared.call.Request.TheVariants.{Load, Load32, Step, Look, Collect};
ghost use Rattle.protocol.specs.Operands.{models};
ghost use Rattle.protocol.specs.Bank.{serve, said};
ghost use Rattle.lane_job.specs.Seen.{seen_option, served_load, served_step, served_collect, shown, FewMade};

use crate::job::LaneJob;
use number_form::NumberForm;
use protocol::refusal::Refusal;
use recurrence::make::Make;
use selection::Selector;
use selection::operand::Operand;
use single::answer::Answer;
use single::mode::Mode;

/// Loads a fixed-point operand where no job is loaded.
// functions and not methods: a lane's job is an `Option` here, and the make is of another crate
pub fn serve_load<S: Selector, F: NumberForm>(
    make: &Make<'_, S, F>,
    job: Option<LaneJob>,
    k: u32,
    q: u32,
    x: u32,
) -> Result<LaneJob, Refusal>
    ensures { served_load result ≡ serve (models S.model F.model make.now) (seen_option job) (Load k q x) }
{
    if job.is_some() {
        return Err(Refusal::AlreadyLoaded);
    }
    let operand = Operand::new(k, q, x)?;
    Ok(LaneJob::begin(make, operand))
}

/// Loads a single where no job is loaded.
pub fn serve_load32<S: Selector, F: NumberForm>(
    make: &Make<'_, S, F>,
    job: Option<LaneJob>,
    word: u32,
) -> Result<LaneJob, Refusal>
    ensures { served_load result ≡ serve (models S.model F.model make.now) (seen_option job) (Load32 word) }
{
    if job.is_some() {
        return Err(Refusal::AlreadyLoaded);
    }
    Ok(LaneJob::begin_single(make, word))
}

/// Makes the lesser of the count and the digits left, and tells how many.
pub fn serve_step<S: Selector, F: NumberForm>(
    make: &Make<'_, S, F>,
    job: Option<LaneJob>,
    count: u32,
) -> Result<(u32, LaneJob), Refusal>
    ensures { served_step result ≡ serve (models S.model F.model make.now) (seen_option job) (Step count) }
{
    let job = job.ok_or(Refusal::NoJob)?;
    let digits = count.min(job.left(make));
    Ok((digits, job.turns(make, digits)))
}

/// Tells the digits made and the partial result.
pub fn serve_look<S: Selector, F: NumberForm>(
    make: &Make<'_, S, F>,
    job: Option<LaneJob>,
) -> Result<(u32, u32), Refusal>
    ensures is { shown result ≡ said (serve (models S.model F.model make.now) (seen_option job) Look) }
    ensures few { FewMade result }
{
    let job = job.ok_or(Refusal::NoJob)?;
    Ok((job.made(make), job.partial()))
}

/// Tells word and marks, once all digits are made.
pub fn serve_collect<S: Selector, F: NumberForm>(
    make: &Make<'_, S, F>,
    job: Option<LaneJob>,
    mode: Mode,
) -> Result<Answer, Refusal>
    ensures { served_collect result ≡ serve (models S.model F.model make.now) (seen_option job) (Collect mode) }
{
    let job = job.ok_or(Refusal::NoJob)?;
    job.told(make, mode).ok_or(Refusal::DigitsLeft)
}
