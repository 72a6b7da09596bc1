ghost use Rattle.std.specs.Prelude.{◌≡◌, ℕ, ◌^◌, ◌<◌};
ghost use Rattle.protocol.specs.declared.call.Call.TheVariants.{Ask};
ghost use Rattle.protocol.specs.declared.call.Request.TheVariants.{Collect};
ghost use Rattle.protocol.specs.Bank.{answer, after};
ghost use Rattle.records.specs.Records.{item, label_length};
ghost use Rattle.lanes.specs.Seen.{seen};
ghost use Rattle.stream.specs.Entries.{entry, calling, numbers, shown, stated, heard, hears, bank_then, control_then};
ghost use Rattle.stream.specs.Tellings.{telling, IsShort, IsShortReply};
ghost use Rattle.bank.specs.Makes.{models, KeepsMake};

use crate::told::Told;
use bank::bank::Bank;
use control::collecting::Collecting;
use control::control::Control;
use number_form::NumberForm;
use protocol::call::{Call, Name, Reply, Request};
use records::fault::Fault;
use records::record::Record;
use selection::Selector;
use single::mode::Mode;

/// Works off a record, and gives what it tells, or its fault.
pub(crate) fn answer<S: Selector, F: NumberForm>(
    bank: &mut Bank<S, F>,
    control: &mut Control,
    asked: Record<'_>,
) -> Result<Told, Fault>
    requires { label_length (item asked) < 2 ^ 21 }
    ensures says { (place : ℕ) → stated telling place result ≡ numbers (entry (models S.model F.model bank.old) (seen bank.old.lanes) control.old place (item asked.entry)) }
    ensures short { IsShort result }
    ensures bank { (place : ℕ) → seen bank.new.lanes ≡ bank_then (models S.model F.model bank.old) (seen bank.old.lanes) (entry (models S.model F.model bank.old) (seen bank.old.lanes) control.old place (item asked.entry)) }
    ensures control { (place : ℕ) → control.new ≡ control_then control.old (entry (models S.model F.model bank.old) (seen bank.old.lanes) control.old place (item asked.entry)) }
    ensures make { KeepsMake bank.old bank.new }
{
    match asked {
        Record::Note(label) => Ok(Told::Noted {
            length: label.len() as u32,
        }),
        Record::Call(asked) => Ok(Told::Called(call(bank, control, asked)?)),
        Record::Collect { name, mode } => {
            let mode = Mode::try_from(mode)?;
            Ok(Told::Called(collect(bank, control, name, mode)?))
        }
        Record::Marks => Ok(Told::Marked(control.marks())),
    }
}

/// Makes a call, a collect in a span of its mode.
fn call<S: Selector, F: NumberForm>(
    bank: &mut Bank<S, F>,
    control: &mut Control,
    call: Call,
) -> Result<Reply, Fault>
    ensures says { (place : ℕ) → stated shown place result ≡ numbers (calling (models S.model F.model bank.old) (seen bank.old.lanes) place call) }
    ensures short { IsShortReply result }
    ensures leaves { seen bank.new.lanes ≡ after (models S.model F.model bank.old) (seen bank.old.lanes) call }
    ensures control { control.new ≡ hears call control.old (answer (models S.model F.model bank.old) (seen bank.old.lanes) call) }
    ensures make { KeepsMake bank.old bank.new }
{
    match call {
        Call::Ask {
            name,
            request: Request::Collect { mode },
        } => collect(bank, control, name, mode),
        _ => Ok(bank.answer(call)?),
    }
}

/// Collects in a span of the mode.
fn collect<S: Selector, F: NumberForm>(
    bank: &mut Bank<S, F>,
    control: &mut Control,
    name: Name,
    mode: Mode,
) -> Result<Reply, Fault>
    ensures says { (place : ℕ) → stated shown place result ≡ numbers (calling (models S.model F.model bank.old) (seen bank.old.lanes) place (Ask name (Collect mode))) }
    ensures short { IsShortReply result }
    ensures leaves { seen bank.new.lanes ≡ after (models S.model F.model bank.old) (seen bank.old.lanes) (Ask name (Collect mode)) }
    ensures control { control.new ≡ heard control.old (answer (models S.model F.model bank.old) (seen bank.old.lanes) (Ask name (Collect mode))) }
    ensures make { KeepsMake bank.old bank.new }
{
    let mut span = control.spanned(mode);
    let answer = bank.collect(name, span.mode())?;
    span.raise(answer.marks);
    Ok(Reply::Told(answer))
}
