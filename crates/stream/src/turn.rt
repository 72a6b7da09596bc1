ghost use Rattle.std.specs.Prelude.{◌≡◌, ◌≤◌, length};
ghost use Rattle.lanes.specs.Seen.{seen};
ghost use Rattle.stream.specs.Runs.{Turned};
ghost use Rattle.bank.specs.Makes.{models, KeepsMake};

use crate::answer::answer;
use crate::writer::Writer;
use bank::bank::Bank;
use control::control::Control;
use number_form::NumberForm;
use records::fault::{Fault, Placed};
use records::reader::Reader;
use selection::Selector;
use std::ops::ControlFlow;

/// Works off the next record, and tells whether the run goes on after it, or ends, and by which fault.
#[tactic(auto, using(crate::proofs::Turning::by_fault, crate::proofs::Turning::some_left))]
pub(crate) fn turn<S: Selector, F: NumberForm>(
    bank: &mut Bank<S, F>,
    control: &mut Control,
    reader: &mut Reader<'_>,
    writer: &mut Writer<'_>,
) -> ControlFlow<Option<Placed>>
    requires { length reader.old.input.now ≤ 32768 }
    ensures input { reader.new.input.now ≡ reader.old.input.now }
    ensures output { writer.new.out.ghost_name ≡ writer.old.out.ghost_name }
    ensures turned { Turned (models S.model F.model bank.old) reader.old.input.now reader.old.at reader.new.at writer.old.at writer.old.out.now writer.new.at writer.new.out.now (seen bank.old.lanes) (seen bank.new.lanes) control.old control.new result }
    ensures make { KeepsMake bank.old bank.new }
{
    if reader.is_at_end() {
        return ControlFlow::Break(None);
    }
    let place = reader.place();
    if writer.is_full() {
        return ControlFlow::Break(Some(Placed {
            fault: Fault::NoRoom,
            place,
        }));
    }
    match reader.next() {
        Ok(Some(found)) => {
            let told = answer(bank, control, found.record);
            writer.answer(told, found.place as u32);
            ControlFlow::Continue(())
        }
        Ok(None) => ControlFlow::Break(None),
        Err(placed) => {
            writer.answer(Err(placed.fault), placed.place as u32);
            ControlFlow::Break(Some(placed))
        }
    }
}
