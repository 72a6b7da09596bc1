ghost use Rattle.std.specs.Prelude.{◌≡◌, ◌≤◌, length};
ghost use Rattle.lanes.specs.Seen.{seen};
ghost use Rattle.stream.specs.Runs.{Runs, Ran};
ghost use Rattle.bank.specs.Makes.{models, KeepsMake};

use crate::turn::turn;
use crate::writer::Writer;
use bank::bank::Bank;
use control::control::Control;
use number_form::NumberForm;
use records::fault::{Fault, Placed};
use records::reader::Reader;
use selection::Selector;
use std::ops::ControlFlow;

/// What a run came to: how many bytes it wrote, and the fault that ended it before the input did, with its place.
#[derive(Clone, Copy, Drop, PartialEq, Eq, Debug)]
pub struct Report {
    pub written: usize,
    pub stop: Option<Placed>,
}

/// The input may have so many bytes.
pub const LONGEST: usize = 32768;

/// Works off the records of an input on a bank and a control, and writes the answers.
// bank and control stay two references here and below: in one struct each contract would say besides which bank and control it refers to
pub fn run<S: Selector, F: NumberForm>(
    bank: &mut Bank<S, F>,
    control: &mut Control,
    input: &[u8],
    output: &mut [u8],
) -> Result<Report, Fault>
    ensures runs { Runs (models S.model F.model bank.old) input.now output.old output.new (seen bank.old.lanes) (seen bank.new.lanes) control.old control.new result }
    ensures make { KeepsMake bank.old bank.new }
{
    if input.len() > LONGEST {
        return Err(Fault::TooLong);
    }
    Ok(work_off(bank, control, input, output))
}

/// Works off the records of an input that is not too long.
#[tactic(auto, using(crate::proofs::Coursing::start, crate::proofs::Coursing::again))]
fn work_off<S: Selector, F: NumberForm>(
    bank: &mut Bank<S, F>,
    control: &mut Control,
    input: &[u8],
    output: &mut [u8],
) -> Report
    requires { length input.now ≤ 32768 }
    ensures ran { Ran (models S.model F.model bank.old) input.now output.old output.new (seen bank.old.lanes) (seen bank.new.lanes) control.old control.new result }
    ensures make { KeepsMake bank.old bank.new }
{
    let mut reader = Reader::new(input);
    let mut writer = Writer::new(output);
    loop {
        if let ControlFlow::Break(stop) = turn(bank, control, &mut reader, &mut writer) {
            return Report {
                written: writer.used(),
                stop,
            };
        }
    }
}
