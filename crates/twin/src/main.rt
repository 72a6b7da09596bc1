// twin: runs a vector stream from standard input on a new bank, and writes the answers.
#![tactic(auto)]

mod trouble;

use bank::bank::Bank;
use control::control::Control;
use number_form::plain::Plain;
use records::fault::Placed;
use selection::radix2::Radix2;
use std::io::{Read, Write};
use std::process::ExitCode;
use stream::run::{LONGEST, run};
use trouble::Trouble;

/// The output holds so many bytes.
const OUTPUT: usize = 65536;

fn main(rt: HostRuntime) -> ExitCode {
    match run_input(&rt) {
        Ok(()) => ExitCode::SUCCESS,
        Err(trouble) => {
            // where this can't be written either, the status alone tells
            let _ = eprintln!(rt; "twin: {trouble}");
            ExitCode::FAILURE
        }
    }
}

/// Runs standard input, writes the answers, and says what ended the run before the input did.
fn run_input(rt: &HostRuntime) -> Result<(), Trouble> {
    let mut input = Vec::new(rt.alloc());
    rt.stdin().take(LONGEST as u64 + 1).read_to_end(&mut input)?;
    let mut bank = Bank::new(Radix2, Plain);
    let mut control = Control::new();
    let mut output = [0; OUTPUT];
    let report = run(&mut bank, &mut control, &input, &mut output)?;
    rt.stdout().write_all(&output[..report.written])?;
    if let Some(Placed { fault, place }) = report.stop {
        let number = fault.number();
        eprintln!(rt; "twin: ended by {number} at place {place}: {fault}")?;
    }
    Ok(())
}
