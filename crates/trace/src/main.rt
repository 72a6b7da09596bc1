// trace: works one job off and tells a person what it did, digit by digit.
#![tactic(auto)]

mod number;
mod request;
mod single_table;
mod table;
mod trouble;

use number_form::NumberForm;
use number_form::borrow_save::BorrowSave;
use number_form::carry_save::CarrySave;
use number_form::plain::Plain;
use recurrence::make::Make;
use request::{Form, Radix, Request, Task};
use selection::Selector;
use selection::radix2::Radix2;
use selection::radix4::Radix4;
use std::io;
use std::process::ExitCode;
use std::rt::Env;
use trouble::Trouble;

fn main(rt: HostRuntime) -> ExitCode {
    match run(&rt) {
        Ok(()) => ExitCode::SUCCESS,
        Err(trouble) => {
            // where this can't be written either, the status alone tells
            let _ = eprintln!(rt; "trace: {trouble}");
            ExitCode::FAILURE
        }
    }
}

/// Does what the arguments ask for.
fn run(rt: &(impl Env + AllocGlobal + Print)) -> Result<(), Trouble> {
    let Request { radix, form, task } = request::read(rt)?;
    match radix {
        Radix::Two => run_over(rt, &Radix2, form, task)?,
        Radix::Four => run_over(rt, &Radix4, form, task)?,
    }
    Ok(())
}

/// Works a task off over a selector, in the form that is named.
fn run_over<S: Selector>(rt: &impl Print, selector: &S, form: Form, task: Task) -> io::Result<()> {
    match form {
        Form::Plain => {
            let form = &Plain;
            work_off(rt, &Make { selector, form }, task)
        }
        Form::CarrySave => {
            let form = &CarrySave;
            work_off(rt, &Make { selector, form }, task)
        }
        Form::BorrowSave => {
            let form = &BorrowSave;
            work_off(rt, &Make { selector, form }, task)
        }
    }
}

/// Works a task off over a make.
fn work_off<S: Selector, F: NumberForm>(
    rt: &impl Print,
    make: &Make<'_, S, F>,
    task: Task,
) -> io::Result<()> {
    match task {
        Task::Help => rt.println(request::HELP),
        Task::Fixed(operand) => table::print(rt, make, operand),
        Task::Single(word, mode) => single_table::print(rt, make, word, mode),
    }
}
