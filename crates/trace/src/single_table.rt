use crate::table;
use number_form::NumberForm;
use recurrence::job::Job;
use recurrence::make::Make;
use selection::Selector;
use single::answer::Answer;
use single::decoded::Decoded;
use single::mode::Mode;
use single::positive::Positive;
use std::io;
use std::num::f32_from_bits_with_nan;

/// Prints a single from its word to the word of its reciprocal root.
pub(crate) fn print<S: Selector, F: NumberForm>(
    rt: &impl Print,
    make: &Make<'_, S, F>,
    word: u32,
    mode: Mode,
) -> io::Result<()> {
    match Decoded::from(word) {
        Decoded::Special(special) => {
            println!(rt; "{word:08x} is {special}: settled at once")?;
            print_answer(rt, special.answer())
        }
        Decoded::Positive(number) => {
            print_decoding(rt, word, number)?;
            print_digits(rt, make, number, mode)
        }
    }
}

/// Prints the significand, the exponent and the operand that they give.
fn print_decoding(rt: &impl Print, word: u32, number: Positive) -> io::Result<()> {
    let value = f32_from_bits_with_nan(word);
    let m = number.significand;
    let e = number.exponent;
    println!(rt; "{word:08x} is {value}: significand m = {m:06x}, exponent field E = {e}")?;
    let parity = if number.operand().x == m {
        "odd, so x = m"
    } else {
        "even, so x = 2m"
    };
    println!(rt; "E is {parity}")
}

/// Works the operand off, digit by digit, and prints what it is rounded to.
fn print_digits<S: Selector, F: NumberForm>(
    rt: &impl Print,
    make: &Make<'_, S, F>,
    number: Positive,
    mode: Mode,
) -> io::Result<()> {
    let operand = number.operand();
    let mut job = Job::begin(make, operand);
    table::print_job(rt, make, operand, &mut job)?;
    if let Some(outcome) = job.outcome(make) {
        if outcome.exact {
            println!(rt; "rounded not at all, since it is exact:")?;
        } else if mode == Mode::Nearest {
            println!(rt; "rounded to the nearest single:")?;
        } else {
            println!(rt; "rounded {mode}:")?;
        }
        print_answer(rt, number.round(outcome, mode))?;
    }
    Ok(())
}

/// Prints the result's word, its value and the marks by name.
fn print_answer(rt: &impl Print, answer: Answer) -> io::Result<()> {
    let Answer { word, marks } = answer;
    let value = f32_from_bits_with_nan(word);
    println!(rt; "{word:08x} = {value}, marks: {marks}")
}
