use crate::number::{Binary, Fixed, Hexadecimal};
use number_form::NumberForm;
use recurrence::job::Job;
use recurrence::make::Make;
use recurrence::registers::{Choice, Outcome, Registers};
use selection::Selector;
use selection::operand::Operand;
use std::io;

/// Prints a fixed-point job from its operand to its result.
pub(crate) fn print<S: Selector, F: NumberForm>(
    rt: &impl Print,
    make: &Make<'_, S, F>,
    operand: Operand,
) -> io::Result<()> {
    let mut job = Job::begin(make, operand);
    print_job(rt, make, operand, &mut job)
}

/// Prints a job that has begun, digit by digit, and leaves it finished.
pub(crate) fn print_job<S: Selector, F: NumberForm>(
    rt: &impl Print,
    make: &Make<'_, S, F>,
    operand: Operand,
    job: &mut Job,
) -> io::Result<()> {
    let Operand { k, q, x } = operand;
    let fraction = Fixed { n: x, places: k };
    println!(rt; "X = {x} / 2^{k} = {fraction}, its reciprocal root to {q} places")?;
    match job.registers() {
        None => println!(rt; "X is 1/4: settled, with no digits")?,
        Some(registers) => {
            print_heading(rt, make.selector)?;
            print_row(rt, operand, 0, registers, None)?;
        }
    }
    for j in 1..=job.left(make.selector) {
        let choice = job.turn(make);
        if let Some(registers) = job.registers() {
            print_row(rt, operand, j, registers, choice)?;
        }
    }
    if let Some(outcome) = job.outcome(make) {
        print_outcome(rt, operand, outcome)?;
        print_check(rt, operand, outcome.f)?;
    }
    Ok(())
}

/// Prints what the selector names, and the table's heading.
fn print_heading<S: Selector>(rt: &impl Print, selector: &S) -> io::Result<()> {
    selector.lawful();
    let radix = 1u32 << S::B;
    let largest = S::A;
    let t = S::T;
    let d = S::D;
    println!(rt;
        "radix {radix}, digits from -{largest} to {largest}; W in units of 2^-{t}, P in units of 2^-{d}"
    )?;
    println!(rt)?;
    println!(rt;
        " j  residual, two words                product, two words                     W      P  digit  S"
    )
}

/// Prints the registers after j digits, and how the last digit was chosen.
fn print_row(
    rt: &impl Print,
    operand: Operand,
    j: u32,
    registers: Registers,
    choice: Option<Choice>,
) -> io::Result<()> {
    let residual = Hexadecimal(registers.residual);
    let product = Hexadecimal(registers.product);
    print!(rt; "{j:2}  {residual}  {product}")?;
    print_choice(rt, choice)?;
    let s = Fixed {
        n: registers.partial.s,
        places: operand.q,
    };
    let binary = Binary(s);
    println!(rt; "  {binary} = {s}")
}

/// Prints the estimates and the digit.
fn print_choice(rt: &impl Print, choice: Option<Choice>) -> io::Result<()> {
    let Some(choice) = choice else {
        return print!(rt; "                 start");
    };
    let Choice {
        residual,
        product,
        digit,
    } = choice;
    print!(rt; "  {residual:6} {product:6}  {digit:5}")
}

/// Prints the result.
fn print_outcome(rt: &impl Print, operand: Operand, outcome: Outcome) -> io::Result<()> {
    let Outcome { f, exact } = outcome;
    let q = operand.q;
    let root = Fixed { n: f, places: q };
    let exactness = if exact { "exact" } else { "inexact" };
    println!(rt)?;
    println!(rt; "f = {f}, {exactness}: f / 2^{q} = {root}")
}

/// Prints the check that f is the largest number with x f^2 at most 2^(K+2Q).
fn print_check(rt: &impl Print, operand: Operand, f: u32) -> io::Result<()> {
    let x = u128::from(operand.x);
    let f = u128::from(f);
    let one = 1u128 << (operand.k + 2 * operand.q);
    let below = x * f.pow(2);
    let above = x * (f + 1).pow(2);
    let low = if below <= one { "<=" } else { ">" };
    let high = if one < above { "<" } else { ">=" };
    println!(rt; "x f^2 = {below} {low} 2^(K+2Q) = {one} {high} x (f+1)^2 = {above}")
}
