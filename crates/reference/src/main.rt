// reference: runs the reference jobs, and compares all makes on every small operand.
#![tactic(auto)]

mod makes;

use exports::task::SingleTask;
use makes::six;
use number_form::plain::Plain;
use recurrence::job::Job;
use recurrence::make::Make;
use reference_rows::{Rows, reference_rows};
use selection::Selector;
use selection::operand::Operand;
use selection::radix2::Radix2;
use selection::radix4::Radix4;
use single::mode::Mode;
use std::io;

fn main(rt: HostRuntime) -> io::Result<()> {
    established(&rt)?;
    println!(rt; "Refusals and sizes")?;
    for (k, q, x) in SIZES {
        run(&rt, k, q, x)?;
    }
    println!(rt; "Digits over plain numbers, K = 4, Q = 4")?;
    let radix_2 = Make {
        selector: &Radix2,
        form: &Plain,
    };
    let radix_4 = Make {
        selector: &Radix4,
        form: &Plain,
    };
    for x in [8, 9, 10] {
        digits(&rt, &radix_2, "radix 2", x)?;
        digits(&rt, &radix_4, "radix 4", x)?;
    }
    println!(rt; "Further jobs by all six makes")?;
    for (k, q, x) in FURTHER {
        run(&rt, k, q, x)?;
    }
    every_small_operand(&rt)?;
    println!(rt; "Singles by all six makes: nearest, toward zero, up, down, and the marks")?;
    for word in SINGLES {
        run_single(&rt, word)?;
    }
    Ok(())
}

/// Runs the established rows.
fn established(rt: &HostRuntime) -> io::Result<()> {
    let Rows { fixed, singles } = reference_rows();
    println!(rt; "The established rows, K = 4, Q = 4, by all six makes")?;
    for row in fixed {
        let expected = row.f;
        print!(rt; "expected {expected:2}: ")?;
        run(rt, 4, 4, row.x)?;
    }
    println!(rt; "The established singles by all six makes")?;
    for row in singles {
        let operand = row.operand;
        let expected = row.result;
        print!(rt; "{operand:08x} expected {expected:08x}: ")?;
        print_single(rt, operand, row.mode)?;
        println!(rt)?;
    }
    Ok(())
}

/// Operands at the limits of K, Q and x.
const SIZES: [(u32, u32, u32); 8] = [
    (4, 4, 3),
    (4, 4, 16),
    (28, 28, 268435455),
    (28, 28, 67108864),
    (29, 28, 67108864),
    (28, 3, 67108864),
    (28, 30, 67108864),
    (3, 3, 0),
];

/// Operands of several widths, among them ones on which wrong twins have differed.
const FURTHER: [(u32, u32, u32); 16] = [
    (18, 26, 167745),
    (10, 8, 537),
    (12, 8, 1097),
    (4, 2, 7),
    (4, 28, 5),
    (28, 2, 67108865),
    (28, 28, 67108865),
    (28, 28, 100663296),
    (28, 28, 201326592),
    (25, 24, 8388609),
    (25, 24, 12582912),
    (25, 24, 16777217),
    (25, 24, 33554431),
    (16, 16, 24576),
    (20, 22, 786431),
    (27, 14, 123456789),
];

/// Special words, both ends of the exponent range, both parities and neighbours of powers of four.
const SINGLES: [u32; 40] = [
    0x0000_0000,
    0x8000_0000,
    0x0000_0001,
    0x8000_0001,
    0x007f_ffff,
    0x807f_ffff,
    0x7f80_0000,
    0xff80_0000,
    0x7fc0_0000,
    0x7fff_ffff,
    0x7f80_0001,
    0x7fbf_ffff,
    0xffc0_0001,
    0xff80_0001,
    0xbf80_0000,
    0x8080_0000,
    0xff7f_ffff,
    0x0080_0000,
    0x0080_0001,
    0x00ff_ffff,
    0x0100_0000,
    0x0100_0001,
    0x017f_ffff,
    0x7e80_0000,
    0x7eff_ffff,
    0x7f00_0000,
    0x7f00_0001,
    0x7f7f_ffff,
    0x3e80_0000,
    0x3e80_0001,
    0x3eff_ffff,
    0x3f00_0000,
    0x3f7f_ffff,
    0x3f80_0000,
    0x3f80_0001,
    0x3fff_ffff,
    0x4000_0000,
    0x4040_0000,
    0x4049_0fdb,
    0x4120_0000,
];

/// Runs a job on all makes and prints what they come to.
fn run(rt: &HostRuntime, k: u32, q: u32, x: u32) -> io::Result<()> {
    print!(rt; "K {k:2}  Q {q:2}  x {x:9}: ")?;
    match Operand::new(k, q, x) {
        Err(refusal) => {
            let number = refusal.number();
            println!(rt; "refused by {number}")
        }
        Ok(operand) => match six(&operand) {
            None => println!(rt; "the makes differ"),
            Some(outcome) => {
                let f = outcome.f;
                let exactness = if outcome.exact { "exact" } else { "inexact" };
                println!(rt; "{f} {exactness}")
            }
        },
    }
}

/// Prints the digits of a job and the partial result that they end at.
fn digits<S: Selector>(
    rt: &HostRuntime,
    make: &Make<'_, S, Plain>,
    name: &str,
    x: u32,
) -> io::Result<()> {
    let Ok(operand) = Operand::new(4, 4, x) else {
        return Ok(());
    };
    let mut job = Job::begin(make, operand);
    print!(rt; "{name}  x {x:2}:")?;
    for _ in 0..job.left(make.selector) {
        if let Some(choice) = job.turn(make) {
            let digit = choice.digit;
            print!(rt; " {digit}")?;
        }
    }
    if let Some(registers) = job.registers() {
        let s = registers.partial.s;
        println!(rt; ", ending at {s}")?;
    }
    Ok(())
}

/// Compares all makes on every operand with K up to 10 and Q up to 8.
fn every_small_operand(rt: &HostRuntime) -> io::Result<()> {
    let mut jobs = 0u32;
    let mut differences = 0u32;
    for k in 4..=10 {
        for q in (2..=8).step_by(2) {
            for x in 0..=1024 {
                if let Ok(operand) = Operand::new(k, q, x) {
                    jobs = jobs.saturating_add(1);
                    if six(&operand).is_none() {
                        differences = differences.saturating_add(1);
                    }
                }
            }
        }
    }
    println!(rt;
        "Every operand with K up to 10 and Q up to 8: {jobs} jobs, {differences} on which the makes differ"
    )
}

/// Runs a single in all modes on all makes.
fn run_single(rt: &HostRuntime, word: u32) -> io::Result<()> {
    print!(rt; "{word:08x}:")?;
    for mode in [Mode::Nearest, Mode::TowardZero, Mode::Up, Mode::Down] {
        print!(rt; " ")?;
        print_single(rt, word, mode)?;
    }
    println!(rt)
}

/// Prints what a single comes to on all makes, with the number of its marks.
fn print_single(rt: &HostRuntime, word: u32, mode: Mode) -> io::Result<()> {
    match six(&SingleTask { word, mode }) {
        None => print!(rt; "the makes differ"),
        Some(answer) => {
            let result = answer.word;
            let marks = answer.marks.number();
            print!(rt; "{result:08x}/{marks}")
        }
    }
}
