// story: plays the story of a slow job that outlives its hold, on a bank of each of the six makes, and prints each call with its answer.
#![tactic(auto)]

mod words;

use bank::bank::Bank;
use number_form::NumberForm;
use number_form::borrow_save::BorrowSave;
use number_form::carry_save::CarrySave;
use number_form::plain::Plain;
use protocol::call::Play;
use protocol::story::slow_job;
use selection::Selector;
use selection::radix2::Radix2;
use selection::radix4::Radix4;
use std::io;
use words::InWords;

fn main(rt: HostRuntime) -> io::Result<()> {
    println!(rt; "A slow job outlives its hold, by all six makes")?;
    play_in_each_form(&rt, Radix2)?;
    play_in_each_form(&rt, Radix4)
}

/// Plays it over a selector, in each of the three forms.
fn play_in_each_form<S: Selector + Copy + Drop>(rt: &impl Print, selector: S) -> io::Result<()> {
    play(rt, "plain", selector, Plain)?;
    play(rt, "carry-save", selector, CarrySave)?;
    play(rt, "borrow-save", selector, BorrowSave)
}

/// Plays it on a new bank, and prints the make and each call with its answer.
fn play<S: Selector + Drop, F: NumberForm + Drop>(
    rt: &impl Print,
    form_name: &str,
    selector: S,
    form: F,
) -> io::Result<()> {
    selector.lawful();
    println!(rt; "radix {}, {form_name}", 1u32 << S::B)?;
    let mut bank = Bank::new(selector, form);
    let mut plays = slow_job();
    bank.play(&mut plays);
    for Play { call, reply } in plays {
        let call = InWords(call);
        match reply {
            None => println!(rt; "  {call}: not played")?,
            Some(Err(refusal)) => println!(rt; "  {call}: refused by {}", refusal.number())?,
            Some(Ok(reply)) => println!(rt; "  {call}: {}", InWords(reply))?,
        }
    }
    Ok(())
}
