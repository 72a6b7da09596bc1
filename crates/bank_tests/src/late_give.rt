use bank::bank::Bank;
use control::collecting::Collecting;
use control::control::Control;
use hold::hold::Hold;
use number_form::NumberForm;
use number_form::borrow_save::BorrowSave;
use number_form::carry_save::CarrySave;
use number_form::plain::Plain;
use selection::Selector;
use selection::radix2::Radix2;
use selection::radix4::Radix4;
use std::process::Abort;
use std::test::Fail;

/// A slow job outlives its hold, and its late give changes nothing of the next holder's job.
fn late_give<S: Selector + Drop, F: NumberForm + Drop>(
    rt: &impl Abort,
    selector: S,
    form: F,
) -> Result<(), Fail> {
    let mut bank = Bank::new(selector, form);
    let slow = Hold::take(&mut bank, 0, 5)?;
    slow.load(&mut bank, 4, 4, 8)?;
    slow.step(&mut bank, 2)?;
    bank.tick(4)?;
    slow.look(&bank)?;
    bank.tick(5)?;
    let next = Hold::take(&mut bank, 0, 10)?;
    next.load(&mut bank, 4, 4, 5)?;
    next.step(&mut bank, 1)?;
    let before = next.look(&bank)?;
    let rejected = slow
        .give(&mut bank)
        .err()
        .ok_or("the late give is accepted")?;
    assert_eq!(rt; rejected.refusal.number(), 9);
    assert_eq!(rt; rejected.hold.name().serial, 1);
    assert_eq!(rt; next.look(&bank)?, before);
    next.step(&mut bank, 9)?;
    let mut control = Control::new();
    let answer = next
        .collect(&mut bank, &mut control)
        .map_err(|rejected| rejected.refusal)?;
    assert_eq!(rt; answer.word, 28);
    assert_eq!(rt; control.marks().number(), 1);
    Ok(())
}

/// The same over a selector, in each of the three forms.
fn late_give_in_each_form<S: Selector + Copy + Drop>(
    rt: &impl Abort,
    selector: S,
) -> Result<(), Fail> {
    late_give(rt, selector, Plain)?;
    late_give(rt, selector, CarrySave)?;
    late_give(rt, selector, BorrowSave)
}

#[test]
fn late_give_in_radix_2(rt: HostRuntime) -> Result<(), Fail> {
    late_give_in_each_form(&rt, Radix2)
}

#[test]
fn late_give_in_radix_4(rt: HostRuntime) -> Result<(), Fail> {
    late_give_in_each_form(&rt, Radix4)
}
