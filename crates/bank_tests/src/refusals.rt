use bank::bank::Bank;
use number_form::plain::Plain;
use protocol::call::Name;
use protocol::refusal::Refusal;
use selection::radix2::Radix2;
use single::mode::{Mode, ModeRefusal};
use std::test::Fail;

/// Gives the number of a refusal, where there is one.
fn refused<T: Drop>(res: Result<T, Refusal>) -> Option<u32> {
    res.err().map(Refusal::number)
}

#[test]
fn takes(rt: HostRuntime) -> Result<(), Fail> {
    let mut bank = Bank::new(Radix2, Plain);
    assert_eq!(rt; refused(bank.take(8, 1)), Some(5));
    assert_eq!(rt; refused(bank.take(256, 1)), Some(5));
    bank.take(7, 9)?;
    assert_eq!(rt; refused(bank.take(7, 0)), Some(6));
    assert_eq!(rt; refused(bank.take(6, 0)), Some(7));
    bank.tick(1)?;
    assert_eq!(rt; refused(bank.take(6, u32::MAX)), Some(7));
    bank.take(6, u32::MAX - 1)?;
    assert_eq!(rt; refused(bank.tick(0)), Some(13));
    Ok(())
}

#[test]
fn serials_used_up(rt: HostRuntime) -> Result<(), Fail> {
    let mut bank = Bank::new(Radix2, Plain);
    let mut last = 0;
    for _ in 0..u32::MAX {
        last = bank.take(0, 1)?;
        bank.give(Name {
            lane: 0,
            serial: last,
        })?;
    }
    assert_eq!(rt; last, u32::MAX);
    assert_eq!(rt; refused(bank.take(0, 0)), Some(7));
    assert_eq!(rt; refused(bank.take(0, 1)), Some(8));
    Ok(())
}

#[test]
fn calls_with_a_hold(rt: HostRuntime) -> Result<(), Fail> {
    let mut bank = Bank::new(Radix2, Plain);
    let serial = bank.take(2, 9)?;
    let hold = Name { lane: 2, serial };
    let nobody = Name { lane: 258, serial };
    assert_eq!(rt; refused(bank.load(nobody, 4, 4, 8)), Some(9));
    assert_eq!(rt; refused(bank.load32(nobody, 0)), Some(9));
    assert_eq!(rt; refused(bank.step(nobody, 1)), Some(9));
    assert_eq!(rt; refused(bank.look(nobody)), Some(9));
    assert_eq!(rt; refused(bank.collect(nobody, Mode::Nearest)), Some(9));
    assert_eq!(rt; refused(bank.give(nobody)), Some(9));
    assert_eq!(rt; refused(bank.step(hold, 1)), Some(11));
    assert_eq!(rt; refused(bank.look(hold)), Some(11));
    assert_eq!(rt; refused(bank.collect(hold, Mode::Nearest)), Some(11));
    assert_eq!(rt; refused(bank.load(hold, 3, 3, 0)), Some(1));
    assert_eq!(rt; refused(bank.load(hold, 4, 3, 0)), Some(2));
    assert_eq!(rt; refused(bank.load(hold, 4, 4, 3)), Some(3));
    bank.load(hold, 4, 4, 8)?;
    assert_eq!(rt; refused(bank.load(hold, 3, 3, 0)), Some(10));
    assert_eq!(rt; refused(bank.load32(hold, 0)), Some(10));
    assert_eq!(rt; refused(bank.collect(hold, Mode::Nearest)), Some(12));
    bank.step(hold, 4)?;
    bank.tell(hold, Mode::Nearest)?;
    bank.collect(hold, Mode::Nearest)?;
    assert_eq!(rt; refused(bank.give(hold)), Some(9));
    Ok(())
}

#[test]
fn modes(rt: HostRuntime) {
    assert_eq!(rt; Mode::try_from(4).map_err(ModeRefusal::number), Err(4));
}
