use bank::bank::Bank;
use control::collecting::Collecting;
use control::control::Control;
use hold::hold::Hold;
use number_form::NumberForm;
use number_form::borrow_save::BorrowSave;
use number_form::plain::Plain;
use protocol::refusal::Refusal;
use selection::Selector;
use selection::radix2::Radix2;
use selection::radix4::Radix4;
use single::answer::Answer;
use single::mode::Mode;
use std::process::Abort;
use std::test::Fail;

/// Works a single off in a bank, and collects it in a span of a mode.
fn told<S: Selector, F: NumberForm>(
    bank: &mut Bank<S, F>,
    control: &mut Control,
    word: u32,
    mode: Mode,
) -> Result<Answer, Refusal> {
    let hold = Hold::take(bank, 3, 1)?;
    hold.load32(bank, word)?;
    hold.step(bank, 7)?;
    hold.step(bank, 100)?;
    let mut span = control.spanned(mode);
    hold.collect(bank, &mut span)
        .map_err(|rejected| rejected.refusal)
}

/// Two holders of one single, in banks of two makes, are told the same in one mode.
fn alike(rt: &impl Abort, word: u32, mode: Mode) -> Result<Answer, Fail> {
    let mut first = Bank::new(Radix2, Plain);
    let mut second = Bank::new(Radix4, BorrowSave);
    let mut control = Control::new();
    let a = told(&mut first, &mut control, word, mode)?;
    let b = told(&mut second, &mut control, word, mode)?;
    assert_eq!(rt; a, b);
    assert_eq!(rt; control.marks(), a.marks);
    Ok(a)
}

#[test]
fn two_makes_in_all_modes(rt: HostRuntime) -> Result<(), Fail> {
    for (mode, word) in [
        (Mode::Nearest, 0x3f35_04f3),
        (Mode::TowardZero, 0x3f35_04f3),
        (Mode::Up, 0x3f35_04f4),
        (Mode::Down, 0x3f35_04f3),
    ] {
        assert_eq!(rt; alike(&rt, 0x4000_0000, mode)?.word, word, "{mode}");
    }
    Ok(())
}

#[test]
fn earlier_mode_after_a_span(rt: HostRuntime) -> Result<(), Fail> {
    let mut control = Control::new();
    control.set_mode(Mode::Up);
    let mut bank = Bank::new(Radix2, Plain);
    let answer = told(&mut bank, &mut control, 0x8000_0000, Mode::Down)?;
    assert_eq!(rt; answer.word, 0xff80_0000);
    assert_eq!(rt; control.marks().number(), 4);
    assert_eq!(rt; control.mode(), Mode::Up);
    Ok(())
}
