use bank::bank::Bank;
use control::control::Control;
use number_form::plain::Plain;
use records::fault::Fault;
use selection::radix2::Radix2;
use std::test::Fail;
use stream::run::{Report, run};

/// Gives the number of the fault that ended a run, with its place, where one did.
fn ended(report: Report) -> Option<(u32, usize)> {
    report.stop.map(|stop| (stop.fault.number(), stop.place))
}

#[test]
fn room_for_eight_bytes(rt: HostRuntime) -> Result<(), Fail> {
    let mut bank = Bank::new(Radix2, Plain);
    let mut control = Control::new();
    let mut output = [0xAA; 10];
    let report = run(&mut bank, &mut control, &[9, 9, 9], &mut output)?;
    assert_eq!(rt; report.written, 4);
    assert_eq!(rt; ended(report), Some((17, 2)));
    Ok(())
}

#[test]
fn longest_input(rt: HostRuntime) -> Result<(), Fail> {
    let mut bank = Bank::new(Radix2, Plain);
    let mut control = Control::new();
    let input = [9; 32768];
    let mut output = [0xAA; 65536];
    let report = run(&mut bank, &mut control, &input, &mut output)?;
    assert_eq!(rt; report.written, 65530);
    assert_eq!(rt; output[65529], 0);
    assert_eq!(rt; output[65530], 0xAA);
    assert_eq!(rt; ended(report), Some((17, 32765)));
    Ok(())
}

#[test]
fn too_long_an_input(rt: HostRuntime) {
    let mut bank = Bank::new(Radix2, Plain);
    let mut control = Control::new();
    let input = [9; 32769];
    let mut output = [0xAA; 16];
    let report = run(&mut bank, &mut control, &input, &mut output);
    assert_eq!(rt; report.map_err(Fault::number), Err(18));
    assert_eq!(rt; output[0], 0xAA);
}
