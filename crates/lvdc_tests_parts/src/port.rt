use crate::same::same;
use lvdc_port::{
    DeviceFault, Failing, PortDevice, PortRequest, Recorder, Tape, exchange, prepare_all,
};
use lvdc_word::Word;
use std::test::Fail;

#[test]
fn a_failing_tape_keeps_its_words(rt: HostRuntime) -> Result<(), Fail> {
    let alloc = rt.alloc();
    let mut tape = Failing::new(Tape::new(alloc, 3), Vec::from_slice(alloc, &[1])?);
    tape.supply(Word::within(0o7))?;
    let mut devices: Vec<Box<dyn PortDevice>> = Vec::new(alloc);
    devices.push(Box::new(alloc, tape)?)?;
    prepare_all(&mut devices, 1)?;
    let request = PortRequest::Read { port: 3 };
    let failed = exchange(&mut devices, Word::ZERO, request).err();
    same(&rt, failed, Some(DeviceFault { port: 3, faults: 1 }));
    let read = exchange(&mut devices, Word::ZERO, request).ok();
    same(&rt, read, Some(Word::within(0o7)));
    Ok(())
}

#[test]
fn a_fault_of_a_device_is_printed(rt: HostRuntime) -> Result<(), Fail> {
    let fault = DeviceFault { port: 3, faults: 2 };
    let printed = format!(in rt.alloc(); "{fault}")?;
    let wanted = "the device at port 003 failed; it has counted 2 faults";
    same(&rt, printed.as_str(), wanted);
    Ok(())
}

#[test]
fn a_tape_and_a_recorder_show_their_words(rt: HostRuntime) -> Result<(), Fail> {
    let alloc = rt.alloc();
    let word = Word::within(0o5);
    let mut tape = Tape::new(alloc, 0);
    tape.supply(word)?;
    same(&rt, tape.left(), [word].as_slice());
    let mut recorder = Recorder::new(alloc, 0o17);
    recorder.prepare(1)?;
    recorder.write(Word::ZERO, word)?;
    same(&rt, recorder.words(), [word].as_slice());
    Ok(())
}
