//! What the top call tells of an input.
ghost use Rattle.std.specs.Prelude.{◌≡◌, map, IfOk};
ghost use Rattle.lvdc_port.specs.Devices.{AreDistinct};
ghost use Rattle.lvdc_cli.specs.declared.TheConstants.{SESSION_ROOM};

use lvdc_cli::{SESSION_ROOM, lvdc};
use lvdc_port::{Failing, Latch, PortDevice, Recorder, Tape};
use lvdc_reply::Reply;
use lvdc_text::{FaultySink, FaultySource};
use std::alloc::Global;
use std::test::Fail;

/// Which call of each fails, by its number from 1; 0 stands for none.
#[derive(Clone, Copy)]
pub struct Fails {
    pub read: u64,
    pub write: u64,
    pub tape: u64,
    pub latch: u64,
    pub recorder: u64,
}

/// Nothing fails.
pub const NONE: Fails = Fails {
    read: 0,
    write: 0,
    tape: 0,
    latch: 0,
    recorder: 0,
};

/// A tape at port 000, a latch at 014 and a recorder at 017.
fn rack(alloc: Global, fails: Fails) -> Result<Vec<Box<dyn PortDevice>>, Fail>
    ensures { IfOk result (λ devices. AreDistinct (map device_of devices.items)) }
{
    let mut devices: Vec<Box<dyn PortDevice>> = Vec::new(alloc);
    let calls = Vec::from_slice(alloc, &[fails.tape])?;
    devices.push(Box::new(alloc, Failing::new(Tape::new(alloc, 0), calls))?)?;
    let calls = Vec::from_slice(alloc, &[fails.latch])?;
    devices.push(Box::new(alloc, Failing::new(Latch::new(0o14), calls))?)?;
    let calls = Vec::from_slice(alloc, &[fails.recorder])?;
    devices.push(Box::new(alloc, Failing::new(Recorder::new(alloc, 0o17), calls))?)?;
    Ok(devices)
}

/// The words of a command line.
pub fn command(alloc: Global, line: &str) -> Result<Vec<String>, Fail> {
    let mut words = Vec::new(alloc);
    for word in line.split_whitespace() {
        words.push(String::from_str(alloc, word)?)?;
    }
    Ok(words)
}

/// The input, where this read fails.
fn source(alloc: Global, input: &str, read: u64) -> Result<FaultySource, Fail> {
    let bytes = Vec::from_slice(alloc, input.as_bytes())?;
    Ok(FaultySource::new(bytes, Vec::from_slice(alloc, &[read])?))
}

/// Room for any answer, where this write fails.
fn sink(alloc: Global, write: u64) -> Result<FaultySink, Fail>
    ensures { IfOk result (λ sink. sink.room ≡ SESSION_ROOM) }
{
    let calls = Vec::from_slice(alloc, &[write])?;
    Ok(FaultySink::with_room(alloc, SESSION_ROOM, calls)?)
}

/// Adds the port of a device and the words that it holds, in octal, and a stroke.
fn put_held(alloc: Global, told: &mut String, device: &Box<dyn PortDevice>) -> Result<(), Fail> {
    let port = device.port();
    told.push_str(format!(in alloc; "{port:03o}:")?.as_str())?;
    for index in 0..8 {
        if let Some(word) = device.held(index) {
            told.push_str(format!(in alloc; " {:o}", word.value())?.as_str())?;
        }
    }
    told.push_str("/")?;
    Ok(())
}

/// How a call has ended: its status, what was written, and the words that each device holds which is left; a bar stands between.
fn ended(
    alloc: Global,
    status: u8,
    written: &[u8],
    devices: &Vec<Box<dyn PortDevice>>,
) -> Result<String, Fail> {
    let text = str::from_utf8(written).map_err(|_| "a byte that is no ASCII")?;
    let mut told = format!(in alloc; "{status}|{text}|")?;
    for device in devices {
        put_held(alloc, &mut told, device)?;
    }
    Ok(told)
}

/// The status and the text of a reply, with a bar between.
pub fn replied(alloc: Global, reply: &Reply) -> Result<String, Fail> {
    let text = str::from_utf8(reply.text.items()).map_err(|_| "a byte that is no ASCII")?;
    Ok(format!(in alloc; "{}|{text}", reply.status)?)
}

/// What is told of an input over these devices, where these calls of the source or of the sink fail.
pub fn tells_over(
    alloc: Global,
    line: &str,
    input: &str,
    fails: Fails,
    devices: &mut Vec<Box<dyn PortDevice>>,
) -> Result<String, Fail>
    requires { AreDistinct (map device_of devices.old.items) }
{
    let words = command(alloc, line)?;
    let mut source = source(alloc, input, fails.read)?;
    let mut sink = sink(alloc, fails.write)?;
    let status = lvdc(alloc, words.as_slice(), &mut source, &mut sink, devices);
    ended(alloc, status, sink.bytes(), devices)
}

/// What is told of an input over a tape, a latch and a recorder, where these calls fail.
pub fn tells(alloc: Global, line: &str, input: &str, fails: Fails) -> Result<String, Fail> {
    let mut devices = rack(alloc, fails)?;
    tells_over(alloc, line, input, fails, &mut devices)
}

/// The status, the text and what is held, of what a call has told.
pub fn parts(told: &str) -> Result<(&str, &str, &str), Fail> {
    let (status, rest) = told.split_once("|").ok_or("a status")?;
    let (text, held) = rest.rsplit_once("|").ok_or("what is held")?;
    Ok((status, text, held))
}
