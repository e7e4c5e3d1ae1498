//! Saved runs go on over devices that are given what they held.
ghost use Rattle.std.specs.Prelude.{map, IfOk};
ghost use Rattle.lvdc_port.specs.Devices.{AreDistinct};

use crate::exchanges::{ends, failing};
use crate::inputs::{FAULTS, deck, saved};
use crate::punctual::Punctual;
use crate::rows::{column, number, same};
use crate::told::{NONE, parts, tells, tells_over};
use lvdc_port::{Latch, PortDevice, word_of_time};
use std::alloc::Global;
use std::process::Abort;
use std::test::Fail;

/// The latch and the recorder are written once each while they are given their words, and the tape is supplied.
#[test]
fn a_device_that_fails_as_it_is_given_its_words_is_named(rt: HostRuntime) -> Result<(), Fail> {
    let alloc = rt.alloc();
    let saved = saved(alloc, FAULTS)?;
    let command = ("resume", saved.as_str());
    let due = "10|REFUSED Device 014\n|000: 7/014: 0/017:/";
    ends(&rt, alloc, command, failing("014", 1), due)?;
    let due = "10|REFUSED Device 017\n|000: 7/014: 5/017:/";
    ends(&rt, alloc, command, failing("017", 1), due)
}

/// The latch was taken away before the state, so it is given nothing.
#[test]
fn a_device_that_was_taken_away_is_given_no_words(rt: HostRuntime) -> Result<(), Fail> {
    let alloc = rt.alloc();
    let lines = "UNPLUG 014 4\n";
    let deck = deck(alloc, lines, 10, "")?;
    let due = tells(alloc, "run", deck.as_str(), NONE)?;
    let saved = saved(alloc, lines)?;
    let command = ("resume", saved.as_str());
    ends(&rt, alloc, command, failing("014", 1), due.as_str())
}

/// A latch that takes words after so many times alone.
fn punctual(alloc: Global, times: u64) -> Result<Vec<Box<dyn PortDevice>>, Fail>
    ensures { IfOk result (λ devices. AreDistinct (map device_of devices.items)) }
{
    let mut devices: Vec<Box<dyn PortDevice>> = Vec::new(alloc);
    let latch = Punctual::new(Latch::new(0o14), word_of_time(times));
    devices.push(Box::new(alloc, latch)?)?;
    Ok(devices)
}

/// A word is loaded and written to the latch.
const WRITTEN: &str =
    "IMAGE\nLVDC 1\n0 00 000 000017000\n0 00 001 000012014\n0 00 002 000010002\n0 01 000 000000005\nEND\nRUN 4\n";

/// Times at which the latch takes words, and how the run that was saved after two times ends.
const PUNCTUAL: &str = "\
    2|0|LVDC RUN\nEND DONE\nTIMES 4\nPLACE 0 00 0 002\nDATA 0 01\nDUP 1 1\nA 000000005\nPQ 000000000\nSAVER 000006016\nOUT 1 014 000000005\nMEM 0 00 000 000017000\nMEM 0 00 001 000012014\nMEM 0 00 002 000010002\nMEM 0 01 000 000000005\n|014: 5/;\
    0|10|REFUSED Device 014\n|014: 0/;\
";

/// The saved run of a row ends as is due.
fn goes_on(rt: &impl Abort, alloc: Global, saved: &str, row: &str) -> Result<(), Fail> {
    let (times, due) = column(row)?;
    let mut devices = punctual(alloc, number(times)?)?;
    let told = tells_over(alloc, "resume", saved, NONE, &mut devices)?;
    same(rt, told.as_str(), due);
    Ok(())
}

#[test]
fn states_are_written_at_the_time_of_the_state(rt: HostRuntime) -> Result<(), Fail> {
    let alloc = rt.alloc();
    let told = tells(alloc, "save 2", WRITTEN, NONE)?;
    let (_, saved, _) = parts(told.as_str())?;
    for row in PUNCTUAL.split_terminator(";") {
        goes_on(&rt, alloc, saved, row)?;
    }
    Ok(())
}
