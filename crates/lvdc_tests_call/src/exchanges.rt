//! Each exchange with a device fails in turn.
use crate::inputs::{FAULTS, OTHERS, deck, other_input, saved};
use crate::rows::{column, number, same};
use crate::told::{Fails, NONE, parts, tells};
use std::alloc::Global;
use std::process::Abort;
use std::test::Fail;

/// One exchange fails: that of the device at this port with this number, from 1.
pub fn failing(port: &str, call: u64) -> Fails {
    match port {
        "000" => Fails { tape: call, ..NONE },
        "014" => Fails {
            latch: call,
            ..NONE
        },
        _ => Fails {
            recorder: call,
            ..NONE
        },
    }
}

/// How a run ends in the exchange of this time at this port: as the times before it end, but for its end.
fn ended_by(alloc: Global, before: &str, port: &str, time: u64) -> Result<String, Fail> {
    let (_, text, held) = parts(before)?;
    let (front, back) = text.split_once("END DONE\n").ok_or("no end")?;
    let step = time.saturating_mul(3).saturating_add(2);
    Ok(format!(in alloc; "10|{front}END DEVICE {step} {port}\n{back}|{held}")?)
}

/// How a session ends so, that asks for times and once more.
fn session_ended_by(alloc: Global, before: &str, port: &str, time: u64) -> Result<String, Fail> {
    let (_, _, held) = parts(before)?;
    let step = time.saturating_mul(3).saturating_add(2);
    let end = format!(in alloc; "END DEVICE {step} {port}\n")?;
    Ok(format!(in alloc; "10|LVDC DEBUG\n> STEP 10\n{end}> STEP 1\n{end}|{held}")?)
}

/// How a command ends in the exchange of this time at this port.
fn end_of(alloc: Global, line: &str, port: &str, time: u64) -> Result<String, Fail> {
    let shown_by = match line {
        "run --through" | "run --plain" => line,
        _ => "run",
    };
    let deck = deck(alloc, FAULTS, time, "")?;
    let before = tells(alloc, shown_by, deck.as_str(), NONE)?;
    match line {
        "debug" => session_ended_by(alloc, before.as_str(), port, time),
        _ => ended_by(alloc, before.as_str(), port, time),
    }
}

/// Where these calls fail, a command ends so.
pub fn ends(
    rt: &impl Abort,
    alloc: Global,
    (line, input): (&str, &str),
    fails: Fails,
    due: &str,
) -> Result<(), Fail> {
    let told = tells(alloc, line, input, fails)?;
    same(rt, told.as_str(), due);
    Ok(())
}

/// A command ends in the exchange of a row.
fn ends_in(
    rt: &impl Abort,
    alloc: Global,
    (line, input): (&str, &str),
    row: &str,
) -> Result<(), Fail> {
    let (port, row) = column(row)?;
    let (call, time) = column(row)?;
    let due = end_of(alloc, line, port, number(time)?)?;
    ends(
        rt,
        alloc,
        (line, input),
        failing(port, number(call)?),
        due.as_str(),
    )
}

/// These calls aren't made: the answer is the whole one.
fn is_whole(
    rt: &impl Abort,
    alloc: Global,
    (line, input): (&str, &str),
    fails: Fails,
) -> Result<(), Fail> {
    let whole = tells(alloc, line, input, NONE)?;
    ends(rt, alloc, (line, input), fails, whole.as_str())
}

/// The exchange of a row isn't made.
fn is_not_made(
    rt: &impl Abort,
    alloc: Global,
    command: (&str, &str),
    row: &str,
) -> Result<(), Fail> {
    let (port, call) = column(row)?;
    is_whole(rt, alloc, command, failing(port, number(call)?))
}

/// Each of these exchanges fails in turn under a command.
fn each_fails(
    rt: &impl Abort,
    alloc: Global,
    command: (&str, &str),
    exchanges: &str,
) -> Result<(), Fail> {
    for row in exchanges.split(";") {
        ends_in(rt, alloc, command, row)?;
    }
    Ok(())
}

/// None of these exchanges is made under a command.
fn none_is_made(
    rt: &impl Abort,
    alloc: Global,
    command: (&str, &str),
    exchanges: &str,
) -> Result<(), Fail> {
    for row in exchanges.split(";") {
        is_not_made(rt, alloc, command, row)?;
    }
    Ok(())
}

/// The exchanges of the deck: the port, the number of the exchange there, and its instruction time.
const EXCHANGES: &str = "000|1|1;000|2|6;014|1|2;014|2|3;014|3|7;014|4|8;017|1|4;017|2|9";

/// One exchange more of each device.
const NO_MORE: &str = "000|3;014|5;017|3";

/// Each exchange of the deck fails in turn under a command.
fn exchanges_fail(rt: &impl Abort, alloc: Global, line: &str, rest: &str) -> Result<(), Fail> {
    let deck = deck(alloc, FAULTS, 10, rest)?;
    each_fails(rt, alloc, (line, deck.as_str()), EXCHANGES)?;
    none_is_made(rt, alloc, (line, deck.as_str()), NO_MORE)
}

#[test]
fn exchanges_of_runs_fail(rt: HostRuntime) -> Result<(), Fail> {
    for line in "run|run --through|run --plain|save 10".split("|") {
        exchanges_fail(&rt, rt.alloc(), line, "")?;
    }
    Ok(())
}

#[test]
fn exchanges_of_a_session_fail(rt: HostRuntime) -> Result<(), Fail> {
    exchanges_fail(&rt, rt.alloc(), "debug", "DEBUG\nSTEP 10\nSTEP 1\n")
}

/// The exchanges that are left to the saved run, with the numbers that they have there.
const RESUMED: &str = "000|1|6;014|2|7;014|3|8;017|2|9";

/// One exchange more of each device then.
const NO_MORE_RESUMED: &str = "000|2;014|4;017|3";

#[test]
fn exchanges_of_a_saved_run_fail(rt: HostRuntime) -> Result<(), Fail> {
    let alloc = rt.alloc();
    let saved = saved(alloc, FAULTS)?;
    each_fails(&rt, alloc, ("resume", saved.as_str()), RESUMED)?;
    none_is_made(&rt, alloc, ("resume", saved.as_str()), NO_MORE_RESUMED)
}

/// The calls of the recorder that fail, and what a soak run then tells.
const SOAKS: &str = "\
    1|10|LVDC SOAK 1\nEND DEVICE 20 017\nTIMES 6\n;\
    2|10|LVDC SOAK 1\nEND DEVICE 59 017\nTIMES 19\n;\
    15385|10|LVDC SOAK 1\nEND DEVICE 599996 017\nTIMES 199998\n;\
    15386|0|LVDC SOAK 1\nEND DONE\nTIMES 200000\n;\
";

/// The soak run of a row ends so. It reads nothing: the first read would fail.
fn soak_ends(rt: &impl Abort, alloc: Global, row: &str) -> Result<(), Fail> {
    let (call, due) = column(row)?;
    let mut fails = failing("017", number(call)?);
    fails.read = 1;
    let told = tells(alloc, "soak 1", "", fails)?;
    let front = told.as_str().get(..due.len()).ok_or("a shorter text")?;
    same(rt, front, due);
    Ok(())
}

#[test]
fn exchanges_of_a_soak_run_fail(rt: HostRuntime) -> Result<(), Fail> {
    for row in SOAKS.split_terminator(";") {
        soak_ends(&rt, rt.alloc(), row)?;
    }
    Ok(())
}

/// A copy is wrong in each of seven steps, of which the last two are never made: the second read of the tape is in the sixth.
const WRONG: &str =
    "FAULTS\nFLIP 1 1 0 0 0 1\nFLIP 2 2 9 9 0 1\nFLIP 3 3 17 17 0 1\nFLIP 4 1 18 18 0 1\nFLIP 5 2 19 19 0 1\nFLIP 6 3 20 20 0 1\nFLIP 7 1 21 21 0 1\n";

/// How that run ends.
const ENDED: &str =
    "10|LVDC RUN\nEND DEVICE 20 000\nTIMES 6\nPLACE 0 00 0 001\nDATA 0 01\nDUP 1 1\nA 000000005\nPQ 000000000\nSAVER 000014016\nIN 1 000 000000005\nOUT 2 014 000000005\nIN 3 014 000000005\nOUT 4 017 000000005\nMEM 0 00 000 000017000\nMEM 0 00 001 000012400\nMEM 0 00 002 000012014\nMEM 0 00 003 000012414\nMEM 0 00 004 000012017\nMEM 0 00 005 000010001\nMEM 0 01 000 000000003\nWRONG 1 1 1\nWRONG 2 2 1\nWRONG 3 3 1\nWRONG 4 1 1\nWRONG 5 2 1\n|000: 7/014: 5/017: 5/";

#[test]
fn the_faults_of_the_steps_before_an_exchange_that_fails_are_told(
    rt: HostRuntime,
) -> Result<(), Fail> {
    let deck = deck(rt.alloc(), WRONG, 10, "")?;
    ends(
        &rt,
        rt.alloc(),
        ("run", deck.as_str()),
        failing("000", 2),
        ENDED,
    )
}

/// These commands ask no device.
#[test]
fn other_commands_leave_devices_alone(rt: HostRuntime) -> Result<(), Fail> {
    let fails = Fails {
        tape: 1,
        latch: 1,
        recorder: 1,
        ..NONE
    };
    for line in OTHERS.split("|") {
        is_whole(&rt, rt.alloc(), (line, other_input(line)), fails)?;
    }
    Ok(())
}

#[test]
fn a_device_that_is_taken_away_before_its_use_fails_nothing(rt: HostRuntime) -> Result<(), Fail> {
    let alloc = rt.alloc();
    let deck = deck(alloc, "UNPLUG 000 0\n", 6, "")?;
    is_whole(&rt, alloc, ("run", deck.as_str()), failing("000", 1))
}
