//! Each read and each write fails in turn.
use crate::inputs::input_of;
use crate::rows::{column, same};
use crate::told::{Fails, NONE, parts, tells};
use std::alloc::Global;
use std::process::Abort;
use std::test::Fail;

/// How many bytes a call of the source gives at most, and a call of the sink takes.
const PIECE: usize = 64;

/// Each read of an input fails in turn. Up to the one that finds its end each is told, unless the write of that fails too, and the
/// devices stay; after it no read is made.
fn reads_fail(rt: &impl Abort, alloc: Global, line: &str, input: &str) -> Result<(), Fail> {
    let reads = (input.len().div_ceil(PIECE) as u64).saturating_add(1);
    for read in 1..=reads {
        let told = tells(alloc, line, input, Fails { read, ..NONE })?;
        same(rt, told.as_str(), "7|REFUSED ReadFault\n|000:/014: 0/017:/");
    }
    let both = Fails {
        read: 1,
        write: 1,
        ..NONE
    };
    let told = tells(alloc, line, input, both)?;
    same(rt, told.as_str(), "8||000:/014: 0/017:/");
    reads_no_more(rt, alloc, line, input, reads.saturating_add(1))
}

/// This read isn't made.
fn reads_no_more(
    rt: &impl Abort,
    alloc: Global,
    line: &str,
    input: &str,
    read: u64,
) -> Result<(), Fail> {
    let whole = tells(alloc, line, input, NONE)?;
    let told = tells(alloc, line, input, Fails { read, ..NONE })?;
    same(rt, told.as_str(), whole.as_str());
    Ok(())
}

/// Where this write fails, a front of the text was taken, of so many bytes, and the devices hold what they hold after the answer.
fn write_fails(
    rt: &impl Abort,
    alloc: Global,
    (line, input): (&str, &str),
    (text, held): (&str, &str),
    write: u64,
    taken: usize,
) -> Result<(), Fail> {
    let told = tells(alloc, line, input, Fails { write, ..NONE })?;
    let front = text.get(..taken).ok_or("no front")?;
    let due = format!(in alloc; "8|{front}|{held}")?;
    same(rt, told.as_str(), due.as_str());
    Ok(())
}

/// Each write of an answer fails in turn; after the last no write is made.
fn writes_fail(rt: &impl Abort, alloc: Global, line: &str, input: &str) -> Result<(), Fail> {
    let whole = tells(alloc, line, input, NONE)?;
    let (_, text, held) = parts(whole.as_str())?;
    let writes = text.len().div_ceil(PIECE) as u64;
    let mut taken = 0;
    for write in 1..=writes {
        write_fails(rt, alloc, (line, input), (text, held), write, taken)?;
        taken = taken.saturating_add(PIECE);
    }
    let write = writes.saturating_add(1);
    let told = tells(alloc, line, input, Fails { write, ..NONE })?;
    same(rt, told.as_str(), whole.as_str());
    Ok(())
}

/// Each read and each write of a command fails in turn.
fn streams_fail(rt: &impl Abort, alloc: Global, line: &str) -> Result<(), Fail> {
    let input = input_of(alloc, line)?;
    reads_fail(rt, alloc, line, input.as_str())?;
    writes_fail(rt, alloc, line, input.as_str())
}

/// The commands that read.
const READING: &str =
    "run|run --through|run --plain|debug|save 5|resume|asm|asm --image|macro|macro --image|uplink|campaign";

#[test]
fn streams_of_each_command_fail(rt: HostRuntime) -> Result<(), Fail> {
    for line in READING.split("|") {
        streams_fail(&rt, rt.alloc(), line)?;
    }
    Ok(())
}

/// Commands and inputs that are refused or end early.
const REFUSED: &str = "\
    run fast|;\
    run|;\
    asm|X;\
    run|IMAGE
END
RUN 1
;\
    run|IMAGE
LVDC 1
0 00 000 000016600
END
RUN 5
;\
    run|IMAGE
LVDC 1
END
FAULTS
LAG 2 1 3 3
LAG 2 2 3 3
RUN 5
;\
    soak 1|;\
";

#[test]
fn refusals_and_ends_are_cut(rt: HostRuntime) -> Result<(), Fail> {
    for row in REFUSED.split_terminator(";") {
        let (line, input) = column(row)?;
        writes_fail(&rt, rt.alloc(), line, input)?;
    }
    Ok(())
}

#[test]
fn a_wrong_command_line_reads_nothing(rt: HostRuntime) -> Result<(), Fail> {
    reads_no_more(&rt, rt.alloc(), "run fast", "", 1)
}
