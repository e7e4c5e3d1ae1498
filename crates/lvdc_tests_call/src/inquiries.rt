//! What is asked over the program's own devices.
use crate::rows::{bytes, column, same};
use crate::told::{command, replied};
use lvdc_console::{inquire_over_rack, read_command, read_inquiry, reply_over_rack};
use lvdc_reply::Reply;
use std::alloc::Global;
use std::process::Abort;
use std::test::Fail;

/// A word is read from a tape, stored and written to the recorder, once.
const DECK: &str =
    "IMAGE\nLVDC 1\n0 00 000 000012400\n0 00 001 000013002\n0 00 002 000012017\n0 00 003 000010003\nEND\nPORTS\nTAPE 000 5\n";

/// The deck with these lines.
fn deck(alloc: Global, lines: &str) -> Result<String, Fail> {
    Ok(format!(in alloc; "{DECK}{lines}")?)
}

/// Inquiries, the lines behind the ports of the deck, and the replies. In the study three scripts begin long after the word was read
/// and written, one before that, and one never does.
const INQUIRIES: &str = "\
    trace 1 2|FAULTS
FLIP 5 1 2 2 0 1
RUN 3
|0|LVDC TRACE
STEP 1
VOTE 1 000000002 000000000
VOTE 2 000000004 000000000
VOTE 3 000012400
VOTE 4 000000012
VOTE 5 000000000 000000000
VOTE 6 000000000 000000000 000000000 000000000 000000000
VOTE 7 000000000 000000004
STEP 2
IN 000 000000005
FAULT 5 1
VOTE 1 000000000 000000000
VOTE 2 000002004 000000000
VOTE 5 000000005 000000000
VOTE 7 000000000 000000000
COPY 5 1 000000004 000000000
MORE
;\
    form|FAULTS
LAG 5 1 2 2
LAG 5 2 2 2
RUN 3
|0|FORM NO 1
;\
    study|RUN 300
CAMPAIGN
SCRIPT ONE
FLIP 5 1 700 700 0 000000001
SCRIPT TWO
FLIP 5 1 898 898 0 000000001
FLIP 5 2 899 899 0 000000001
SCRIPT OUTPUT
FLIP 5 1 5 5 0 000000001
FLIP 5 2 5 5 0 000000001
SCRIPT NONE
SCRIPT WORD
FLIP 5 1 897 899 0 000000001
FLIP 5 2 897 899 0 000000001
|0|SCRIPT ONE ADMISSIBLE SAME COPIES 1 REPAIRS 0 - FORM YES
SCRIPT TWO ADMISSIBLE SAME COPIES 2 REPAIRS 0 - FORM YES
SCRIPT OUTPUT LOGIC 5 5 DIFFERS PORT 2 COPIES 1 REPAIRS 0 - FORM NO
SCRIPT NONE ADMISSIBLE SAME COPIES 0 REPAIRS 0 - FORM YES
SCRIPT WORD LOGIC 897 5 DIFFERS REGISTERS COPIES 3 REPAIRS 0 - FORM NO
STUDY 5 ADMISSIBLE 3 SAME 3 FORM 3
;\
";

/// The reply to an inquiry over a short input.
fn inquired(alloc: Global, words: &[String], input: &[u8]) -> Result<Reply, Fail> {
    match read_inquiry(words) {
        Some(inquiry) if input.len() <= inquiry.most_bytes() => {
            Ok(inquire_over_rack(alloc, inquiry, input)?)
        }
        _ => Err("an inquiry over a short input".into()),
    }
}

/// The inquiry of a row has its reply.
fn is_answered(rt: &impl Abort, alloc: Global, row: &str) -> Result<(), Fail> {
    let (line, row) = column(row)?;
    let (lines, due) = column(row)?;
    let words = command(alloc, line)?;
    let deck = deck(alloc, lines)?;
    let reply = inquired(alloc, words.as_slice(), bytes(deck.as_str()))?;
    same(rt, replied(alloc, &reply)?.as_str(), due);
    Ok(())
}

#[test]
fn each_inquiry_is_answered(rt: HostRuntime) -> Result<(), Fail> {
    for row in INQUIRIES.split_terminator(";") {
        is_answered(&rt, rt.alloc(), row)?;
    }
    Ok(())
}

/// How the plain run of the deck ends.
const ENDED: &str =
    "0|LVDC PLAIN\nEND DONE\nTIMES 4\nPLACE 0 00 0 003\nDATA 0 01\nDUP 1 1\nA 000000005\nPQ 000000000\nSAVER 000010016\nIN 0 000 000000005\nOUT 2 017 000000005\nMEM 0 00 000 000012400\nMEM 0 00 001 000013002\nMEM 0 00 002 000012017\nMEM 0 00 003 000010003\nMEM 0 01 002 000000005\n";

#[test]
fn a_command_is_answered_over_bytes(rt: HostRuntime) -> Result<(), Fail> {
    let alloc = rt.alloc();
    let words = command(alloc, "run --plain")?;
    let command = read_command(words.as_slice()).ok_or("a command")?;
    let deck = deck(alloc, "RUN 4\n")?;
    if deck.len() > command.limit() {
        return Err("a short deck".into());
    }
    let reply = reply_over_rack(alloc, command, deck.as_bytes())?;
    same(&rt, replied(alloc, &reply)?.as_str(), ENDED);
    Ok(())
}
