//! A small input for each command.
use crate::told::{NONE, parts, tells};
use std::alloc::Global;
use std::test::Fail;

/// A word is loaded; then what a tape holds goes through a latch to a recorder, again and again.
/// Times 1 and 6 read the tape, 2 and 7 write the latch, 3 and 8 read it, 4 and 9 write the recorder.
const DECK: &str =
    "IMAGE\nLVDC 1\n0 00 000 000017000\n0 00 001 000012400\n0 00 002 000012014\n0 00 003 000012414\n0 00 004 000012017\n0 00 005 000010001\n0 01 000 000000003\nEND\nPORTS\nTAPE 000 5 7\n";

/// The copy that is wrong.
pub const FAULTS: &str = "FAULTS\nFLIP 5 1 0 0 0 1\n";

/// The commands of a session.
const SESSION: &str = "DEBUG\nBREAK 0 00 0 003\nSTEP 10\nREGS\n";

/// A source.
const SOURCE: &str =
    "        CODE\nBEGIN   CLA   X\n        ADD   =O1\n        TRA   BEGIN\n        WORDS 0,01\nX       OCT   5\n        END\n";

/// A source with a macro.
const MACROS: &str =
    "TWICE   MACRO\n        ADD   &1\n        ADD   &1\n        MEND\n        CODE\n        TWICE X\n        WORDS 0,01\nX       OCT   5\n        END\n";

/// An image and messages.
const UPLINK: &str =
    "IMAGE\nLVDC 1\nEND\nUPLINK\nOPEN 1 1\nFRAME 1 1 0 00 000 10 12\nCOMMIT 1 12\n";

/// A deck and scripts.
const CAMPAIGN: &str =
    "IMAGE\nLVDC 1\n0 00 000 000010000\nEND\nRUN 2\nCAMPAIGN\nSCRIPT A\nFLIP 5 1 3 3 0 1\nSCRIPT B\nLAG 5 1 0 0\nLAG 5 2 0 0\n";

/// The deck with these lines before RUN, so many instruction times, and the lines after it.
pub fn deck(alloc: Global, lines: &str, times: u64, rest: &str) -> Result<String, Fail> {
    Ok(format!(in alloc; "{DECK}{lines}RUN {times}\n{rest}")?)
}

/// The run of the deck with these lines, saved after the recorder took its first word.
pub fn saved(alloc: Global, lines: &str) -> Result<String, Fail> {
    let deck = deck(alloc, lines, 10, "")?;
    let told = tells(alloc, "save 5", deck.as_str(), NONE)?;
    let (_, text, _) = parts(told.as_str())?;
    Ok(String::from_str(alloc, text)?)
}

/// The commands that speak to no device.
pub const OTHERS: &str = "asm|asm --image|macro|macro --image|uplink|campaign";

/// The input of a command that speaks to no device.
pub fn other_input(line: &str) -> &str {
    match line {
        "asm" | "asm --image" => SOURCE,
        "macro" | "macro --image" => MACROS,
        "uplink" => UPLINK,
        _ => CAMPAIGN,
    }
}

/// The input of a command.
pub fn input_of(alloc: Global, line: &str) -> Result<String, Fail> {
    match line {
        "resume" => saved(alloc, FAULTS),
        "debug" => deck(alloc, FAULTS, 10, SESSION),
        "run" | "run --through" | "run --plain" | "save 5" => deck(alloc, FAULTS, 10, ""),
        _ => Ok(String::from_str(alloc, other_input(line))?),
    }
}
