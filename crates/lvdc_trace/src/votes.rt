//! The votes of a machine, before and after a step.

ghost use Rattle.std.specs.Prelude.{◌≡◌, ℕ, ◌+◌, ◌*◌, ◌≤◌, ◌<◌, ◌-◌, ◌==◌, not, ◌++◌, List, [], length, OnOk, slice_index_or};
ghost use Rattle.lvdc_vote.specs.Copies.{Copies};
ghost use Rattle.lvdc_vote.specs.Numbers.{latches_of};
ghost use Rattle.lvdc_logic.specs.Logic.{vote_at};
ghost use Rattle.lvdc_lines.specs.Noted.{lines_below};
ghost use Rattle.lvdc_debug.specs.Session.{latch_text};
ghost use Rattle.lvdc_trace.specs.Steps.{has_changed, vote_line, told_vote, votes_text};
ghost use Rattle.lvdc_trace.specs.Votes.{votes_in, AreVotesOf, AreVotes};

use lvdc_debug::put_latch;
use lvdc_machine::Machine;
use lvdc_modules::latches;
use lvdc_text::{Piece, put};
use lvdc_word::{NoMemory, Word};

/// The votes of the latches of each module, by index; no module has more than five.
#[derive(Clone, Copy)]
pub(crate) struct Votes {
    timer: [Word; 5],
    locator: [Word; 5],
    decoder: [Word; 5],
    selector: [Word; 5],
    accumulator: [Word; 5],
    multiplier: [Word; 5],
    exchange: [Word; 5],
}

/// The votes of the latches of a module, 1 to 7.
fn votes_of(machine: &Machine, number: u8) -> [Word; 5]
    requires first { 1 ≤ number }
    requires last { number ≤ 7 }
    ensures { AreVotesOf result machine.now.copies number }
{
    let mut words = [Word::ZERO; 5];
    for index in 0..latches(number) {
        words[usize::from(index)] = machine.voted_word(number, index);
    }
    words
}

impl Votes {
    /// Those of a machine.
    pub(crate) fn of(machine: &Machine) -> Votes
        ensures { AreVotes result machine.now.copies }
    {
        Votes {
            timer: votes_of(machine, 1),
            locator: votes_of(machine, 2),
            decoder: votes_of(machine, 3),
            selector: votes_of(machine, 4),
            accumulator: votes_of(machine, 5),
            multiplier: votes_of(machine, 6),
            exchange: votes_of(machine, 7),
        }
    }

    /// Those of a module, 1 to 7.
    fn of_module(&self, number: u8) -> &[Word]
        requires first { 1 ≤ number }
        requires last { number ≤ 7 }
        ensures votes { result.now ≡ slice_index_or (votes_in self.now) (number - 1) [] }
        ensures five { length result.now ≡ 5 }
    {
        match number {
            1 => &self.timer,
            2 => &self.locator,
            3 => &self.decoder,
            4 => &self.selector,
            5 => &self.accumulator,
            6 => &self.multiplier,
            _ => &self.exchange,
        }
    }
}

/// Is the vote of a latch of a module, 1 to 7, another now than among these?
fn is_other(machine: &Machine, number: u8, index: u8, before: &[Word]) -> bool
    requires first { 1 ≤ number }
    requires last { number ≤ 7 }
    requires index { index < latches_of number }
    requires five { length before.now ≡ 5 }
    ensures { (copies : List Copies) → AreVotesOf before.now copies number
        → result ≡ not (vote_at machine.now.copies number index == vote_at copies number index) }
{
    machine.voted_word(number, index) != before[usize::from(index)]
}

/// Is the vote of a module, 1 to 7, another now than these words?
fn has_changed(machine: &Machine, number: u8, before: &[Word]) -> bool
    requires first { 1 ≤ number }
    requires last { number ≤ 7 }
    requires five { length before.now ≡ 5 }
    ensures { (copies : List Copies) → AreVotesOf before.now copies number → result ≡ has_changed copies machine.now.copies number }
{
    let mut changed = false;
    for index in 0..latches(number) {
        changed = changed || is_other(machine, number, index, before);
    }
    changed
}

/// Adds the votes of the latches of a module, 1 to 7, by rising index.
fn put_vote_words(out: &mut Vec<u8>, machine: &Machine, number: u8) -> Result<(), NoMemory>
    requires first { 1 ≤ number }
    requires last { number ≤ 7 }
    ensures { OnOk result (out.new.items ≡ out.old.items
        ++ lines_below (λ index. latch_text (vote_at machine.now.copies number index)) (latches_of number)) }
{
    for index in 0..latches(number) {
        put_latch(out, machine.voted_word(number, index))?;
    }
    Ok(())
}

/// Adds the line of the vote of a module, 1 to 7.
fn put_vote_line(out: &mut Vec<u8>, machine: &Machine, number: u8) -> Result<(), NoMemory>
    requires first { 1 ≤ number }
    requires last { number ≤ 7 }
    ensures { OnOk result (out.new.items ≡ out.old.items ++ vote_line machine.now.copies number) }
{
    put(out, &[Piece::Bytes(b"VOTE "), Piece::Small(number)])?;
    put_vote_words(out, machine, number)?;
    out.extend_from_slice(b"\n")?;
    Ok(())
}

/// Adds the line of the vote of a module, 1 to 7, where it is another than before, or always.
fn put_vote(
    out: &mut Vec<u8>,
    machine: &Machine,
    always: bool,
    before: &Votes,
    number: u8,
) -> Result<(), NoMemory>
    requires first { 1 ≤ number }
    requires last { number ≤ 7 }
    ensures line { OnOk result ((copies : List Copies) → AreVotes before.now copies
        → out.new.items ≡ out.old.items ++ told_vote always copies machine.now.copies number) }
    ensures short { OnOk result (length out.new.items ≤ length out.old.items + (7 + 10 * latches_of number)) }
{
    if always || has_changed(machine, number, before.of_module(number)) {
        put_vote_line(out, machine, number)?;
    }
    Ok(())
}

/// Adds the lines of the votes that are others than before, or of all seven.
pub(crate) fn put_votes(
    out: &mut Vec<u8>,
    machine: &Machine,
    always: bool,
    before: &Votes,
) -> Result<(), NoMemory>
    ensures lines { OnOk result ((copies : List Copies) → AreVotes before.now copies
        → out.new.items ≡ out.old.items ++ votes_text always copies machine.now.copies) }
    ensures short { OnOk result (length out.new.items ≤ length out.old.items + 199) }
{
    for modules in 0..7 {
        put_vote(out, machine, always, before, modules + 1)?;
    }
    Ok(())
}
