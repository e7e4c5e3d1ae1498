//! The answers of a session, as they are written.

ghost use Rattle.std.specs.Prelude.{◌≡◌, ℕ, ◌+◌, ◌*◌, ◌≤◌, ◌<◌, ◌++◌, List, length, codes, OnOk};
ghost use Rattle.lvdc_port.specs.Device.{Device};
ghost use Rattle.lvdc_vote.specs.Numbers.{latches_of};
ghost use Rattle.lvdc_fault.specs.Events.{IsCopy};
ghost use Rattle.lvdc_model.specs.Trial.{Trial};
ghost use Rattle.lvdc_machine.specs.Stands.{Stands, state_by, shown_of};
ghost use Rattle.lvdc_debug.specs.Commands.{IsStretch, IsCommand};
ghost use Rattle.lvdc_debug.specs.Session.{syllable_of, place_text, at_line, limit_line, came_text, breaks_text, further, word_shown, mem_text, instruction_text, instruction_shown, dis_text, latch_text, latches_text, copy_line, copies_text, answer_text};
ghost use Rattle.lvdc_debug.specs.Room.{most_answer};
ghost use Rattle.lvdc_report.specs.Voted.{visible_of};

use crate::{Breaks, Command};
use lvdc_isa::{decode, print};
use lvdc_machine::{Machine, Shown};
use lvdc_map::Address;
use lvdc_modules::latches;
use lvdc_plain::Visible;
use lvdc_report::{put_end, put_memory_line, put_registers, put_unknown_line};
use lvdc_text::{Piece, fill_octal, put, put_line};
use lvdc_word::{NoMemory, Syllable, Word};

/// Adds pair or module, sector, syllable and location, as `p ss s lll`.
fn put_place(out: &mut Vec<u8>, pair: u8, sector: u8, syl: u8, loc: u8) -> Result<(), NoMemory>
    requires pair { pair < 8 }
    requires sector { sector < 16 }
    requires syl { syl < 8 }
    ensures place { OnOk result (out.new.items ≡ out.old.items ++ place_text pair sector syl loc) }
    ensures short { OnOk result (length out.new.items ≤ length out.old.items + 10) }
{
    let pair = Piece::Octal(u64::from(pair), 1);
    let sector = Piece::Octal(u64::from(sector), 2);
    let syl = Piece::Octal(u64::from(syl), 1);
    let loc = Piece::Octal(u64::from(loc), 3);
    put(
        out,
        &[
            pair,
            Piece::Bytes(b" "),
            sector,
            Piece::Bytes(b" "),
            syl,
            Piece::Bytes(b" "),
            loc,
        ],
    )
}

/// Adds where the run goes on, after how many times.
fn put_at_line(out: &mut Vec<u8>, visible: &Visible) -> Result<(), NoMemory>
    ensures line { OnOk result (out.new.items ≡ out.old.items ++ at_line visible.now) }
    ensures short { OnOk result (length out.new.items ≤ length out.old.items + 35) }
{
    let place = visible.place;
    let times = Piece::Decimal(visible.times);
    put(out, &[Piece::Bytes(b"AT "), times, Piece::Bytes(b" ")])?;
    put_place(out, place.imod, place.isec, place.syl, place.loc)?;
    out.extend_from_slice(b"\n")?;
    Ok(())
}

/// Adds that the limit is reached.
fn put_limit_line(out: &mut Vec<u8>, visible: &Visible) -> Result<(), NoMemory>
    ensures line { OnOk result (out.new.items ≡ out.old.items ++ limit_line visible.now) }
    ensures short { OnOk result (length out.new.items ≤ length out.old.items + 27) }
{
    put_line(out, b"LIMIT", &[Piece::Decimal(visible.times)])
}

/// Adds how far the run has come: its end, or where it is, or that the limit came before all was done.
fn put_came(out: &mut Vec<u8>, machine: &Machine, all: bool) -> Result<(), NoMemory>
    ensures text { OnOk result ((o : Trial) (t : ℕ) (ds : List Device) → Stands o t machine.now ds
        → out.new.items ≡ out.old.items ++ came_text (state_by machine.now.end machine.now.mode o t).end all
        (visible_of (state_by machine.now.end machine.now.mode o t))) }
    ensures short { OnOk result (length out.new.items ≤ length out.old.items + 65) }
{
    match machine.ended() {
        Some(end) => put_end(out, end),
        None if all => put_at_line(out, &machine.visible()),
        None => put_limit_line(out, &machine.visible()),
    }
}

/// Adds how many breakpoints there are, or that there is no room for one more.
fn put_breaks(out: &mut Vec<u8>, all: bool, count: usize) -> Result<(), NoMemory>
    ensures text { OnOk result (out.new.items ≡ out.old.items ++ breaks_text all count) }
    ensures short { OnOk result (length out.new.items ≤ length out.old.items + 28) }
{
    if all {
        put_line(out, b"BREAKS", &[Piece::Decimal(count as u64)])
    } else {
        put_line(out, b"BREAKS", &[Piece::Bytes(b"FULL")])
    }
}

/// The place so many locations further on in the sector.
fn further(at: Address, more: u16) -> Address
    requires { at.loc + more < 256 }
    ensures { result ≡ further at more }
{
    Address {
        loc: at.loc + more as u8,
        ..at
    }
}

/// Adds the line of a word as the machine shows it.
fn put_word(out: &mut Vec<u8>, machine: &Machine, at: Address) -> Result<(), NoMemory>
    requires { at.pair < 4 }
    ensures line { OnOk result ((o : Trial) (t : ℕ) (ds : List Device) → Stands o t machine.now ds
        → out.new.items ≡ out.old.items ++ word_shown at (shown_of o (state_by machine.now.end machine.now.mode o t) at)) }
    ensures short { OnOk result (length out.new.items ≤ length out.old.items + 23) }
{
    match machine.shown(at) {
        Shown::Known(word) => put_memory_line(out, at, word)?,
        Shown::Unknown => put_unknown_line(out, at)?,
    }
    Ok(())
}

/// Adds the lines of so many words from a place on.
fn put_mem(out: &mut Vec<u8>, machine: &Machine, at: Address, count: u16) -> Result<(), NoMemory>
    requires { IsStretch at count }
    ensures lines { OnOk result ((o : Trial) (t : ℕ) (ds : List Device) → Stands o t machine.now ds
        → out.new.items ≡ out.old.items ++ mem_text o (state_by machine.now.end machine.now.mode o t) at count) }
    ensures short { OnOk result (length out.new.items ≤ length out.old.items + 23 * count) }
{
    for more in 0..count {
        put_word(out, machine, further(at, more))?;
    }
    Ok(())
}

/// A syllable of a word: 1 is its upper half.
fn syllable_of(syl: u8, word: Word) -> Syllable
    ensures { result ≡ syllable_of syl word }
{
    let (one, zero) = word.split();
    if syl == 1 { one } else { zero }
}

/// Adds a syllable in octal and as an instruction, each after a blank, and LF.
fn put_syllable(out: &mut Vec<u8>, syllable: Syllable) -> Result<(), NoMemory>
    ensures text { OnOk result (out.new.items ≡ out.old.items ++ codes " " ++ instruction_text syllable ++ codes "\n") }
    ensures short { OnOk result (length out.new.items ≤ length out.old.items + 15) }
{
    let bits = Piece::Octal(u64::from(syllable.value()), 5);
    let instruction = print(decode(syllable));
    put_line(out, b"", &[bits, Piece::Bytes(&instruction)])
}

/// Adds the line of an instruction by what is shown of its word.
fn put_instruction_line(
    out: &mut Vec<u8>,
    at: Address,
    syl: u8,
    shown: Shown,
) -> Result<(), NoMemory>
    requires { syl < 2 }
    ensures line { OnOk result (out.new.items ≡ out.old.items ++ instruction_shown at syl shown) }
    ensures short { OnOk result (length out.new.items ≤ length out.old.items + 25) }
{
    put_place(out, at.pair, at.sector, syl, at.loc)?;
    match shown {
        Shown::Known(word) => put_syllable(out, syllable_of(syl, word)),
        Shown::Unknown => put_line(out, b"", &[Piece::Bytes(b"?")]),
    }
}

/// Adds the line of an instruction as the machine shows its word.
fn put_instruction(
    out: &mut Vec<u8>,
    machine: &Machine,
    at: Address,
    syl: u8,
) -> Result<(), NoMemory>
    requires pair { at.pair < 4 }
    requires syl { syl < 2 }
    ensures line { OnOk result ((o : Trial) (t : ℕ) (ds : List Device) → Stands o t machine.now ds
        → out.new.items ≡ out.old.items ++ instruction_shown at syl (shown_of o (state_by machine.now.end machine.now.mode o t) at)) }
    ensures short { OnOk result (length out.new.items ≤ length out.old.items + 25) }
{
    put_instruction_line(out, at, syl, machine.shown(at))?;
    Ok(())
}

/// Adds the lines of so many instructions from a place on, as memory holds them.
fn put_dis(
    out: &mut Vec<u8>,
    machine: &Machine,
    at: Address,
    syl: u8,
    count: u16,
) -> Result<(), NoMemory>
    requires stretch { IsStretch at count }
    requires syl { syl < 2 }
    ensures lines { OnOk result ((o : Trial) (t : ℕ) (ds : List Device) → Stands o t machine.now ds
        → out.new.items ≡ out.old.items ++ dis_text o (state_by machine.now.end machine.now.mode o t) at syl count) }
    ensures short { OnOk result (length out.new.items ≤ length out.old.items + 25 * count) }
{
    for more in 0..count {
        put_instruction(out, machine, further(at, more), syl)?;
    }
    Ok(())
}

/// The word of a latch, with a blank before it.
#[inline(always)]
fn latch_text(word: Word) -> [u8; 10]
    ensures { result ≡ latch_text word }
{
    let mut text = *b" 000000000";
    fill_octal(&mut text[1..10], u64::from(word.value()));
    text
}

/// Adds the word of a latch.
pub fn put_latch(out: &mut Vec<u8>, word: Word) -> Result<(), NoMemory>
    ensures text { OnOk result (out.new.items ≡ out.old.items ++ latch_text word) }
    ensures short { OnOk result (length out.new.items ≤ length out.old.items + 10) }
{
    out.extend_from_slice(&latch_text(word))?;
    Ok(())
}

/// Adds the latches of a copy in order.
fn put_latches(out: &mut Vec<u8>, machine: &Machine, number: u8, copy: u8) -> Result<(), NoMemory>
    requires module { IsCopy number copy }
    ensures words { OnOk result (out.new.items ≡ out.old.items ++ latches_text machine.now.copies number copy) }
    ensures short { OnOk result (length out.new.items ≤ length out.old.items + 10 * latches_of number) }
{
    for index in 0..latches(number) {
        put_latch(out, machine.copy_word(number, copy, index))?;
    }
    Ok(())
}

/// Adds the line of a copy.
pub fn put_copy(out: &mut Vec<u8>, machine: &Machine, number: u8, copy: u8) -> Result<(), NoMemory>
    requires module { IsCopy number copy }
    ensures line { OnOk result (out.new.items ≡ out.old.items ++ copy_line machine.now.copies number copy) }
    ensures short { OnOk result (length out.new.items ≤ length out.old.items + 100) }
{
    let (word, blank) = (Piece::Bytes(b"COPY "), Piece::Bytes(b" "));
    put(
        out,
        &[word, Piece::Small(number), blank, Piece::Small(copy)],
    )?;
    put_latches(out, machine, number, copy)?;
    out.extend_from_slice(b"\n")?;
    Ok(())
}

/// Adds the lines of the three copies of a module.
fn put_copies(out: &mut Vec<u8>, machine: &Machine, number: u8) -> Result<(), NoMemory>
    requires first { 1 ≤ number }
    requires last { number ≤ 7 }
    ensures lines { OnOk result (out.new.items ≡ out.old.items ++ copies_text machine.now.copies number) }
    ensures short { OnOk result (length out.new.items ≤ length out.old.items + 300) }
{
    put_copy(out, machine, number, 1)?;
    put_copy(out, machine, number, 2)?;
    put_copy(out, machine, number, 3)
}

/// Adds the answer to a command that was carried out: it did all that it was asked, or it didn't, and there are so many
/// breakpoints now.
pub(crate) fn put_answer(
    out: &mut Vec<u8>,
    machine: &Machine,
    command: &Command,
    all: bool,
    breaks: &Breaks,
) -> Result<(), NoMemory>
    requires { IsCommand command.now }
    ensures text { OnOk result ((o : Trial) (t : ℕ) (ds : List Device) → Stands o t machine.now ds
        → out.new.items ≡ out.old.items ++ answer_text o (state_by machine.now.end machine.now.mode o t) breaks.now all command.now) }
    ensures short { OnOk result (length out.new.items ≤ length out.old.items + most_answer command.now) }
{
    match command {
        Command::Step(_) => put_came(out, machine, all),
        Command::Go => put_came(out, machine, all),
        Command::Break(_) => put_breaks(out, all, breaks.count()),
        Command::Regs => put_registers(out, &machine.visible()),
        Command::Mem { at, count } => put_mem(out, machine, *at, *count),
        Command::Dis { at, syl, count } => put_dis(out, machine, *at, *syl, *count),
        Command::Copies(number) => put_copies(out, machine, *number),
    }
}
