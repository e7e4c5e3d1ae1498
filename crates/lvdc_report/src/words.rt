ghost use Rattle.std.specs.Prelude.{◌≡◌, ℕ, ◌+◌, ◌*◌, ◌<◌, ◌≤◌, ◌++◌, length, OnOk, true, false, List, [], ◌/◌};
ghost use Rattle.lvdc_map.specs.Memory.{Memory, IsMemory};
ghost use Rattle.lvdc_port.specs.Device.{Device};
ghost use Rattle.lvdc_model.specs.Known.{is_known};
ghost use Rattle.lvdc_model.specs.Trial.{Trial};
ghost use Rattle.lvdc_model.specs.Voted.{Voted};
ghost use Rattle.lvdc_machine.specs.Resumed.{state_from, StandsFrom};
ghost use Rattle.lvdc_lines.specs.Noted.{lines_below};
ghost use Rattle.lvdc_report.specs.Report.{memory_line, unknown_line, told_line, line_at, memory_text, all_known, plain_line};
ghost use Rattle.lvdc_report.specs.Voted.{shown_line};

use lvdc_machine::{Machine, Shown};
use lvdc_map::Address;
use lvdc_plain::Plain;
use lvdc_text::{Piece, put_line};
use lvdc_word::{NoMemory, Word};

/// Adds the line of a word of memory.
pub fn put_memory_line(out: &mut Vec<u8>, at: Address, word: Word) -> Result<(), NoMemory>
    ensures line { OnOk result (out.new.items ≡ out.old.items ++ memory_line at word) }
    ensures short { OnOk result (length out.new.items ≤ length out.old.items + 23) }
{
    put_line(out, b"MEM", &[Piece::Address(at), Piece::Word(word)])
}

/// Adds the line of a word that can't be told.
pub fn put_unknown_line(out: &mut Vec<u8>, at: Address) -> Result<(), NoMemory>
    ensures line { OnOk result (out.new.items ≡ out.old.items ++ unknown_line at) }
    ensures short { OnOk result (length out.new.items ≤ length out.old.items + 23) }
{
    put_line(out, b"MEM", &[Piece::Address(at), Piece::Bytes(b"?")])
}

/// Adds the line of a word that can be told, unless it is 0.
fn put_known_line(out: &mut Vec<u8>, at: Address, word: Word) -> Result<(), NoMemory>
    ensures line { OnOk result (out.new.items ≡ out.old.items ++ told_line true at word) }
    ensures short { OnOk result (length out.new.items ≤ length out.old.items + 23) }
{
    if word.value() == 0 {
        return Ok(());
    }
    put_memory_line(out, at, word)?;
    Ok(())
}

/// Adds the line of an address of the plain machine, where its bank is there and its word isn't 0.
fn put_line_at(out: &mut Vec<u8>, plain: &Plain, at: Address) -> Result<(), NoMemory>
    ensures line { OnOk result ((m : Memory) → IsMemory plain.now.words m →
        out.new.items ≡ out.old.items ++ line_at plain.now.banks m all_known at) }
    ensures short { OnOk result (length out.new.items ≤ length out.old.items + 23) }
{
    if !plain.banks().has(at) {
        return Ok(());
    }
    put_known_line(out, at, plain.word(at))?;
    Ok(())
}

/// Adds the lines of the words of the plain machine's memory, by rising address.
pub(crate) fn put_memory(out: &mut Vec<u8>, plain: &Plain) -> Result<(), NoMemory>
    ensures lines { OnOk result ((m : Memory) → IsMemory plain.now.words m →
        out.new.items ≡ out.old.items ++ memory_text plain.now.banks m all_known) }
    ensures short { OnOk result (length out.new.items ≤ length out.old.items + 23 * 32768) }
{
    for sector in 0..Address::SECTORS {
        if !plain.is_blank(sector) {
            put_sector(out, plain, sector)?;
        }
    }
    Ok(())
}

/// Adds the lines of a sector, of the 128 in the order of addresses.
fn put_sector(out: &mut Vec<u8>, plain: &Plain, sector: usize) -> Result<(), NoMemory>
    requires { sector < 128 }
    ensures lines { OnOk result ((m : Memory) → IsMemory plain.now.words m → (before : List ℕ)
        → out.old.items ≡ before ++ lines_below (plain_line plain.now.banks m) (256 * sector)
        → out.new.items ≡ before ++ lines_below (plain_line plain.now.banks m) (256 * sector + 256)) }
    ensures short { OnOk result (length out.new.items ≤ length out.old.items + 23 * 256) }
{
    for number in 256 * sector..256 * sector + 256 {
        put_line_at(out, plain, Address::numbered(number))?;
    }
    Ok(())
}

/// Adds the line of an address of the voted machine, where its bank is there: its word, unless it is 0, or that it can't be
/// told.
fn put_shown_line(out: &mut Vec<u8>, machine: &Machine, at: Address) -> Result<(), NoMemory>
    ensures line { OnOk result ((o : Trial) (first : Voted) (n : ℕ) (ds : List Device) → StandsFrom o first n machine.now ds → out.new.items ≡ out.old.items
        ++ line_at machine.now.banks (state_from machine.now.end machine.now.mode o first n).intended
        (λ spot. is_known o (state_from machine.now.end machine.now.mode o first n) spot) at) }
    ensures short { OnOk result (length out.new.items ≤ length out.old.items + 23) }
{
    if !machine.banks().has(at) {
        return Ok(());
    }
    match machine.shown(at) {
        Shown::Known(word) => put_known_line(out, at, word)?,
        Shown::Unknown => put_unknown_line(out, at)?,
    }
    Ok(())
}

/// Adds the lines of the words of the voted machine's memory, by rising address.
pub(crate) fn put_shown_memory(out: &mut Vec<u8>, machine: &Machine) -> Result<(), NoMemory>
    ensures lines { OnOk result ((o : Trial) (first : Voted) (n : ℕ) (ds : List Device) → StandsFrom o first n machine.now ds → out.new.items ≡ out.old.items
        ++ memory_text machine.now.banks (state_from machine.now.end machine.now.mode o first n).intended
        (λ spot. is_known o (state_from machine.now.end machine.now.mode o first n) spot)) }
    ensures short { OnOk result (length out.new.items ≤ length out.old.items + 23 * 32768) }
{
    for sector in 0..Address::SECTORS {
        if has_words(machine, sector) {
            put_shown_sector(out, machine, sector)?;
        }
    }
    Ok(())
}

/// May a sector, of the 128 in the order of addresses, have lines? False says that its bank isn't there, or that each of its words is known to
/// be 0.
fn has_words(machine: &Machine, sector: usize) -> bool
    requires { sector < 128 }
    ensures { result ≡ false → (o : Trial) (first : Voted) (n : ℕ) (ds : List Device) → StandsFrom o first n machine.now ds → (number : ℕ) → number / 256 ≡ sector
        → shown_line machine.now.banks o (state_from machine.now.end machine.now.mode o first n) number ≡ [] }
{
    if !machine.banks().has(Address::numbered(256 * sector)) {
        return false;
    }
    !machine.is_blank(sector)
}

/// Adds the lines of a sector, of the 128 in the order of addresses.
fn put_shown_sector(out: &mut Vec<u8>, machine: &Machine, sector: usize) -> Result<(), NoMemory>
    requires { sector < 128 }
    ensures lines { OnOk result ((o : Trial) (first : Voted) (n : ℕ) (ds : List Device) → StandsFrom o first n machine.now ds → (before : List ℕ)
        → out.old.items ≡ before ++ lines_below (shown_line machine.now.banks o (state_from machine.now.end machine.now.mode o first n)) (256 * sector)
        → out.new.items ≡ before ++ lines_below (shown_line machine.now.banks o (state_from machine.now.end machine.now.mode o first n)) (256 * sector + 256)) }
    ensures short { OnOk result (length out.new.items ≤ length out.old.items + 23 * 256) }
{
    for number in 256 * sector..256 * sector + 256 {
        if !machine.is_zero(number) {
            put_shown_line(out, machine, Address::numbered(number))?;
        }
    }
    Ok(())
}
