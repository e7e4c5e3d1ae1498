ghost use Rattle.std.specs.Prelude.{◌≡◌, ◌≢◌, ◌-◌, ◌^◌, ◌<◌, ◌≤◌, length, map, true, IfOk, IfErr, All, Ok, Err};
ghost use Rattle.lvdc_map.specs.Memory.{are_rising, AllThere};
ghost use Rattle.lvdc_text.specs.Lines.{lines_of, IsWithin, part_of};
ghost use Rattle.lvdc_fault.specs.Events.{IsEvent};
ghost use Rattle.lvdc_deck.specs.Deck.{end_of, with_program, by_end, deck_of};
ghost use Rattle.lvdc_text.specs.declared.comment.TheConstants.{LONGEST_LINE};
ghost use Rattle.lvdc_fault.specs.declared.TheConstants.{MOST_TIMES, MOST_EVENTS};
ghost use Rattle.lvdc_deck.specs.declared.fault.DeckFault.TheVariants.{NoMemory as WantsMemory};

use crate::layout::{end_of, opening_of, place_after};
use crate::program::DeckProgram;
use crate::said::Said;
use crate::section::{Opening, ProgramKind};
use crate::{Deck, DeckFault};
use lvdc_port::PortDevice;
use lvdc_text::{Line, lines, part};
use std::alloc::Global;

/// The deck of what the sections said, of these commands and of the program in these lines of the bytes.
fn with_program(
    alloc: Global,
    kind: ProgramKind,
    bytes: &[u8],
    text: &[Line],
    debugging: bool,
    next: u32,
    said: Said,
    commands: Vec<Line>,
) -> Result<Deck, DeckFault>
    requires size { length bytes.now < 2 ^ 32 - 1 }
    requires within { All (IsWithin bytes.now) text.now }
    ensures deck { IfOk result (λ deck.
        with_program kind bytes.now text.now debugging next (record { sections = said; commands = commands.items }) ≡ Ok deck) }
    ensures refusal { IfErr result (λ fault. fault ≢ WantsMemory →
        with_program kind bytes.now text.now debugging next (record { sections = said; commands = commands.items }) ≡ Err fault) }
    ensures commands { IfOk result (λ deck. deck.commands ≡ commands.items) }
    ensures count { IfOk result (λ deck. deck.count ≤ MOST_TIMES) }
    ensures rising { IfOk result (λ deck. are_rising deck.image.words ≡ true) }
    ensures there { IfOk result (λ deck. AllThere deck.banks deck.image.words) }
    ensures few { IfOk result (λ deck. length deck.script ≤ MOST_EVENTS) }
    ensures events { IfOk result (λ deck. All IsEvent deck.script) }
{
    let count = match said.count(debugging, next) {
        Ok(count) => count,
        Err(fault) => return Err(fault),
    };
    match DeckProgram::read(alloc, kind, bytes, text) {
        Ok(program) => said.into_deck(program, commands, count),
        Err(fault) => Err(fault),
    }
}

/// Reads a deck from the line IMAGE or SOURCE on, which has this number. The lines are those after it, `end` is the place of END among
/// them, and `next` is one more than the last.
fn read_program(
    alloc: Global,
    kind: ProgramKind,
    bytes: &[u8],
    devices: &Vec<Box<dyn PortDevice>>,
    debugging: bool,
    next: u32,
    number: u32,
    lines: &[Line],
    end: Option<usize>,
) -> Result<Deck, DeckFault>
    requires size { length bytes.now < 2 ^ 32 - 1 }
    requires within { All (IsWithin bytes.now) lines.now }
    requires end { end ≡ end_of bytes.now lines.now }
    ensures deck { IfOk result (λ deck.
        by_end kind (map device_of devices.now.items) debugging bytes.now next number lines.now (end_of bytes.now lines.now) ≡ Ok deck) }
    ensures refusal { IfErr result (λ fault. fault ≢ WantsMemory →
        by_end kind (map device_of devices.now.items) debugging bytes.now next number lines.now (end_of bytes.now lines.now) ≡ Err fault) }
    ensures count { IfOk result (λ deck. deck.count ≤ MOST_TIMES) }
    ensures rising { IfOk result (λ deck. are_rising deck.image.words ≡ true) }
    ensures there { IfOk result (λ deck. AllThere deck.banks deck.image.words) }
    ensures few { IfOk result (λ deck. length deck.script ≤ MOST_EVENTS) }
    ensures events { IfOk result (λ deck. All IsEvent deck.script) }
    ensures within { IfOk result (λ deck. All (IsWithin bytes.now) deck.commands) }
    ensures short { IfOk result (λ deck. All (λ line. length (part_of bytes.now line) ≤ LONGEST_LINE) deck.commands) }
{
    let Some(at) = end else {
        return Err(DeckFault::BadSection(number));
    };
    let (text, sections) = lines.split_at(at + 1);
    let mut said = Said::new(alloc, kind);
    match said.take_lines(alloc, devices, bytes, sections) {
        Ok(commands) => with_program(alloc, kind, bytes, text, debugging, next, said, commands),
        Err(fault) => Err(fault),
    }
}

/// Reads bytes that were cut into these lines, among which END was sought, as `read_deck` does.
pub fn read_deck_lines(
    alloc: Global,
    bytes: &[u8],
    lines: &[Line],
    end: Option<usize>,
    devices: &Vec<Box<dyn PortDevice>>,
    debugging: bool,
) -> Result<Deck, DeckFault>
    requires size { length bytes.now < 2 ^ 32 - 1 }
    requires lines { lines.now ≡ lines_of bytes.now }
    requires within { All (IsWithin bytes.now) lines.now }
    requires few { length lines.now ≤ length bytes.now }
    requires end { end ≡ end_of bytes.now lines.now }
    ensures deck { IfOk result (λ deck. deck_of bytes.now (map device_of devices.now.items) debugging ≡ Ok deck) }
    ensures refusal { IfErr result (λ fault. fault ≢ WantsMemory →
        deck_of bytes.now (map device_of devices.now.items) debugging ≡ Err fault) }
    ensures count { IfOk result (λ deck. deck.count ≤ MOST_TIMES) }
    ensures rising { IfOk result (λ deck. are_rising deck.image.words ≡ true) }
    ensures there { IfOk result (λ deck. AllThere deck.banks deck.image.words) }
    ensures few { IfOk result (λ deck. length deck.script ≤ MOST_EVENTS) }
    ensures events { IfOk result (λ deck. All IsEvent deck.script) }
    // The commands are lines of these bytes, none of them too long.
    ensures within { IfOk result (λ deck. All (IsWithin bytes.now) deck.commands) }
    ensures short { IfOk result (λ deck. All (λ line. length (part_of bytes.now line) ≤ LONGEST_LINE) deck.commands) }
{
    let next = lines.len() as u32 + 1;
    for (at, line) in lines.iter().enumerate() {
        match opening_of(part(bytes, line)) {
            Opening::Long => return Err(DeckFault::BadLine(line.number)),
            Opening::Skipped => {}
            Opening::Program(kind) => return read_program(
                alloc,
                kind,
                bytes,
                devices,
                debugging,
                next,
                line.number,
                &lines[at + 1..],
                place_after(end, at),
            ),
            Opening::Other => return Err(DeckFault::NoProgram(line.number)),
        }
    }
    Err(DeckFault::NoProgram(next))
}

/// Reads the bytes as a deck over these devices, which stay as they are: its kinds say where a TAPE or an UNPLUG line may
/// stand. `debugging` says that a debugger's session is asked for, so that DEBUG must be there.
pub fn read_deck(
    alloc: Global,
    bytes: &[u8],
    devices: &Vec<Box<dyn PortDevice>>,
    debugging: bool,
) -> Result<Deck, DeckFault>
    requires { length bytes.now < 2 ^ 32 - 1 }
    ensures deck { IfOk result (λ deck. deck_of bytes.now (map device_of devices.now.items) debugging ≡ Ok deck) }
    ensures refusal { IfErr result (λ fault. fault ≢ WantsMemory →
        deck_of bytes.now (map device_of devices.now.items) debugging ≡ Err fault) }
    ensures count { IfOk result (λ deck. deck.count ≤ MOST_TIMES) }
    ensures rising { IfOk result (λ deck. are_rising deck.image.words ≡ true) }
    ensures there { IfOk result (λ deck. AllThere deck.banks deck.image.words) }
    ensures few { IfOk result (λ deck. length deck.script ≤ MOST_EVENTS) }
    ensures events { IfOk result (λ deck. All IsEvent deck.script) }
    // The commands are lines of these bytes, none of them too long.
    ensures within { IfOk result (λ deck. All (IsWithin bytes.now) deck.commands) }
    ensures short { IfOk result (λ deck. All (λ line. length (part_of bytes.now line) ≤ LONGEST_LINE) deck.commands) }
{
    let found = lines(alloc, bytes)?;
    let end = end_of(bytes, found.as_slice());
    read_deck_lines(alloc, bytes, found.as_slice(), end, devices, debugging)
}
