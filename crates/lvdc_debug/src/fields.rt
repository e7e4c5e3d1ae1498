//! The fields of each command.

ghost use Rattle.std.specs.Prelude.{◌≡◌, ◌<◌, ◌≤◌, map, IfSome, All};
ghost use Rattle.lvdc_text.specs.Lines.{LiesIn, token_text};
ghost use Rattle.lvdc_debug.specs.Commands.{syllable_in, count_in, step_in, alone_in, break_in, mem_in, dis_in, copies_in, IsCommand};

use crate::{Command, Spot2};
use lvdc_lines::{decimal_in, octal_in, place_in};
use lvdc_text::{Token, token_text};

/// How many locations a sector has.
const LOCATIONS: u16 = 256;

/// A syllable: 0 or 1.
#[tactic(auto, unfolding(crate::specs::Commands::syllable_in))]
fn syllable_in(token: &[u8]) -> Option<u8>
    ensures value { result ≡ syllable_in token.now }
    ensures range { IfSome result (λ syl. syl < 2) }
{
    let syl = octal_in(2, 1, token)?;
    Some(syl as u8)
}

/// How many words: 1 to 256.
#[tactic(auto, unfolding(crate::specs::Commands::count_in))]
fn count_in(token: &[u8]) -> Option<u16>
    ensures value { result ≡ count_in token.now }
    ensures range { IfSome result (λ count. (1 ≤ count) × (count ≤ 256)) }
{
    let count = decimal_in(1, u64::from(LOCATIONS) + 1, token)?;
    Some(count as u16)
}

/// The command of a STEP line with these fields.
pub(crate) fn step_in(text: &[u8], fields: &[Token]) -> Option<Command>
    requires { All (LiesIn text.now) fields.now }
    ensures command { result ≡ step_in (map (token_text text.now) fields.now) }
    ensures ranges { IfSome result IsCommand }
{
    let [times] = fields else {
        return None;
    };
    let times = decimal_in(1, 1_000_001, token_text(text, times))?;
    Some(Command::Step(times))
}

/// The command, where its line has no fields.
pub(crate) fn alone_in(command: Command, text: &[u8], fields: &[Token]) -> Option<Command>
    requires within { All (LiesIn text.now) fields.now }
    requires ranges { IsCommand command }
    ensures command { result ≡ alone_in command (map (token_text text.now) fields.now) }
    ensures ranges { IfSome result IsCommand }
{
    match fields {
        [] => Some(command),
        _ => None,
    }
}

/// The command of a BREAK line with these fields.
pub(crate) fn break_in(text: &[u8], fields: &[Token]) -> Option<Command>
    requires { All (LiesIn text.now) fields.now }
    ensures command { result ≡ break_in (map (token_text text.now) fields.now) }
    ensures ranges { IfSome result IsCommand }
{
    let [pair, sector, syl, loc] = fields else {
        return None;
    };
    let at = place_in(
        token_text(text, pair),
        token_text(text, sector),
        token_text(text, loc),
    )?;
    let syl = syllable_in(token_text(text, syl))?;
    Some(Command::Break(Spot2 { at, syl }))
}

/// The command of a MEM line with these fields.
pub(crate) fn mem_in(text: &[u8], fields: &[Token]) -> Option<Command>
    requires { All (LiesIn text.now) fields.now }
    ensures command { result ≡ mem_in (map (token_text text.now) fields.now) }
    ensures ranges { IfSome result IsCommand }
{
    let [pair, sector, loc, count] = fields else {
        return None;
    };
    let at = place_in(
        token_text(text, pair),
        token_text(text, sector),
        token_text(text, loc),
    )?;
    let count = count_in(token_text(text, count))?;
    if u16::from(at.loc) + count <= LOCATIONS {
        Some(Command::Mem { at, count })
    } else {
        None
    }
}

/// The command of a DIS line with these fields.
pub(crate) fn dis_in(text: &[u8], fields: &[Token]) -> Option<Command>
    requires { All (LiesIn text.now) fields.now }
    ensures command { result ≡ dis_in (map (token_text text.now) fields.now) }
    ensures ranges { IfSome result IsCommand }
{
    let [pair, sector, syl, loc, count] = fields else {
        return None;
    };
    let at = place_in(
        token_text(text, pair),
        token_text(text, sector),
        token_text(text, loc),
    )?;
    let syl = syllable_in(token_text(text, syl))?;
    let count = count_in(token_text(text, count))?;
    if u16::from(at.loc) + count <= LOCATIONS {
        Some(Command::Dis { at, syl, count })
    } else {
        None
    }
}

/// The command of a COPIES line with these fields.
pub(crate) fn copies_in(text: &[u8], fields: &[Token]) -> Option<Command>
    requires { All (LiesIn text.now) fields.now }
    ensures command { result ≡ copies_in (map (token_text text.now) fields.now) }
    ensures ranges { IfSome result IsCommand }
{
    let [number] = fields else {
        return None;
    };
    let number = decimal_in(1, 8, token_text(text, number))?;
    Some(Command::Copies(number as u8))
}
