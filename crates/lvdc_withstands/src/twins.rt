//! Which twins the lines kill, and which others they name.

ghost use Rattle.std.specs.Prelude.{◌≡◌, [], ◌∷◌};
ghost use Rattle.std.specs.List.{list_any, list_all};
ghost use Rattle.lvdc_withstands.specs.Form.{names_twin, kills_in, is_one_sound};

use lvdc_fault::Event;

/// Is in each pair in which a twin dies the other one sound?
pub(crate) fn are_sound(lines: &[Event]) -> bool
    ensures { result ≡ list_all (is_one_sound lines.now) (0 ∷ 1 ∷ 2 ∷ 3 ∷ []) }
{
    is_one_sound(lines, 0)
        && is_one_sound(lines, 1)
        && is_one_sound(lines, 2)
        && is_one_sound(lines, 3)
}

/// Where a twin of this pair dies, is the other one sound?
fn is_one_sound(lines: &[Event], pair: u8) -> bool
    ensures { result ≡ is_one_sound lines.now pair }
{
    !(has_death(lines, pair) && is_named(lines, pair, 0) && is_named(lines, pair, 1))
}

/// Does a twin of this pair die?
fn has_death(lines: &[Event], pair: u8) -> bool
    ensures { result ≡ list_any (kills_in pair) lines.now }
{
    lines.iter().any(|line| kills_in(pair, line))
}

/// Does a line name this twin of this pair?
fn is_named(lines: &[Event], pair: u8, number: u8) -> bool
    ensures { result ≡ list_any (names_twin pair number) lines.now }
{
    lines.iter().any(|line| names_twin(pair, number, line))
}

/// Does it kill a twin of this pair?
fn kills_in(pair: u8, line: &Event) -> bool
    ensures { result ≡ kills_in pair line.now }
{
    match *line {
        Event::Dead { pair: number, .. } => number == pair,
        _ => false,
    }
}

/// Does it name this twin of this pair?
fn names_twin(pair: u8, number: u8, line: &Event) -> bool
    ensures { result ≡ names_twin pair number line.now }
{
    match *line {
        Event::Damage { twin, at, .. } | Event::Stick { twin, at, .. } => {
            at.pair == pair && twin == number
        }
        Event::Dead {
            twin,
            pair: named,
            ..
        } => named == pair && twin == number,
        _ => false,
    }
}
