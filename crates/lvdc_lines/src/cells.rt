//! The lines of what happens to memory.

ghost use Rattle.std.specs.Prelude.{◌≡◌, map, IfSome, All};
ghost use Rattle.lvdc_text.specs.Lines.{LiesIn, token_text};
ghost use Rattle.lvdc_fault.specs.Events.{IsEvent};
ghost use Rattle.lvdc_lines.specs.Lines.{damage_in, stick_in, dead_in};

use crate::fields::{cell_in, pair_in, place_in, span_in, step_in, twin_in};
use lvdc_fault::Event;
use lvdc_text::{Token, token_text};

/// The event of a DAMAGE line with these fields.
pub(crate) fn damage_in(text: &[u8], fields: &[Token]) -> Option<Event>
    requires { All (LiesIn text.now) fields.now }
    ensures event { result ≡ damage_in (map (token_text text.now) fields.now) }
    ensures ranges { IfSome result IsEvent }
{
    let [twin, pair, sector, loc, step, mask] = fields else {
        return None;
    };
    let twin = twin_in(token_text(text, twin))?;
    let at = place_in(
        token_text(text, pair),
        token_text(text, sector),
        token_text(text, loc),
    )?;
    let step = step_in(token_text(text, step))?;
    let mask = cell_in(token_text(text, mask))?;
    Some(Event::Damage {
        twin,
        at,
        step,
        mask,
    })
}

/// The event of a STICK line with these fields.
pub(crate) fn stick_in(text: &[u8], fields: &[Token]) -> Option<Event>
    requires { All (LiesIn text.now) fields.now }
    ensures event { result ≡ stick_in (map (token_text text.now) fields.now) }
    ensures ranges { IfSome result IsEvent }
{
    let [twin, pair, sector, loc, first, last, mask, value] = fields else {
        return None;
    };
    let twin = twin_in(token_text(text, twin))?;
    let at = place_in(
        token_text(text, pair),
        token_text(text, sector),
        token_text(text, loc),
    )?;
    let span = span_in(token_text(text, first), token_text(text, last))?;
    let mask = cell_in(token_text(text, mask))?;
    let value = cell_in(token_text(text, value))?;
    Some(Event::Stick {
        twin,
        at,
        first: span.first,
        last: span.last,
        mask,
        value,
    })
}

/// The event of a DEAD line with these fields.
pub(crate) fn dead_in(text: &[u8], fields: &[Token]) -> Option<Event>
    requires { All (LiesIn text.now) fields.now }
    ensures event { result ≡ dead_in (map (token_text text.now) fields.now) }
    ensures ranges { IfSome result IsEvent }
{
    let [twin, pair, first, last] = fields else {
        return None;
    };
    let twin = twin_in(token_text(text, twin))?;
    let pair = pair_in(token_text(text, pair))?;
    let span = span_in(token_text(text, first), token_text(text, last))?;
    Some(Event::Dead {
        twin,
        pair,
        first: span.first,
        last: span.last,
    })
}
