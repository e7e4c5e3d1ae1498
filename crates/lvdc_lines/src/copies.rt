//! The lines of what happens to copies.

ghost use Rattle.std.specs.Prelude.{◌≡◌, map, IfSome, All};
ghost use Rattle.lvdc_text.specs.Lines.{LiesIn, token_text};
ghost use Rattle.lvdc_fault.specs.Events.{IsEvent};
ghost use Rattle.lvdc_lines.specs.Lines.{flip_in, force_in, lag_in, deaf_in};

use crate::fields::{index_in, module_copy_in, span_in};
use lvdc_fault::Event;
use lvdc_text::{Token, octal_word, token_text};

/// The event of a FLIP line with these fields.
pub(crate) fn flip_in(text: &[u8], fields: &[Token]) -> Option<Event>
    requires { All (LiesIn text.now) fields.now }
    ensures event { result ≡ flip_in (map (token_text text.now) fields.now) }
    ensures ranges { IfSome result IsEvent }
{
    let [number, copy, first, last, index, mask] = fields else {
        return None;
    };
    let named = module_copy_in(token_text(text, number), token_text(text, copy))?;
    let span = span_in(token_text(text, first), token_text(text, last))?;
    let index = index_in(named, token_text(text, index))?;
    let mask = octal_word(token_text(text, mask))?;
    Some(Event::Flip {
        module: named.number,
        copy: named.copy,
        first: span.first,
        last: span.last,
        index,
        mask,
    })
}

/// The event of a FORCE line with these fields.
pub(crate) fn force_in(text: &[u8], fields: &[Token]) -> Option<Event>
    requires { All (LiesIn text.now) fields.now }
    ensures event { result ≡ force_in (map (token_text text.now) fields.now) }
    ensures ranges { IfSome result IsEvent }
{
    let [number, copy, first, last, index, mask, value] = fields else {
        return None;
    };
    let named = module_copy_in(token_text(text, number), token_text(text, copy))?;
    let span = span_in(token_text(text, first), token_text(text, last))?;
    let index = index_in(named, token_text(text, index))?;
    let mask = octal_word(token_text(text, mask))?;
    let value = octal_word(token_text(text, value))?;
    Some(Event::Force {
        module: named.number,
        copy: named.copy,
        first: span.first,
        last: span.last,
        index,
        mask,
        value,
    })
}

/// The event of a LAG line with these fields.
pub(crate) fn lag_in(text: &[u8], fields: &[Token]) -> Option<Event>
    requires { All (LiesIn text.now) fields.now }
    ensures event { result ≡ lag_in (map (token_text text.now) fields.now) }
    ensures ranges { IfSome result IsEvent }
{
    let [number, copy, first, last] = fields else {
        return None;
    };
    let named = module_copy_in(token_text(text, number), token_text(text, copy))?;
    let span = span_in(token_text(text, first), token_text(text, last))?;
    Some(Event::Lag {
        module: named.number,
        copy: named.copy,
        first: span.first,
        last: span.last,
    })
}

/// The event of a DEAF line with these fields.
pub(crate) fn deaf_in(text: &[u8], fields: &[Token]) -> Option<Event>
    requires { All (LiesIn text.now) fields.now }
    ensures event { result ≡ deaf_in (map (token_text text.now) fields.now) }
    ensures ranges { IfSome result IsEvent }
{
    let [number, copy, first, last] = fields else {
        return None;
    };
    let named = module_copy_in(token_text(text, number), token_text(text, copy))?;
    let span = span_in(token_text(text, first), token_text(text, last))?;
    Some(Event::Deaf {
        module: named.number,
        copy: named.copy,
        first: span.first,
        last: span.last,
    })
}
