ghost use Rattle.std.specs.Prelude.{◌≡◌, [], ◌∷◌, map, None, IfSome, IfNone, All};
ghost use Rattle.lvdc_text.specs.Lines.{LiesIn, token_text};
ghost use Rattle.lvdc_fault.specs.Events.{IsEvent};
ghost use Rattle.lvdc_lines.specs.Lines.{fault_in, order_in};
ghost use Rattle.lvdc_orders.specs.Orders.{order_of};

use crate::cells::{damage_in, dead_in, stick_in};
use crate::copies::{deaf_in, flip_in, force_in, lag_in};
use arrayvec::ArrayVec;
use lvdc_fault::Event;
use lvdc_orders::Order;
use lvdc_text::{Token, token_text};

/// The event of a fault line with these tokens.
pub fn event_of(text: &[u8], tokens: &[Token]) -> Option<Event>
    requires { All (LiesIn text.now) tokens.now }
    ensures event { result ≡ fault_in (map (token_text text.now) tokens.now) }
    ensures ranges { IfSome result IsEvent }
{
    let [first, fields @ ..] = tokens else {
        return None;
    };
    let word = token_text(text, first);
    if word == b"FLIP".as_slice() {
        flip_in(text, fields)
    } else if word == b"FORCE".as_slice() {
        force_in(text, fields)
    } else if word == b"LAG".as_slice() {
        lag_in(text, fields)
    } else if word == b"DEAF".as_slice() {
        deaf_in(text, fields)
    } else if word == b"DAMAGE".as_slice() {
        damage_in(text, fields)
    } else if word == b"STICK".as_slice() {
        stick_in(text, fields)
    } else if word == b"DEAD".as_slice() {
        dead_in(text, fields)
    } else {
        None
    }
}

/// The numbers of the copies that these letters name, A the first.
fn copies_in(letters: &[u8]) -> Option<ArrayVec<u8, 21>>
    ensures some { IfSome result (λ copies. order_in (letters.now ∷ []) ≡ order_of copies.items) }
    ensures none { IfNone result (order_in (letters.now ∷ []) ≡ None) }
{
    let mut copies = ArrayVec::new();
    for letter in letters {
        let copy = letter.checked_sub(b'A')?;
        if copies.try_push(copy).is_err() {
            return None;
        }
    }
    Some(copies)
}

/// The order of an order line with these tokens: the letters A to U, each once.
pub fn order_of(text: &[u8], tokens: &[Token]) -> Option<Order>
    requires { All (LiesIn text.now) tokens.now }
    ensures { result ≡ order_in (map (token_text text.now) tokens.now) }
{
    let [token] = tokens else {
        return None;
    };
    let copies = copies_in(token_text(text, token))?;
    Order::new(copies.as_slice())
}
