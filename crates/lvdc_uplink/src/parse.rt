ghost use Rattle.std.specs.Prelude.{◌≡◌, map, IfSome, All};
ghost use Rattle.lvdc_text.specs.Lines.{LiesIn, token_text};
ghost use Rattle.lvdc_uplink.specs.Messages.{message_in, message_of, IsMessage};

use crate::fields::{abandon_in, commit_in, frame_in, open_in};
use crate::message::Message;
use lvdc_text::{Token, few_tokens, is_long, token_text};

/// The most tokens of a message: FRAME with eight words has so many.
const MOST_TOKENS: usize = 15;

/// The message of these tokens.
fn message_in(text: &[u8], tokens: &[Token]) -> Option<Message>
    requires { All (LiesIn text.now) tokens.now }
    ensures message { result ≡ message_in (map (token_text text.now) tokens.now) }
    ensures ranges { IfSome result IsMessage }
{
    let [first, fields @ ..] = tokens else {
        return None;
    };
    let word = token_text(text, first);
    if word == b"OPEN".as_slice() {
        open_in(text, fields)
    } else if word == b"FRAME".as_slice() {
        frame_in(text, fields)
    } else if word == b"COMMIT".as_slice() {
        commit_in(text, fields)
    } else if word == b"ABANDON".as_slice() {
        abandon_in(text, fields)
    } else {
        None
    }
}

/// The message that a line is. It takes no memory.
pub(crate) fn message_of(text: &[u8]) -> Option<Message>
    ensures message { result ≡ message_of text.now }
    ensures ranges { IfSome result IsMessage }
{
    if is_long(text) {
        return None;
    }
    let tokens = few_tokens::<MOST_TOKENS>(text)?;
    message_in(text, tokens.as_slice())
}
