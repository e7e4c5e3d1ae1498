ghost use Rattle.std.specs.Prelude.{◌≡◌, ◌<◌, ◌≤◌, length, map, option_map, IfSome, All};
ghost use Rattle.lvdc_text.specs.Lines.{LiesIn, token_text};
ghost use Rattle.lvdc_uplink.specs.Messages.{decimal_in, id_in, count_in, frame_at, words_in, content_in, checked_in, open_in, frame_in, commit_in, abandon_in, IsMessage};

use crate::frame::{Frame, MOST_WORDS};
use crate::message::Message;
use lvdc_lines::place_in;
use lvdc_map::Address;
use lvdc_text::{Token, decimal, octal_word, token_text};
use lvdc_word::Word;

/// The most digits of a decimal number.
const DIGITS: u8 = 6;

/// The first number that is no id.
const IDS: u64 = 1_000_000;

/// One more than the most frames of a load.
const COUNTS: u64 = 65;

/// A decimal number of one to six digits, from 1 on and below `limit`.
fn decimal_in(limit: u64, token: &[u8]) -> Option<u64>
    ensures value { result ≡ decimal_in limit token.now }
    ensures range { IfSome result (λ n. (1 ≤ n) × (n < limit)) }
{
    match decimal(token, DIGITS) {
        Some(number) if number >= 1 && number < limit => Some(number),
        _ => None,
    }
}

/// The id of a load.
#[tactic(auto, unfolding(crate::specs::Messages::id_in))]
fn id_in(token: &[u8]) -> Option<u32>
    ensures value { result ≡ id_in token.now }
    ensures range { IfSome result (λ id. (1 ≤ id) × (id < 1000000)) }
{
    let id = decimal_in(IDS, token)?;
    Some(id as u32)
}

/// The number of a frame, or how many there are.
#[tactic(auto, unfolding(crate::specs::Messages::count_in))]
fn count_in(token: &[u8]) -> Option<u8>
    ensures value { result ≡ count_in token.now }
    ensures range { IfSome result (λ count. (1 ≤ count) × (count ≤ 64)) }
{
    let count = decimal_in(COUNTS, token)?;
    Some(count as u8)
}

/// The frame at this place with the words of these tokens, where each is one.
fn words_in(at: Address, text: &[u8], tokens: &[Token]) -> Option<Frame>
    requires pair { at.pair < 4 }
    requires within { All (LiesIn text.now) tokens.now }
    requires few { length tokens.now ≤ 8 }
    ensures { result ≡ option_map (frame_at at) (words_in (map (token_text text.now) tokens.now)) }
{
    let mut frame = Frame::new(at);
    for token in tokens {
        frame.push(octal_word(token_text(text, token))?);
    }
    Some(frame)
}

/// The frame at this place with the words of these tokens, one to eight.
fn content_in(at: Address, text: &[u8], tokens: &[Token]) -> Option<Frame>
    requires pair { at.pair < 4 }
    requires within { All (LiesIn text.now) tokens.now }
    ensures { result ≡ option_map (frame_at at) (content_in (map (token_text text.now) tokens.now)) }
{
    if tokens.is_empty() || tokens.len() > MOST_WORDS {
        return None;
    }
    words_in(at, text, tokens)
}

/// The frame of these tokens for this place, of which the last is the check word, and that word.
fn checked_in(at: Address, text: &[u8], tokens: &[Token]) -> Option<(Frame, Word)>
    requires pair { at.pair < 4 }
    requires within { All (LiesIn text.now) tokens.now }
    ensures { result ≡ checked_in at (map (token_text text.now) tokens.now) }
{
    let (check, words) = tokens.split_last()?;
    let frame = content_in(at, text, words)?;
    let check = octal_word(token_text(text, check))?;
    Some((frame, check))
}

/// The message of an OPEN line with these fields.
pub(crate) fn open_in(text: &[u8], fields: &[Token]) -> Option<Message>
    requires { All (LiesIn text.now) fields.now }
    ensures message { result ≡ open_in (map (token_text text.now) fields.now) }
    ensures ranges { IfSome result IsMessage }
{
    let [id, count] = fields else {
        return None;
    };
    let id = id_in(token_text(text, id))?;
    let count = count_in(token_text(text, count))?;
    Some(Message::Open { id, count })
}

/// The message of a FRAME line with these fields.
pub(crate) fn frame_in(text: &[u8], fields: &[Token]) -> Option<Message>
    requires { All (LiesIn text.now) fields.now }
    ensures message { result ≡ frame_in (map (token_text text.now) fields.now) }
    ensures ranges { IfSome result IsMessage }
{
    let [id, number, pair, sector, loc, rest @ ..] = fields else {
        return None;
    };
    let id = id_in(token_text(text, id))?;
    let number = count_in(token_text(text, number))?;
    let at = place_in(
        token_text(text, pair),
        token_text(text, sector),
        token_text(text, loc),
    )?;
    let (frame, check) = checked_in(at, text, rest)?;
    Some(Message::Frame {
        id,
        number,
        frame,
        check,
    })
}

/// The message of a COMMIT line with these fields.
pub(crate) fn commit_in(text: &[u8], fields: &[Token]) -> Option<Message>
    requires { All (LiesIn text.now) fields.now }
    ensures message { result ≡ commit_in (map (token_text text.now) fields.now) }
    ensures ranges { IfSome result IsMessage }
{
    let [id, check] = fields else {
        return None;
    };
    let id = id_in(token_text(text, id))?;
    let check = octal_word(token_text(text, check))?;
    Some(Message::Commit { id, check })
}

/// The message of an ABANDON line with these fields.
pub(crate) fn abandon_in(text: &[u8], fields: &[Token]) -> Option<Message>
    requires { All (LiesIn text.now) fields.now }
    ensures message { result ≡ abandon_in (map (token_text text.now) fields.now) }
    ensures ranges { IfSome result IsMessage }
{
    let [id] = fields else {
        return None;
    };
    let id = id_in(token_text(text, id))?;
    Some(Message::Abandon { id })
}
