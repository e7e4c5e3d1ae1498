ghost use Rattle.std.specs.Prelude.{◌≡◌, ◌≤◌, length, map, All};
ghost use Rattle.lvdc_text.specs.Lines.{token_texts_of, LiesIn, token_text};
ghost use Rattle.lvdc_source.specs.Lines.{is_labelled, word_at, parts_of};
ghost use Rattle.lvdc_text.specs.declared.comment.TheConstants.{LONGEST_LINE};

use lvdc_text::{LONGEST_LINE, Token, few_tokens, is_blank, token_text};

/// The parts of a line; one that is missing is empty.
#[derive(Clone, Copy)]
pub struct Parts<'a> {
    /// The label, where the line begins with one.
    pub label: &'a [u8],
    /// The operation: an instruction's mnemonic, a directive or any other word.
    pub operation: &'a [u8],
    /// The word after it, where there is one.
    pub operand: &'a [u8],
}

/// Does the line begin with a label?
fn is_labelled(text: &[u8]) -> bool
    ensures { result ≡ is_labelled text.now }
{
    match text {
        [] => false,
        [first, ..] => !is_blank(*first),
    }
}

/// The word at this index, or the empty text.
fn word_at<'a>(text: &'a [u8], words: &[Token], index: usize) -> &'a [u8]
    requires { All (LiesIn text.now) words.now }
    ensures { result.now ≡ word_at (map (token_text text.now) words.now) index }
{
    match words.get(index) {
        Some(word) => token_text(text, word),
        None => &[],
    }
}

/// The parts of a line whose words these are.
#[tactic(auto, unfolding(crate::specs::Lines::parts_of))]
pub fn parts_by<'a>(text: &'a [u8], words: &[Token]) -> Parts<'a>
    requires within { All (LiesIn text.now) words.now }
    requires words { map (token_text text.now) words.now ≡ token_texts_of text.now }
    ensures label { result.label.now ≡ (parts_of text.now).label }
    ensures operation { result.operation.now ≡ (parts_of text.now).operation }
    ensures operand { result.operand.now ≡ (parts_of text.now).operand }
{
    if is_labelled(text) {
        Parts {
            label: word_at(text, words, 0),
            operation: word_at(text, words, 1),
            operand: word_at(text, words, 2),
        }
    } else {
        Parts {
            label: &[],
            operation: word_at(text, words, 0),
            operand: word_at(text, words, 1),
        }
    }
}

/// The parts of a line that isn't too long.
pub(crate) fn parts_of(text: &[u8]) -> Parts<'_>
    requires { length text.now ≤ LONGEST_LINE }
    ensures label { result.label.now ≡ (parts_of text.now).label }
    ensures operation { result.operation.now ≡ (parts_of text.now).operation }
    ensures operand { result.operand.now ≡ (parts_of text.now).operand }
{
    let Some(words) = few_tokens::<LONGEST_LINE>(text) else {
        unreachable!();
    };
    parts_by(text, words.as_slice())
}
