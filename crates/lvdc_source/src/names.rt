ghost use Rattle.std.specs.Prelude.{◌≡◌, IfOk};
ghost use Rattle.std.specs.List.{list_all};
ghost use Rattle.lvdc_source.specs.Names.{is_capital, is_of_name, is_name, name_of};

use lvdc_word::{NoMemory, Seq};
use std::alloc::Global;

/// Is it a capital letter?
fn is_capital(byte: u8) -> bool
    ensures { result ≡ is_capital byte }
{
    b'A' <= byte && byte <= b'Z'
}

/// Is it a capital letter or a decimal digit?
fn is_of_name(byte: u8) -> bool
    ensures { result ≡ is_of_name byte }
{
    is_capital(byte) || (b'0' <= byte && byte <= b'9')
}

/// Are all bytes capital letters and decimal digits?
fn are_of_name(text: &[u8]) -> bool
    ensures { result ≡ list_all is_of_name text.now }
{
    text.iter().all(|byte| is_of_name(*byte))
}

/// Is the text a name: a capital letter, then up to seven capital letters and digits (this project's profile)?
#[tactic(auto, unfolding(crate::specs::Names::is_name))]
pub fn is_name(text: &[u8]) -> bool
    ensures { result ≡ is_name text.now }
{
    match text {
        [] => false,
        [first, rest @ ..] => { is_capital(*first) && rest.len() <= 7 && are_of_name(rest) }
    }
}

/// The text, in a list of its own.
pub(crate) fn copy_of(alloc: Global, text: &[u8]) -> Result<Seq<u8>, NoMemory>
    ensures { IfOk result (λ copy. copy ≡ text.now) }
{
    let copy = Vec::from_slice(alloc, text)?;
    Ok(Seq::from_vec(copy))
}

/// The name that the text is.
pub(crate) fn name_in(alloc: Global, text: &[u8]) -> Result<Option<Seq<u8>>, NoMemory>
    ensures { IfOk result (λ name. name ≡ name_of text.now) }
{
    if !is_name(text) {
        return Ok(None);
    }
    let name = copy_of(alloc, text)?;
    Ok(Some(name))
}
