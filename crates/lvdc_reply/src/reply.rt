ghost use Rattle.std.specs.Prelude.{◌≡◌, ◌+◌, ◌≤◌, length, IfOk};
ghost use Rattle.lvdc_reply.specs.Answer.{refusal_text};

use lvdc_text::{Piece, put_line};
use lvdc_word::{NoMemory, Seq};
use std::alloc::Global;

/// What a command answers: the exit status, and the text that goes with it, of which each line ends with LF.
#[derive(Drop)]
pub struct Reply {
    pub status: u8,
    pub text: Seq<u8>,
}

/// The refusal of an input with this status, for this cause and on this line. Lines are numbered from 1.
pub fn refusal(alloc: Global, status: u8, cause: &[u8], line: u32) -> Result<Reply, NoMemory>
    ensures status { IfOk result (λ reply. reply.status ≡ status) }
    ensures text { IfOk result (λ reply. reply.text ≡ refusal_text cause.now line) }
    ensures short { IfOk result (λ reply. length reply.text ≤ length cause.now + 30) }
{
    let mut text = Vec::new(alloc);
    let (cause, line) = (Piece::Bytes(cause), Piece::Decimal(u64::from(line)));
    put_line(&mut text, b"REFUSED", &[cause, line])?;
    Ok(Reply {
        status,
        text: Seq::from_vec(text),
    })
}
