ghost use Rattle.std.specs.Prelude.{◌≡◌, ◌<◌, ◌-◌, ◌^◌, length, map, Some, None, IfSome, IfOk, OnErr, All};
ghost use Rattle.lvdc_text.specs.Lines.{token_texts_of, LiesIn, token_text};
ghost use Rattle.lvdc_debug.specs.Commands.{command_in, IsCommand};

use crate::Command;
use crate::fields::{alone_in, break_in, copies_in, dis_in, mem_in, step_in};
use lvdc_text::{Token, few_tokens, token_text};
use thiserror::Error;

/// The most tokens of a command: DIS has so many.
const MOST_TOKENS: usize = 6;

/// The text is no command.
#[derive(Clone, Copy, Debug, PartialEq, Eq, Error)]
#[error("no command")]
pub struct BadCommand;

/// The command of these tokens.
fn command_in(text: &[u8], tokens: &[Token]) -> Option<Command>
    requires { All (LiesIn text.now) tokens.now }
    ensures command { result ≡ command_in (map (token_text text.now) tokens.now) }
    ensures ranges { IfSome result IsCommand }
{
    let [first, fields @ ..] = tokens else {
        return None;
    };
    let word = token_text(text, first);
    if word == b"STEP".as_slice() {
        step_in(text, fields)
    } else if word == b"GO".as_slice() {
        alone_in(Command::Go, text, fields)
    } else if word == b"BREAK".as_slice() {
        break_in(text, fields)
    } else if word == b"REGS".as_slice() {
        alone_in(Command::Regs, text, fields)
    } else if word == b"MEM".as_slice() {
        mem_in(text, fields)
    } else if word == b"DIS".as_slice() {
        dis_in(text, fields)
    } else if word == b"COPIES".as_slice() {
        copies_in(text, fields)
    } else {
        None
    }
}

/// The command that a line of a session is. It takes no memory.
pub fn parse_command(text: &[u8]) -> Result<Command, BadCommand>
    requires { length text.now < 2 ^ 32 - 1 }
    ensures command { IfOk result (λ command. command_in (token_texts_of text.now) ≡ Some command) }
    ensures ranges { IfOk result IsCommand }

    // Exactly where the text is no command.
    ensures bad { OnErr result (command_in (token_texts_of text.now) ≡ None) }
{
    let tokens = few_tokens::<MOST_TOKENS>(text).ok_or(BadCommand)?;
    command_in(text, tokens.as_slice()).ok_or(BadCommand)
}
