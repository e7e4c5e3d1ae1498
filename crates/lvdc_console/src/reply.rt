ghost use Rattle.std.specs.Prelude.{◌≡◌, ◌≢◌, ◌≤◌, length, Some, IfOk};
ghost use Rattle.lvdc_cli.specs.Words.{limit_of};
ghost use Rattle.lvdc_cli.specs.Commands.{command_answer, room_of};
ghost use Rattle.lvdc_console.specs.Rack.{rack};
ghost use Rattle.lvdc_console.specs.Over.{IsReplied};

use crate::devices::{four_tapes, other_devices, plug_in_four, sixteen_devices};
use crate::rack::is_whole;
use lvdc_cli::{Command, reply};
use lvdc_reply::Reply;
use lvdc_word::NoMemory;
use std::alloc::Global;

/// Answers a command over the bytes that were read for it, none where it reads nothing, and over the program's own devices,
/// which are made for it and dropped with it. So no reply depends on an earlier one.
pub fn reply_over_rack(alloc: Global, command: Command, bytes: &[u8]) -> Result<Reply, NoMemory>
    requires { length bytes.now ≤ limit_of command }

    // The sixteen devices never fail, so 10 never comes.
    ensures never_fails { IfOk result (λ reply. reply.status ≢ 10) }

    // The status and the text are those of the definition.
    ensures answer { IfOk result (λ reply. (reply.status ≡ (command_answer command bytes.now rack).status)
        × (reply.text ≡ (command_answer command bytes.now rack).text)) }

    // What holds of a reply of `reply` over the sixteen devices of `rack`, and the headline.
    ensures replied { IfOk result (λ reply. IsReplied rack command bytes.now reply.status reply.text) }
    ensures room { IfOk result (λ reply. length reply.text ≤ room_of command) }
{
    let mut devices = sixteen_devices!(alloc);
    reply(alloc, command, bytes, &mut devices)
}
