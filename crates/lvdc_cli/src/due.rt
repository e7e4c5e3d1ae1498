ghost use Rattle.std.specs.Prelude.{◌≡◌, ◌≢◌, ◌+◌, ◌≤◌, ℕ, List, true, false, Some, Err, length, map, IfOk, IsErrOf};
ghost use Rattle.lvdc_text.specs.Causes.{Rose};
ghost use Rattle.lvdc_text.specs.Streams.{SinkState};
ghost use Rattle.lvdc_text.specs.Transfer.{TookCount, TookAtMost};
ghost use Rattle.lvdc_port.specs.Devices.{AreDistinct};
ghost use Rattle.lvdc_text.specs.Words.{texts};
ghost use Rattle.lvdc_reply.specs.Answer.{answer_with};
ghost use Rattle.lvdc_cli.specs.Words.{command_of, reads, reads_for, limit_of};
ghost use Rattle.lvdc_cli.specs.Outside.{outside};
ghost use Rattle.lvdc_cli.specs.Commands.{room_of, room_for};
ghost use Rattle.lvdc_cli.specs.Telling.{due_status, due_text};
ghost use Rattle.lvdc_cli.specs.Top.{HasRead, IsDue};

use crate::command::{Command, read_command};
use crate::join::reply;
use lvdc_port::PortDevice;
use lvdc_reply::Reply;
use lvdc_text::{ReadEnd, Source, read_all};
use std::alloc::Global;

const USAGE: &[u8] =
    b"usage: lvdc run [--plain | --through]\n       lvdc asm [--image]\n       lvdc debug\n       lvdc soak NUMBER\n       lvdc save NUMBER\n       lvdc resume\n       lvdc campaign\n       lvdc uplink\n       lvdc macro [--image]\n";

/// What there is to tell. All but a reply takes no memory.
#[derive(Drop)]
pub(crate) enum Due {
    /// The words are no command.
    Usage,
    /// A read failed.
    ReadFault,
    /// The input has more bytes than the limit.
    TooLong,
    /// The command's reply.
    Replied(Reply),
    /// Memory is wanting: nothing is written.
    NoMemory,
}

impl Due {
    /// The status that goes with it.
    pub(crate) fn status(&self) -> u8
        ensures { result ≡ due_status self.now }
    {
        match self {
            Due::Usage => 1,
            Due::ReadFault => 7,
            Due::TooLong => 11,
            Due::Replied(reply) => reply.status,
            Due::NoMemory => 9,
        }
    }

    /// The text that is told.
    pub(crate) fn text(&self) -> &[u8]
        ensures { result.now ≡ due_text self.now }
    {
        match self {
            Due::Usage => USAGE,
            Due::ReadFault => b"REFUSED ReadFault\n",
            Due::TooLong => b"REFUSED TooLong\n",
            Due::Replied(reply) => reply.text.items(),
            Due::NoMemory => b"",
        }
    }
}

/// Reads what the command asks for: the input to its end, or nothing.
fn read_input<S: Source>(
    alloc: Global,
    command: Command,
    source: &mut S,
) -> Result<Vec<u8>, ReadEnd>
    ensures read { IfOk result (λ bytes. HasRead command (S.state source.old) (S.state source.new) bytes.items) }
    ensures within { IfOk result (λ bytes. length bytes.items ≤ limit_of command) }
    ensures unread { reads_for command ≡ false → source.new ≡ source.old }
    ensures quiet { result ≢ Err ReadEnd.ReadFault → (S.state source.new).faults ≡ (S.state source.old).faults }
    ensures read_fault { IsErrOf result ReadEnd.ReadFault → (reads_for command ≡ true) × Rose (S.state source.old).faults (S.state source.new).faults
        × TookAtMost (S.state source.old).left (S.state source.new).left (limit_of command) }
    ensures too_long { IsErrOf result ReadEnd.TooLong → (reads_for command ≡ true)
        × TookCount (S.state source.old).left (S.state source.new).left (limit_of command + 1) }
    ensures no_memory { IsErrOf result ReadEnd.NoMemory → TookAtMost (S.state source.old).left (S.state source.new).left (limit_of command) }
{
    if command.reads() {
        read_all(alloc, source, command.limit())
    } else {
        Ok(Vec::new(alloc))
    }
}

/// What is due for a command.
fn due_for<S: Source>(
    alloc: Global,
    command: Command,
    source: &mut S,
    devices: &mut Vec<Box<dyn PortDevice>>,
) -> Due
    requires distinct { AreDistinct (map device_of devices.old.items) }
    ensures due { (words : List (List ℕ)) (before after : SinkState) → command_of words ≡ Some command
        → IsDue device_of faults words
        (outside (S.state source.old) before devices.old.items)
        (outside (S.state source.new) after devices.new.items)
        (answer_with (due_status result) (due_text result) (map device_of devices.new.items)) }
    ensures unread { reads_for command ≡ false → source.new ≡ source.old }
    ensures room { length (due_text result) ≤ room_of command }
{
    match read_input(alloc, command, source) {
        Ok(bytes) => match reply(alloc, command, bytes.as_slice(), devices) {
            Ok(reply) => Due::Replied(reply),
            Err(_) => Due::NoMemory,
        },
        Err(ReadEnd::ReadFault) => Due::ReadFault,
        Err(ReadEnd::TooLong) => Due::TooLong,
        Err(ReadEnd::NoMemory) => Due::NoMemory,
    }
}

/// What is due for the words: the usage text, or what reading and the command's reply come to. The sink has no part in it.
pub(crate) fn due_of<S: Source>(
    alloc: Global,
    words: &[String],
    source: &mut S,
    devices: &mut Vec<Box<dyn PortDevice>>,
) -> Due
    requires distinct { AreDistinct (map device_of devices.old.items) }
    ensures due { (before after : SinkState) → IsDue device_of faults (texts words.now)
        (outside (S.state source.old) before devices.old.items)
        (outside (S.state source.new) after devices.new.items)
        (answer_with (due_status result) (due_text result) (map device_of devices.new.items)) }
    ensures unread { reads (command_of (texts words.now)) ≡ false → source.new ≡ source.old }
    ensures room { length (due_text result) ≤ room_for (command_of (texts words.now)) }
{
    match read_command(words) {
        Some(command) => due_for(alloc, command, source, devices),
        None => Due::Usage,
    }
}
