ghost use Rattle.std.specs.Prelude.{◌≡◌, false, length, map};
ghost use Rattle.lvdc_text.specs.Room.{HasRoom};
ghost use Rattle.lvdc_port.specs.Devices.{AreDistinct};
ghost use Rattle.lvdc_text.specs.Words.{texts};
ghost use Rattle.lvdc_command_run.specs.Runs.{Judges, Stops, IsStop};
ghost use Rattle.lvdc_command_resume.specs.Statuses.{IsInadmissible};
ghost use Rattle.lvdc_cli.specs.Words.{command_of, reads};
ghost use Rattle.lvdc_cli.specs.Commands.{room_for};
ghost use Rattle.lvdc_cli.specs.Outside.{outside};
ghost use Rattle.lvdc_cli.specs.Top.{IsTold, IsEnd, IsRefusal, IsWanting, GivesReply, GivesHeadline, GivesAnswer, ReadsAll, UsageHasCause, RunHasCause, ReadFaultHasCause, WriteFaultHasCause, DeviceFaultHasCause, TooLongHasCause};

use crate::due::due_of;
use lvdc_command_resume::resume_statuses;
use lvdc_command_run::{headline_told, statuses_caused};
use lvdc_command_save::save_statuses;
use lvdc_debug::session_statuses;
use lvdc_port::PortDevice;
use lvdc_text::{Sink, Source, write_all};
use std::alloc::Global;

/// Writes a text, and answers the status that goes with it, or 8.
fn tell<K: Sink>(sink: &mut K, status: u8, text: &[u8]) -> u8
    requires { HasRoom (K.state sink.old).room (length text.now) }
    ensures { IsTold (K.state sink.old) (K.state sink.new) status text.now result }
{
    match write_all(sink, text) {
        Ok(()) => status,
        Err(_) => 8,
    }
}

/// Does all that the program does over a source of an input, a sink for the text and the devices at the ports, and answers
/// the exit status. `words` are those after the program's own name.
pub fn lvdc<S: Source, K: Sink>(
    alloc: Global,
    words: &[String],
    source: &mut S,
    sink: &mut K,
    devices: &mut Vec<Box<dyn PortDevice>>,
) -> u8
    requires room { HasRoom (K.state sink.old).room (room_for (command_of (texts words.now))) }
    requires distinct { AreDistinct (map device_of devices.old.items) }

    // In every case the answer that is due is told, whole or cut by a failing write. No other status comes, and no more bytes of
    // the source are taken.
    ensures ends { IsEnd device_of faults (texts words.now)
        (outside (S.state source.old) (K.state sink.old) devices.old.items)
        (outside (S.state source.new) (K.state sink.new) devices.new.items) result }

    // The status of a reply is that of `reply` over the bytes that were read, and so are the text that was written and the devices.
    // Where the source or the sink tells nothing, there are such bytes and such a text.
    ensures replied { GivesReply device_of faults (texts words.now)
        (outside (S.state source.old) (K.state sink.old) devices.old.items)
        (outside (S.state source.new) (K.state sink.new) devices.new.items) result }

    // The headline: for a deck that `run` accepts, whatever the order of its copies, where nothing fails. As long as the script
    // stays admissible ports, registers, recoverable words and devices are those of the fault-free instruction table; the first
    // inadmissible step is named after that same run so far. The status says which it was.
    ensures headline { GivesHeadline device_of (texts words.now)
        (outside (S.state source.old) (K.state sink.old) devices.old.items)
        (outside (S.state source.new) (K.state sink.new) devices.new.items) result }

    // Where the bytes of the source are told, or the command reads none, and nothing fails: status, text and devices are those of the
    // definition.
    ensures answer { GivesAnswer device_of (texts words.now)
        (outside (S.state source.old) (K.state sink.old) devices.old.items)
        (outside (S.state source.new) (K.state sink.new) devices.new.items) result }

    // A refusal leaves the devices: they are the same objects as before.
    ensures kept { IsRefusal result → devices.new.items ≡ devices.old.items }

    // The source is not read where the words are no command or one that reads nothing; else it is read to its end, but for 7, 8,
    // 9 and 11.
    ensures unread { reads (command_of (texts words.now)) ≡ false → source.new ≡ source.old }
    ensures read { ReadsAll (texts words.now) (S.state source.new) result }

    // 1: exactly where the words are no command.
    ensures usage { UsageHasCause (texts words.now) (K.state sink.old) (K.state sink.new) result }

    // 5: exactly where the command judges the script, and finds a step that isn't admissible.
    ensures inadmissible { RunHasCause Judges IsInadmissible 5 (texts words.now) (S.state source.old) (map device_of devices.old.items) result }

    // 6: exactly where the command's run stops, which for a command that judges is one without such a step.
    ensures stopped { RunHasCause Stops IsStop 6 (texts words.now) (S.state source.old) (map device_of devices.old.items) result }

    // 7: only where the source's count rose, and always where it grew.
    ensures read_fault { ReadFaultHasCause (S.state source.old) (S.state source.new) (K.state sink.old) (K.state sink.new) result }

    // 8: only where the sink's count rose, and always where it grew. A front of the text that was due is written.
    ensures write_fault { WriteFaultHasCause device_of faults (texts words.now)
        (outside (S.state source.old) (K.state sink.old) devices.old.items)
        (outside (S.state source.new) (K.state sink.new) devices.new.items) result }

    // 9: free, but never where 1, 7 or 11 is due. Nothing is written. The devices are as before, or tapes were supplied in
    // part, or they are as after the run.
    ensures no_memory { result ≡ 9 → IsWanting device_of faults (texts words.now)
        (outside (S.state source.old) (K.state sink.old) devices.old.items)
        (outside (S.state source.new) (K.state sink.new) devices.new.items) }

    // 10: only where the count of the device that is named rose, in the exchange of the step that is named; and always where
    // the count of a device that is left grew, but for 8 and 9.
    ensures device_fault { DeviceFaultHasCause device_of faults (texts words.now)
        (outside (S.state source.old) (K.state sink.old) devices.old.items)
        (outside (S.state source.new) (K.state sink.new) devices.new.items) result }

    // 11: exactly where one byte more than the limit was taken.
    ensures too_long { TooLongHasCause (texts words.now) (S.state source.old) (S.state source.new) (K.state sink.old) (K.state sink.new) result }
{
    headline_told();
    statuses_caused();
    session_statuses();
    save_statuses();
    resume_statuses();
    let due = due_of(alloc, words, source, devices);
    tell(sink, due.status(), due.text())
}
