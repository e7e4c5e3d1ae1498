//! A whole session.

ghost use Rattle.std.specs.Prelude.{◌≡◌, ◌+◌, ◌*◌, ◌-◌, ◌^◌, ◌<◌, ◌≤◌, ◌++◌, length, map, All, IfOk, OnOk, OnErr};
ghost use Rattle.lvdc_port.specs.Devices.{AreDistinct, count_at};
ghost use Rattle.lvdc_plain.specs.Lists.{AreFit};
ghost use Rattle.lvdc_plain.specs.Run.{IsOpening};
ghost use Rattle.lvdc_machine.specs.Calls.{IsFresh};
ghost use Rattle.lvdc_text.specs.Lines.{IsWithin};
ghost use Rattle.lvdc_model.specs.Trial.{Trial};
ghost use Rattle.lvdc_machine.specs.Room.{exchanges_to_come};
ghost use Rattle.lvdc_machine.specs.Stands.{Stands};
ghost use Rattle.lvdc_machine.specs.declared.mode.Mode.TheVariants.{Guarded};
ghost use Rattle.lvdc_debug.specs.Session.{Subject, after_line, entry, session_text};
ghost use Rattle.lvdc_debug.specs.Standing.{command_texts, AtStart, AreApart, CausedSince, IsReady, Moves, IsSubject, subject_of, StandsAfter, StandsAmid};

use crate::course::Course;
use crate::echo::put_echo;
use crate::parse::parse_command;
use crate::texts::put_answer;
use lvdc_laws_voted::judges_alone;
use lvdc_machine::{Machine, Orders};
use lvdc_port::PortDevice;
use lvdc_text::{Line, part};
use lvdc_word::NoMemory;
use std::alloc::Global;

/// No session over commands of 1 MiB has more bytes: 512 MiB.
pub const LONGEST_SESSION: usize = 536_870_912;

impl Course {
    /// Carries out what a line asks for, and adds the line and its answer. After a want of memory it was carried out too.
    fn take_line(
        &mut self,
        text: &[u8],
        machine: &mut Machine,
        orders: &Orders,
        devices: &mut Vec<Box<dyn PortDevice>>,
        out: &mut Vec<u8>,
    ) -> Result<(), NoMemory>
        requires size { length text.now < 2 ^ 32 - 1 }
        requires ready { IsReady device_of spare self.old.asked machine.old.limit machine.old devices.old.items }
        ensures moves { Moves device_of faults self.old.asked self.new.asked machine.old machine.new devices.old.items devices.new.items }
        ensures ready { IsReady device_of spare self.new.asked machine.old.limit machine.new devices.new.items }
        ensures went { (o : Trial) (s : Subject) → IsOpening o.opening → Stands o (3 * self.old.asked) machine.old (map device_of devices.old.items)
            → IsSubject o machine.new self.new.asked s → self.new ≡ after_line s self.old text.now }
        ensures text { OnOk result ((o : Trial) (s : Subject) → IsOpening o.opening
            → Stands o (3 * self.old.asked) machine.old (map device_of devices.old.items)
            → IsSubject o machine.new self.new.asked s → out.new.items ≡ out.old.items ++ entry s self.old text.now) }
        ensures short { OnOk result (length out.new.items ≤ length out.old.items + 500 * (length text.now + 1)) }
    {
        judges_alone();
        match parse_command(text) {
            Ok(command) => {
                let all = self.carry_out(&command, machine, orders, devices);
                put_echo(out, text)?;
                put_answer(out, machine, &command, all, &self.breaks)?;
            }
            Err(_) => {
                put_echo(out, text)?;
                out.extend_from_slice(b"BAD COMMAND\n")?;
            }
        }
        Ok(())
    }
}

/// The text of the session of these commands, each a line of the bytes, over the run of a guarded machine that has not begun.
/// Each line ends with LF.
pub fn debug(
    alloc: Global,
    machine: &mut Machine,
    orders: &Orders,
    bytes: &[u8],
    commands: &[Line],
    limit: u64,
    devices: &mut Vec<Box<dyn PortDevice>>,
) -> Result<Vec<u8>, NoMemory>
    requires fresh { IsFresh Guarded machine.old.pace limit 0 machine.old }
    requires size { length bytes.now < 2 ^ 32 - 1 }
    requires within { All (IsWithin bytes.now) commands.now }
    requires fit { AreFit device_of spare (exchanges_to_come machine.old) devices.old.items }

    // The session of the definition, over the run of each trial at whose start the machine stood. Where a device fails, it is that
    // of the run in which this device fails in this exchange.
    ensures text { IfOk result (λ text. (o : Trial) → AtStart o machine.old (map device_of devices.old.items)
        → text.items ≡ session_text (subject_of o machine.new) (command_texts bytes.now commands.now)) }

    // The run has gone on by the times that the commands ask for.
    ensures stands { OnOk result ((o : Trial) → AtStart o machine.old (map device_of devices.old.items)
        → StandsAfter o (command_texts bytes.now commands.now) machine.new (map device_of devices.new.items)) }

    // After a want of memory it has gone on by the times for which the first so many ask.
    ensures amid { OnErr result ((o : Trial) → AtStart o machine.old (map device_of devices.old.items)
        → StandsAmid o (command_texts bytes.now commands.now) machine.new (map device_of devices.new.items)) }

    // A failed device has failed in this call, and no other that is left has; every other end, or none, comes only where no device
    // that is left has failed.
    ensures cause { CausedSince device_of faults (λ port. count_at device_of faults port devices.old.items) machine.new.end devices.new.items }
    ensures distinct { AreDistinct (map device_of devices.new.items) }
    ensures mode { machine.new.mode ≡ Guarded }
    ensures limit { machine.new.limit ≡ limit }

    // Commands of at most 1 MiB, one after the other, have an answer within this length.
    ensures size { IfOk result (λ text. AreApart commands.now → length bytes.now ≤ 1048576 → length text.items ≤ LONGEST_SESSION) }
{
    judges_alone();
    let mut out = Vec::new(alloc);
    out.extend_from_slice(b"LVDC DEBUG\n")?;
    let mut course = Course::new();
    for line in commands {
        course.take_line(part(bytes, line), machine, orders, devices, &mut out)?;
    }
    Ok(out)
}
