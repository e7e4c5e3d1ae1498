ghost use Rattle.std.specs.Prelude.{◌≤◌, length, map, OnErr, IfOk};
ghost use Rattle.lvdc_port.specs.Devices.{AreDistinct};
ghost use Rattle.lvdc_command_run.specs.Runs.{Judges, Stops, IsStop};
ghost use Rattle.lvdc_command_resume.specs.Statuses.{IsInadmissible};
ghost use Rattle.lvdc_cli.specs.Words.{limit_of};
ghost use Rattle.lvdc_cli.specs.Commands.{IsLeftUnanswered, room_of};
ghost use Rattle.lvdc_cli.specs.Replies.{IsReplyOf, IsAnswerOf, IsHeadlineOf, HoldsOf, ReplyHasCause, KeepsDevices};

use crate::command::Command;
use crate::resume_saved;
use lvdc_command_asm::{assemble_bytes, expand_bytes};
use lvdc_command_campaign::campaign_bytes;
use lvdc_command_resume::resume_statuses;
use lvdc_command_run::{Job, headline_told, run_job, statuses_caused};
use lvdc_command_save::{save_bytes, save_statuses};
use lvdc_debug::{debug_bytes, session_statuses};
use lvdc_port::PortDevice;
use lvdc_reply::Reply;
use lvdc_uplink::patch_bytes;
use lvdc_word::NoMemory;
use std::alloc::Global;

/// The reply of the crate that the command belongs to: one arm for each command.
fn join(
    alloc: Global,
    command: Command,
    bytes: &[u8],
    devices: &mut Vec<Box<dyn PortDevice>>,
) -> Result<Reply, NoMemory>
    requires few { length bytes.now ≤ limit_of command }
    requires distinct { AreDistinct (map device_of devices.old.items) }
    ensures reply { IfOk result (IsReplyOf device_of faults command bytes.now devices.old.items devices.new.items) }
    ensures unanswered { OnErr result (IsLeftUnanswered device_of faults command bytes.now devices.old.items devices.new.items) }
    ensures room { IfOk result (λ reply. length reply.text ≤ room_of command) }
    ensures holds { IfOk result (HoldsOf device_of command bytes.now devices.old.items devices.new.items) }
{
    match command {
        Command::Run(engine) => run_job(alloc, Job::Deck(engine), bytes, devices),
        Command::Soak(number) => run_job(alloc, Job::Soak(number), bytes, devices),
        Command::Assemble(product) => assemble_bytes(alloc, product, bytes),
        Command::Debug => debug_bytes(alloc, bytes, devices),
        Command::Save(times) => save_bytes(alloc, times, bytes, devices),
        Command::Resume => resume_saved(alloc, bytes, devices),
        Command::Campaign => campaign_bytes(alloc, bytes, devices),
        Command::Uplink => patch_bytes(alloc, bytes),
        Command::Expand(form) => expand_bytes(alloc, form, bytes),
    }
}

/// What a command answers over the bytes that were read for it, none where it reads nothing, and over the devices at the ports.
/// It is all that the program does between reading and writing, and no part of its promise rests on what a source or a sink
/// tells.
pub fn reply(
    alloc: Global,
    command: Command,
    bytes: &[u8],
    devices: &mut Vec<Box<dyn PortDevice>>,
) -> Result<Reply, NoMemory>
    requires few { length bytes.now ≤ limit_of command }
    requires distinct { AreDistinct (map device_of devices.old.items) }

    // Where no device fails status, text and devices are those of the definition.
    ensures answer { IfOk result (IsAnswerOf device_of command bytes.now devices.old.items devices.new.items) }

    // The headline: for a deck that `run` accepts, whatever the order of its copies, where no device fails. As long as the script
    // stays admissible ports, registers, recoverable words and devices are those of the fault-free instruction table; the first
    // inadmissible step is named after that same run so far. The status says which it was.
    ensures headline { IfOk result (IsHeadlineOf device_of command bytes.now devices.old.items devices.new.items) }

    // 5: where no device fails exactly where the command judges the script, and finds a step that isn't admissible.
    ensures inadmissible { IfOk result (ReplyHasCause Judges IsInadmissible 5 command bytes.now (map device_of devices.old.items)) }

    // 6: where no device fails exactly where the command's run stops, which for a command that judges is one without such a step.
    ensures stopped { IfOk result (ReplyHasCause Stops IsStop 6 command bytes.now (map device_of devices.old.items)) }

    // A refusal leaves the devices: they are the same objects as before. No count grows but where a device fails.
    ensures kept { IfOk result (KeepsDevices device_of faults devices.old.items devices.new.items) }

    // In every case: no other status comes; and 10 only where the count of the device that is named rose, in the exchange of the
    // step that is named, and that of no other that is left.
    ensures reply { IfOk result (IsReplyOf device_of faults command bytes.now devices.old.items devices.new.items) }

    // Want of memory is free. The devices are as before, or tapes were supplied in part, or they are as after the run.
    ensures unanswered { OnErr result (IsLeftUnanswered device_of faults command bytes.now devices.old.items devices.new.items) }
    ensures room { IfOk result (λ reply. length reply.text ≤ room_of command) }

    // Of a campaign each row whose script is admissible comes to the same. From what is saved the run can go on; and resumed, over
    // devices in their first states, it comes to what `run` comes to.
    ensures holds { IfOk result (HoldsOf device_of command bytes.now devices.old.items devices.new.items) }
{
    headline_told();
    statuses_caused();
    session_statuses();
    save_statuses();
    resume_statuses();
    join(alloc, command, bytes, devices)
}
