ghost use Rattle.std.specs.Prelude.{◌≡◌, ◌≢◌, ◌+◌, ◌-◌, ◌^◌, ◌<◌, ◌≤◌, ℕ, List, All, length, map, Ok, IfOk, OnOk, OnErr};
ghost use Rattle.lvdc_port.specs.Device.{Device};
ghost use Rattle.lvdc_port.specs.Devices.{AreDistinct};
ghost use Rattle.lvdc_model.specs.Trial.{Trial};
ghost use Rattle.lvdc_model.specs.Voted.{Voted};
ghost use Rattle.lvdc_machine.specs.Resumed.{state_from, StandsFrom};
ghost use Rattle.lvdc_machine.specs.View.{answer_of_end};
ghost use Rattle.lvdc_machine.specs.declared.mode.Mode.TheVariants.{Guarded};
ghost use Rattle.lvdc_lines.specs.Noted.{noted_size};
ghost use Rattle.lvdc_report.specs.Voted.{voted_text};
ghost use Rattle.lvdc_report.specs.declared.report.TheConstants.{LONGEST_REPORT};
ghost use Rattle.lvdc_report.specs.declared.title.Title.TheVariants.{Run};
ghost use Rattle.lvdc_reply.specs.Answer.{answer_with, refusal_text};
ghost use Rattle.lvdc_command_run.specs.Accounts.{end_status};
ghost use Rattle.lvdc_save.specs.Faults.{name_of, line_of};
ghost use Rattle.lvdc_save.specs.Reading.{saved_of};
ghost use Rattle.lvdc_save.specs.declared.saved.Saved.{Saved as SavedRun};
ghost use Rattle.lvdc_save.specs.declared.fault.SaveFault.TheVariants.{NoMemory as WantsMemory};
ghost use Rattle.lvdc_command_resume.specs.Answers.{device_text};
ghost use Rattle.lvdc_command_resume.specs.GoesOn.{GoesOn};
ghost use Rattle.lvdc_command_resume.specs.Reordered.{GoesOnReordered};
ghost use Rattle.lvdc_command_resume.specs.Replies.{IsResumed, IsResumeReply, IsUnreported, IsUnresumed};
ghost use Rattle.lvdc_command_resume.specs.Runs.{IsRunnable};

use crate::restore::Unrestored;
use crate::run::run_saved;
use lvdc_command_run::{guarded_is_answered, report_end};
use lvdc_laws_voted::judges_alone;
use lvdc_machine::{Machine, resumed_goes_on};
use lvdc_port::PortDevice;
use lvdc_reply::{Reply, refusal};
use lvdc_save::{SaveFault, Saved};
use lvdc_save_read::read_saved;
use lvdc_text::{Piece, put_line};
use lvdc_word::{NoMemory, Seq};
use std::alloc::Global;

/// The most bytes of a saved text that is read: 128 MiB.
pub const LIMIT: usize = 134_217_728;

/// No reply to a text within the limit has more bytes: 256 MiB.
pub const ROOM: usize = 268_435_456;

/// Reports a run, with the status of its end.
fn report(alloc: Global, machine: &Machine) -> Result<Reply, NoMemory>
    requires mode { machine.now.mode ≡ Guarded }
    ensures status { IfOk result (λ reply. reply.status ≡ end_status (answer_of_end machine.now.end)) }
    ensures text { IfOk result (λ reply. (o : Trial) (first : Voted) (n : ℕ) (ds : List Device) → StandsFrom o first n machine.now ds
        → reply.text ≡ voted_text Run o (state_from machine.now.end Guarded o first n)) }
    ensures short { IfOk result (λ reply. (o : Trial) (first : Voted) (n : ℕ) (ds : List Device) → StandsFrom o first n machine.now ds
        → All (λ repair. repair.step < first.steps) first.repairs → length reply.text < LONGEST_REPORT + noted_size first.log first.repairs) }
{
    report_end(alloc, machine)
}

/// The reply where the device at this port fails at a word of its state.
pub fn refuse_device(alloc: Global, port: u8) -> Result<Reply, NoMemory>
    ensures status { IfOk result (λ reply. reply.status ≡ 10) }
    ensures text { IfOk result (λ reply. reply.text ≡ device_text port) }
    ensures short { IfOk result (λ reply. length reply.text < LONGEST_REPORT) }
{
    let mut text = Vec::new(alloc);
    let port = Piece::Octal(u64::from(port), 3);
    put_line(&mut text, b"REFUSED Device", &[port])?;
    Ok(Reply {
        status: 10,
        text: Seq::from_vec(text),
    })
}

/// Goes on from a saved state up to its count, and reports the run.
fn resume(
    alloc: Global,
    saved: Saved,
    devices: &mut Vec<Box<dyn PortDevice>>,
) -> Result<Reply, NoMemory>
    requires runnable { IsRunnable saved }
    requires distinct { AreDistinct (map device_of devices.old.items) }
    ensures run { IfOk result (λ reply. IsResumed device_of faults saved devices.old.items devices.new.items
        (answer_with reply.status reply.text (map device_of devices.new.items))) }
    ensures unreported { OnErr result (IsUnreported device_of faults saved devices.old.items devices.new.items) }
    ensures goes_on { IfOk result (λ reply. GoesOn saved (map device_of devices.old.items)
        (answer_with reply.status reply.text (map device_of devices.new.items))) }
    ensures reordered { IfOk result (λ reply. GoesOnReordered saved (map device_of devices.old.items)
        (answer_with reply.status reply.text (map device_of devices.new.items))) }
    ensures short { IfOk result (λ reply. length reply.text < LONGEST_REPORT + noted_size saved.snapshot.log saved.snapshot.repairs) }
{
    resumed_goes_on();
    judges_alone();
    guarded_is_answered();
    match run_saved(alloc, saved, devices) {
        Ok(machine) => report(alloc, &machine),
        Err(Unrestored::NoMemory) => Err(NoMemory),
        Err(Unrestored::Failed(port)) => refuse_device(alloc, port),
    }
}

/// The reply to a refused text.
pub fn refuse_saved(alloc: Global, fault: SaveFault) -> Result<Reply, NoMemory>
    ensures refused { OnOk result (fault ≢ WantsMemory) }
    ensures status { IfOk result (λ reply. reply.status ≡ 2) }
    ensures text { IfOk result (λ reply. reply.text ≡ refusal_text (name_of fault) (line_of fault)) }
    ensures short { IfOk result (λ reply. length reply.text < LONGEST_REPORT) }
{
    match fault {
        SaveFault::NoMemory => Err(NoMemory),
        fault => refusal(alloc, 2, fault.name(), fault.line()),
    }
}

/// The reply to a saved text over the devices at the ports. They are given the states that the text names behind what they hold, so
/// that they are those of the saved run where each is in its kind's first state.
pub fn resume_bytes(
    alloc: Global,
    bytes: &[u8],
    devices: &mut Vec<Box<dyn PortDevice>>,
) -> Result<Reply, NoMemory>
    requires few { length bytes.now < 2 ^ 32 - 1 }
    requires distinct { AreDistinct (map device_of devices.old.items) }

    // Status, text and devices are those of the definition, or those of the run up to the exchange in which a device failed, or a device
    // failed at a word of its state.
    ensures reply { IfOk result (λ reply. IsResumeReply device_of faults bytes.now devices.old.items devices.new.items
        (answer_with reply.status reply.text (map device_of devices.new.items))) }

    // A state of a run goes on as that run does.
    ensures goes_on { IfOk result (λ reply. (s : SavedRun) → saved_of (map device_of devices.old.items) bytes.now ≡ Ok s
        → GoesOn s (map device_of devices.old.items) (answer_with reply.status reply.text (map device_of devices.new.items))) }

    // The same where the devices stand in another order than in that run: it leaves the same devices in some order.
    ensures reordered { IfOk result (λ reply. (s : SavedRun) → saved_of (map device_of devices.old.items) bytes.now ≡ Ok s
        → GoesOnReordered s (map device_of devices.old.items) (answer_with reply.status reply.text (map device_of devices.new.items))) }

    // The devices are as before, or unplugged and restored in part, or they are as after the run.
    ensures unanswered { OnErr result (IsUnresumed device_of faults bytes.now devices.old.items devices.new.items) }

    // The lines of the saved log and repairs are as long in the report as in the saved text.
    ensures room { IfOk result (λ reply. length bytes.now ≤ LIMIT → length reply.text ≤ ROOM) }
{
    match read_saved(alloc, bytes, devices) {
        Ok(saved) => {
            let reply = resume(alloc, saved, devices)?;
            Ok(reply)
        }
        Err(fault) => {
            let reply = refuse_saved(alloc, fault)?;
            Ok(reply)
        }
    }
}
