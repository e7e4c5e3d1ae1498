//! The trace of the run that goes on from a saved text.

ghost use Rattle.std.specs.Prelude.{◌≡◌, ◌-◌, ◌^◌, ◌<◌, ◌≤◌, true, All, codes, length, map, Ok, OnErr, IfOk};
ghost use Rattle.std.specs.Str.{bytes_eq};
ghost use Rattle.lvdc_text.specs.Lines.{IsWithin, part_of};
ghost use Rattle.lvdc_port.specs.Devices.{AreDistinct};
ghost use Rattle.lvdc_machine.specs.declared.mode.Mode.TheVariants.{Guarded};
ghost use Rattle.lvdc_reply.specs.Answer.{answer_with};
ghost use Rattle.lvdc_save.specs.Reading.{saved_of};
ghost use Rattle.lvdc_save.specs.declared.saved.Saved.{Saved as SavedRun};
ghost use Rattle.lvdc_command_resume.specs.Runs.{IsRunnable};
ghost use Rattle.lvdc_trace.specs.Answers.{begins_saved, is_saved, takes_saved};
ghost use Rattle.lvdc_trace.specs.Replies.{IsSavedTraced, IsTraceReply, TracesOn, IsUnsaved, IsUnanswered};

use crate::{Window, trace};
use lvdc_command_resume::{Opened, Unrestored, open_saved, refuse_device, refuse_saved};
use lvdc_command_run::end_status;
use lvdc_machine::{Mode, resumed_goes_on};
use lvdc_port::PortDevice;
use lvdc_reply::Reply;
use lvdc_report::LONGEST_REPORT;
use lvdc_save::Saved;
use lvdc_save_read::read_saved;
use lvdc_text::{Line, lines, part};
use lvdc_word::{NoMemory, Seq};
use std::alloc::Global;

/// Is the text the title of a saved text?
fn is_title(text: &[u8]) -> bool
    ensures { result ≡ bytes_eq text.now (codes "LVDC SAVE 1") }
{
    text == b"LVDC SAVE 1".as_slice()
}

/// Is the first of these lines of the bytes that title?
fn begins_with_title(bytes: &[u8], lines: &[Line]) -> bool
    requires { All (IsWithin bytes.now) lines.now }
    ensures { result ≡ begins_saved (map (part_of bytes.now) lines.now) }
{
    match lines.first() {
        Some(line) => is_title(part(bytes, line)),
        None => false,
    }
}

/// Are the bytes a saved text, by their first line?
fn is_saved(alloc: Global, bytes: &[u8]) -> Result<bool, NoMemory>
    requires { length bytes.now < 2 ^ 32 - 1 }
    ensures { IfOk result (λ saved. saved ≡ is_saved bytes.now) }
{
    let found = lines(alloc, bytes)?;
    Ok(begins_with_title(bytes, &found))
}

/// Are the bytes a saved text for a trace of this mode?
pub(crate) fn takes_saved(alloc: Global, mode: Mode, bytes: &[u8]) -> Result<bool, NoMemory>
    requires { length bytes.now < 2 ^ 32 - 1 }
    ensures { IfOk result (λ saved. saved ≡ takes_saved mode bytes.now) }
{
    match mode {
        Mode::Guarded => is_saved(alloc, bytes),
        Mode::Through => Ok(false),
    }
}

/// The reply to a saved state: the trace of the run that goes on from it.
fn trace_saved(
    alloc: Global,
    mode: Mode,
    window: Window,
    saved: Saved,
    devices: &mut Vec<Box<dyn PortDevice>>,
) -> Result<Reply, NoMemory>
    requires guarded { mode ≡ Guarded }
    requires runnable { IsRunnable saved }
    requires first { window.first ≤ Window.LAST }
    requires count { window.count ≤ Window.MOST }
    requires distinct { AreDistinct (map device_of devices.old.items) }
    ensures traced { IfOk result (λ reply. IsSavedTraced device_of faults mode window saved devices.old.items devices.new.items
        (answer_with reply.status reply.text (map device_of devices.new.items))) }
    ensures goes_on { IfOk result (λ reply. TracesOn mode window saved (map device_of devices.old.items)
        (answer_with reply.status reply.text (map device_of devices.new.items))) }
    ensures unsaved { OnErr result (IsUnsaved device_of faults mode window saved devices.old.items devices.new.items) }
    ensures room { IfOk result (λ reply. length reply.text ≤ LONGEST_REPORT) }
{
    resumed_goes_on();
    let window = window.after(saved.snapshot.steps);
    match open_saved(alloc, saved, devices) {
        Ok(opened) => {
            let Opened {
                mut machine,
                orders,
            } = opened;
            let text = trace(alloc, &mut machine, &orders, window, devices)?;
            Ok(Reply {
                status: end_status(&machine.outcome()),
                text: Seq::from_vec(text),
            })
        }
        Err(Unrestored::NoMemory) => Err(NoMemory),
        Err(Unrestored::Failed(port)) => refuse_device(alloc, port),
    }
}

/// The reply to bytes that are a saved text.
pub(crate) fn trace_saved_text(
    alloc: Global,
    mode: Mode,
    window: Window,
    bytes: &[u8],
    devices: &mut Vec<Box<dyn PortDevice>>,
) -> Result<Reply, NoMemory>
    requires save { takes_saved mode bytes.now ≡ true }
    requires few { length bytes.now < 2 ^ 32 - 1 }
    requires first { window.first ≤ Window.LAST }
    requires count { window.count ≤ Window.MOST }
    requires distinct { AreDistinct (map device_of devices.old.items) }
    ensures reply { IfOk result (λ reply. IsTraceReply device_of faults mode window bytes.now devices.old.items devices.new.items
        (answer_with reply.status reply.text (map device_of devices.new.items))) }
    ensures goes_on { IfOk result (λ reply. (s : SavedRun) → saved_of (map device_of devices.old.items) bytes.now ≡ Ok s
        → TracesOn mode window s (map device_of devices.old.items) (answer_with reply.status reply.text (map device_of devices.new.items))) }
    ensures unanswered { OnErr result (IsUnanswered device_of faults mode window bytes.now devices.old.items devices.new.items) }
    ensures room { IfOk result (λ reply. length reply.text ≤ LONGEST_REPORT) }
{
    match read_saved(alloc, bytes, devices) {
        Ok(saved) => {
            let reply = trace_saved(alloc, mode, window, saved, devices)?;
            Ok(reply)
        }
        Err(fault) => {
            let reply = refuse_saved(alloc, fault)?;
            Ok(reply)
        }
    }
}
