ghost use Rattle.std.specs.Prelude.{◌≡◌, ◌-◌, ◌^◌, ◌<◌, ◌≤◌, length, map, true, false, Ok, OnErr, IfOk};
ghost use Rattle.lvdc_port.specs.Devices.{AreDistinct};
ghost use Rattle.lvdc_reply.specs.Answer.{answer_with};
ghost use Rattle.lvdc_deck.specs.Deck.{deck_of};
ghost use Rattle.lvdc_deck.specs.declared.deck.Deck.{Deck};
ghost use Rattle.lvdc_command_run.specs.Trials.{trial_of, IsRunnable};
ghost use Rattle.lvdc_save.specs.Reading.{saved_of};
ghost use Rattle.lvdc_save.specs.declared.saved.Saved.{Saved as SavedRun};
ghost use Rattle.lvdc_trace.specs.Answers.{takes_saved};
ghost use Rattle.lvdc_trace.specs.Plainly.{TellsPlainly};
ghost use Rattle.lvdc_trace.specs.Replies.{IsDeckTraced, IsTraceReply, TracesOn, IsUntold, IsUnanswered};

use crate::saved::{takes_saved, trace_saved_text};
use crate::{Window, trace, trace_is_plain};
use lvdc_command_run::{Ready, end_status, make_ready, refuse};
use lvdc_deck::{Deck, read_deck};
use lvdc_machine::Mode;
use lvdc_port::PortDevice;
use lvdc_reply::Reply;
use lvdc_report::LONGEST_REPORT;
use lvdc_word::{NoMemory, Seq};
use std::alloc::Global;

/// The reply to a deck: the trace of its run.
fn trace_deck(
    alloc: Global,
    mode: Mode,
    window: Window,
    deck: Deck,
    devices: &mut Vec<Box<dyn PortDevice>>,
) -> Result<Reply, NoMemory>
    requires runnable { IsRunnable deck }
    requires first { window.first ≤ Window.LAST }
    requires count { window.count ≤ Window.MOST }
    requires distinct { AreDistinct (map device_of devices.old.items) }
    ensures traced { IfOk result (λ reply. IsDeckTraced device_of faults mode window deck devices.old.items devices.new.items
        (answer_with reply.status reply.text (map device_of devices.new.items))) }
    ensures plain { IfOk result (λ reply. TellsPlainly (trial_of (map device_of devices.old.items) deck)) }
    ensures untold { OnErr result (IsUntold device_of faults mode window deck devices.old.items devices.new.items) }
    ensures room { IfOk result (λ reply. length reply.text ≤ LONGEST_REPORT) }
{
    trace_is_plain();
    let Ready {
        mut machine,
        orders,
        ..
    } = make_ready(alloc, mode, deck, devices)?;
    let text = trace(alloc, &mut machine, &orders, window, devices)?;
    Ok(Reply {
        status: end_status(&machine.outcome()),
        text: Seq::from_vec(text),
    })
}

/// The reply to bytes that are no saved text: those of a deck, or of none.
fn trace_deck_text(
    alloc: Global,
    mode: Mode,
    window: Window,
    bytes: &[u8],
    devices: &mut Vec<Box<dyn PortDevice>>,
) -> Result<Reply, NoMemory>
    requires no_save { takes_saved mode bytes.now ≡ false }
    requires few { length bytes.now < 2 ^ 32 - 1 }
    requires first { window.first ≤ Window.LAST }
    requires count { window.count ≤ Window.MOST }
    requires distinct { AreDistinct (map device_of devices.old.items) }
    ensures reply { IfOk result (λ reply. IsTraceReply device_of faults mode window bytes.now devices.old.items devices.new.items
        (answer_with reply.status reply.text (map device_of devices.new.items))) }
    ensures plain { IfOk result (λ reply. (deck : Deck) → deck_of bytes.now (map device_of devices.old.items) false ≡ Ok deck
        → TellsPlainly (trial_of (map device_of devices.old.items) deck)) }
    ensures unanswered { OnErr result (IsUnanswered device_of faults mode window bytes.now devices.old.items devices.new.items) }
    ensures room { IfOk result (λ reply. length reply.text ≤ LONGEST_REPORT) }
{
    match read_deck(alloc, bytes, devices, false) {
        Ok(deck) => {
            let reply = trace_deck(alloc, mode, window, deck, devices)?;
            Ok(reply)
        }
        Err(fault) => {
            let reply = refuse(alloc, fault)?;
            Ok(reply)
        }
    }
}

/// The reply to a trace over these bytes and the devices at the ports. The steps of the window are told as far as they are made: of the
/// run of a deck, or of the run that goes on from a saved text.
pub fn trace_bytes(
    alloc: Global,
    mode: Mode,
    window: Window,
    bytes: &[u8],
    devices: &mut Vec<Box<dyn PortDevice>>,
) -> Result<Reply, NoMemory>
    requires few { length bytes.now < 2 ^ 32 - 1 }
    requires first { window.first ≤ Window.LAST }
    requires count { window.count ≤ Window.MOST }
    requires distinct { AreDistinct (map device_of devices.old.items) }

    // Status, text and devices are those of the definition, or those of the run up to the exchange in which a device failed, or a device
    // failed at a word of its state.
    ensures reply { IfOk result (λ reply. IsTraceReply device_of faults mode window bytes.now devices.old.items devices.new.items
        (answer_with reply.status reply.text (map device_of devices.new.items))) }

    // In a guarded trace of a deck the FETCH, OPERAND and STORE lines of an instruction time are what the plain run fetches, reads and
    // stores in that time, and the votes after its last step are the plain run's registers.
    ensures plain { IfOk result (λ reply. (deck : Deck) → deck_of bytes.now (map device_of devices.old.items) false ≡ Ok deck
        → TellsPlainly (trial_of (map device_of devices.old.items) deck)) }

    // Where the saved state is one of a trial's run, and the window doesn't begin before it, the trace is that of the trial's run.
    ensures goes_on { IfOk result (λ reply. (s : SavedRun) → takes_saved mode bytes.now ≡ true → saved_of (map device_of devices.old.items) bytes.now ≡ Ok s
        → TracesOn mode window s (map device_of devices.old.items) (answer_with reply.status reply.text (map device_of devices.new.items))) }

    // The devices are as before, or tapes were supplied in part, or devices were restored in part, or they are as after some steps of the
    // run.
    ensures unanswered { OnErr result (IsUnanswered device_of faults mode window bytes.now devices.old.items devices.new.items) }
    ensures room { IfOk result (λ reply. length reply.text ≤ LONGEST_REPORT) }
{
    let saved = takes_saved(alloc, mode, bytes)?;
    if saved {
        trace_saved_text(alloc, mode, window, bytes, devices)
    } else {
        trace_deck_text(alloc, mode, window, bytes, devices)
    }
}
