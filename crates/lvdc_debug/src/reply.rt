ghost use Rattle.std.specs.Prelude.{◌≡◌, ◌-◌, ◌^◌, ◌<◌, ◌≤◌, length, map, All, OnErr, IfOk};
ghost use Rattle.lvdc_port.specs.Devices.{AreDistinct};
ghost use Rattle.lvdc_text.specs.Lines.{IsWithin};
ghost use Rattle.lvdc_reply.specs.Answer.{answer_with};
ghost use Rattle.lvdc_command_run.specs.Trials.{IsRunnable};
ghost use Rattle.lvdc_debug.specs.Standing.{AreApart};
ghost use Rattle.lvdc_debug.specs.Replies.{IsSession, IsSessionReply, IsUnwritten, IsUnanswered};

use crate::{LONGEST_SESSION, debug};
use lvdc_command_run::{Ready, end_status, make_ready, refuse};
use lvdc_deck::{Deck, commands_are_apart, read_deck};
use lvdc_laws_runs::{failed_exchange, guarded_follows};
use lvdc_machine::Mode;
use lvdc_port::PortDevice;
use lvdc_reply::Reply;
use lvdc_word::{NoMemory, Seq};
use std::alloc::Global;

/// The reply to a deck: its session over the guarded run. The laws of guarded runs are cited here alone.
fn debug_deck(
    alloc: Global,
    bytes: &[u8],
    deck: Deck,
    devices: &mut Vec<Box<dyn PortDevice>>,
) -> Result<Reply, NoMemory>
    requires runnable { IsRunnable deck }
    requires few { length bytes.now < 2 ^ 32 - 1 }
    requires within { All (IsWithin bytes.now) deck.commands }
    requires distinct { AreDistinct (map device_of devices.old.items) }
    ensures session { IfOk result (λ reply. IsSession device_of faults bytes.now deck devices.old.items devices.new.items
        (answer_with reply.status reply.text (map device_of devices.new.items))) }
    ensures unwritten { OnErr result (IsUnwritten device_of faults bytes.now deck devices.old.items devices.new.items) }
    ensures room { IfOk result (λ reply. AreApart deck.commands → length bytes.now ≤ 1048576 → length reply.text ≤ LONGEST_SESSION) }
{
    guarded_follows();
    failed_exchange();
    lvdc_laws_voted::judges_alone();
    lvdc_laws_voted::guarded_verdict();
    lvdc_laws_voted::guarded_ends();
    let Ready {
        mut machine,
        orders,
        commands,
    } = make_ready(alloc, Mode::Guarded, deck, devices)?;
    let limit = machine.limit();
    let text = debug(
        alloc,
        &mut machine,
        &orders,
        bytes,
        commands.items(),
        limit,
        devices,
    )?;
    Ok(Reply {
        status: end_status(&machine.outcome()),
        text: Seq::from_vec(text),
    })
}

/// The reply to a debugging session over these bytes and the devices at the ports.
pub fn debug_bytes(
    alloc: Global,
    bytes: &[u8],
    devices: &mut Vec<Box<dyn PortDevice>>,
) -> Result<Reply, NoMemory>
    requires few { length bytes.now < 2 ^ 32 - 1 }
    requires distinct { AreDistinct (map device_of devices.old.items) }

    // Status, text and devices are those of the definition, or those of the session in which a device failed in an exchange.
    ensures reply { IfOk result (λ reply. IsSessionReply device_of faults bytes.now devices.old.items devices.new.items
        (answer_with reply.status reply.text (map device_of devices.new.items))) }

    // The devices are as before, or tapes were supplied in part, or they are as after the first so many commands.
    ensures unanswered { OnErr result (IsUnanswered device_of faults bytes.now devices.old.items devices.new.items) }

    ensures room { IfOk result (λ reply. length bytes.now ≤ 1048576 → length reply.text ≤ LONGEST_SESSION) }
{
    commands_are_apart();
    match read_deck(alloc, bytes, devices, true) {
        Ok(deck) => {
            let reply = debug_deck(alloc, bytes, deck, devices)?;
            Ok(reply)
        }
        Err(fault) => {
            let reply = refuse(alloc, fault)?;
            Ok(reply)
        }
    }
}
