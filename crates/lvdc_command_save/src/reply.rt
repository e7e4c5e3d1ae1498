ghost use Rattle.std.specs.Prelude.{◌≡◌, ◌≢◌, ◌-◌, ◌^◌, ◌<◌, ◌≤◌, length, map, Ok, Err, OnErr, IfOk, IfErr};
ghost use Rattle.lvdc_port.specs.Devices.{AreDistinct};
ghost use Rattle.lvdc_deck.specs.declared.fault.DeckFault.TheVariants.{NoMemory as WantsMemory};
ghost use Rattle.lvdc_reply.specs.Answer.{answer_with};
ghost use Rattle.lvdc_command_run.specs.Trials.{IsRunnable};
ghost use Rattle.lvdc_save.specs.declared.TheConstants.{LONGEST_SAVED};
ghost use Rattle.lvdc_command_save.specs.Answers.{deck_for};
ghost use Rattle.lvdc_command_save.specs.Halves.{IsSavedRun, IsSaveOf};
ghost use Rattle.lvdc_command_save.specs.Replies.{IsStop, IsAnswered, IsSaveReply, IsUnwritten, IsUnanswered};

use crate::runs::run_times;
use crate::saving::reply_saved;
use lvdc_command_run::{Ready, refuse, report_end};
use lvdc_deck::{Deck, DeckFault, read_deck};
use lvdc_port::PortDevice;
use lvdc_reply::Reply;
use lvdc_save::LONGEST_SAVED;
use lvdc_word::NoMemory;
use std::alloc::Global;

/// Runs a deck for so many times. The text is what the run then is, or the report of the end that it has come to.
fn save_deck(
    alloc: Global,
    times: u64,
    deck: Deck,
    devices: &mut Vec<Box<dyn PortDevice>>,
) -> Result<Reply, NoMemory>
    requires runnable { IsRunnable deck }
    requires within { times ≤ deck.count }
    requires distinct { AreDistinct (map device_of devices.old.items) }
    ensures stop { IfOk result (λ reply. IsStop device_of faults times deck devices.old.items devices.new.items
        (answer_with reply.status reply.text (map device_of devices.new.items))) }
    ensures saved { IfOk result (λ reply. reply.status ≡ 0 → IsSavedRun times deck (map device_of devices.old.items) reply.text) }
    ensures unwritten { OnErr result (IsUnwritten device_of faults times deck devices.old.items devices.new.items) }
{
    lvdc_laws_voted::judges_alone();
    let Ready {
        machine,
        orders,
        ..
    } = run_times(alloc, times, deck, devices)?;
    match machine.ended() {
        None => reply_saved(alloc, &machine, orders, devices),
        Some(_end) => report_end(alloc, &machine),
    }
}

/// Reads a deck that asks for at least so many times.
fn read_deck_for(
    alloc: Global,
    times: u64,
    bytes: &[u8],
    devices: &Vec<Box<dyn PortDevice>>,
) -> Result<Deck, DeckFault>
    requires { length bytes.now < 2 ^ 32 - 1 }
    ensures deck { IfOk result (λ deck. deck_for times bytes.now (map device_of devices.now.items) ≡ Ok deck) }
    ensures refusal { IfErr result (λ fault. fault ≢ WantsMemory → deck_for times bytes.now (map device_of devices.now.items) ≡ Err fault) }
    ensures runnable { IfOk result IsRunnable }
    ensures within { IfOk result (λ deck. times ≤ deck.count) }
{
    match read_deck(alloc, bytes, devices, false) {
        Ok(deck) => {
            if deck.count < times {
                return Err(DeckFault::CountTooLarge(deck.run_line));
            }
            Ok(deck)
        }
        Err(fault) => Err(fault),
    }
}

/// Reads a deck and saves its run, or refuses it.
fn save_or_refuse(
    alloc: Global,
    times: u64,
    bytes: &[u8],
    devices: &mut Vec<Box<dyn PortDevice>>,
) -> Result<Reply, NoMemory>
    requires few { length bytes.now < 2 ^ 32 - 1 }
    requires distinct { AreDistinct (map device_of devices.old.items) }
    ensures reply { IfOk result (λ reply. IsAnswered device_of faults times bytes.now devices.old.items devices.new.items
        (answer_with reply.status reply.text (map device_of devices.new.items))) }
    ensures halves { IfOk result (λ reply. reply.status ≡ 0 → IsSaveOf times bytes.now (map device_of devices.old.items) reply.text) }
    ensures unanswered { OnErr result (IsUnanswered device_of faults times bytes.now devices.old.items devices.new.items) }
{
    match read_deck_for(alloc, times, bytes, devices) {
        Ok(deck) => {
            let reply = save_deck(alloc, times, deck, devices)?;
            Ok(reply)
        }
        Err(fault) => {
            let reply = refuse(alloc, fault)?;
            Ok(reply)
        }
    }
}

/// The reply to a number of instruction times over these bytes, which mean a deck, and the devices at the ports.
pub fn save_bytes(
    alloc: Global,
    number: u64,
    bytes: &[u8],
    devices: &mut Vec<Box<dyn PortDevice>>,
) -> Result<Reply, NoMemory>
    requires few { length bytes.now < 2 ^ 32 - 1 }
    requires distinct { AreDistinct (map device_of devices.old.items) }

    // Status, text and devices are those of the definition, or those of the run up to the exchange in which a device failed.
    ensures reply { IfOk result (λ reply. IsSaveReply device_of faults number bytes.now devices.old.items devices.new.items
        (answer_with reply.status reply.text (map device_of devices.new.items))) }

    // A run can go on from what was saved.
    ensures halves { IfOk result (λ reply. reply.status ≡ 0 → IsSaveOf number bytes.now (map device_of devices.old.items) reply.text) }

    // The devices are as before, or tapes were supplied in part, or they are as after the times that were made.
    ensures unanswered { OnErr result (IsUnanswered device_of faults number bytes.now devices.old.items devices.new.items) }

    // A longer text is answered as one for which there was no memory, so that each can be resumed.
    ensures room { IfOk result (λ reply. length reply.text ≤ LONGEST_SAVED) }
{
    let reply = save_or_refuse(alloc, number, bytes, devices)?;
    if reply.text.items().len() > LONGEST_SAVED {
        return Err(NoMemory);
    }
    Ok(reply)
}
