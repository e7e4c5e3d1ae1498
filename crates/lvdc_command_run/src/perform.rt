ghost use Rattle.std.specs.Prelude.{◌≡◌, ◌≢◌, ◌≤◌, ◌-◌, ◌^◌, ◌<◌, length, map, OnOk, OnErr, IfOk};
ghost use Rattle.lvdc_port.specs.Devices.{AreDistinct};
ghost use Rattle.lvdc_deck.specs.declared.fault.DeckFault.TheVariants.{NoMemory as WantsMemory};
ghost use Rattle.lvdc_reply.specs.Answer.{answer_with, refusal_text};
ghost use Rattle.lvdc_command_run.specs.Trials.{IsRunnable};
ghost use Rattle.lvdc_deck.specs.Faults.{name_of, line_of};
ghost use Rattle.lvdc_command_run.specs.Refusals.{refusal_status};
ghost use Rattle.lvdc_command_run.specs.Replies.{IsRunOf, IsAnswered, IsJobReply, IsUnreported, IsUnanswered};
ghost use Rattle.lvdc_command_run.specs.declared.job.Job.TheVariants as jobs;

use crate::job::{Engine, Job};
use crate::refusal::refusal_status;
use crate::runs::{run_guarded, run_plain, run_soak, run_through};
use lvdc_deck::{Deck, DeckFault, read_deck};
use lvdc_port::PortDevice;
use lvdc_reply::{Reply, refusal};
use lvdc_report::LONGEST_REPORT;
use lvdc_word::NoMemory;
use std::alloc::Global;

/// Runs a deck, and reports the run.
fn run_deck(
    alloc: Global,
    engine: Engine,
    deck: Deck,
    devices: &mut Vec<Box<dyn PortDevice>>,
) -> Result<Reply, NoMemory>
    requires runnable { IsRunnable deck }
    requires distinct { AreDistinct (map device_of devices.old.items) }
    ensures run { IfOk result (λ reply. IsRunOf device_of faults (jobs.Deck engine) deck devices.old.items devices.new.items
        (answer_with reply.status reply.text (map device_of devices.new.items))) }
    ensures unreported { OnErr result (IsUnreported device_of faults (jobs.Deck engine) deck devices.old.items devices.new.items) }
    ensures room { IfOk result (λ reply. length reply.text ≤ LONGEST_REPORT) }
{
    match engine {
        Engine::Guarded => run_guarded(alloc, deck, devices),
        Engine::Through => run_through(alloc, deck, devices),
        Engine::Plain => run_plain(alloc, deck, devices),
    }
}

/// The reply to a refused deck.
pub fn refuse(alloc: Global, fault: DeckFault) -> Result<Reply, NoMemory>
    ensures refused { OnOk result (fault ≢ WantsMemory) }
    ensures status { IfOk result (λ reply. reply.status ≡ refusal_status fault) }
    ensures text { IfOk result (λ reply. reply.text ≡ refusal_text (name_of fault) (line_of fault)) }
    ensures room { IfOk result (λ reply. length reply.text ≤ LONGEST_REPORT) }
{
    match fault {
        DeckFault::NoMemory => Err(NoMemory),
        fault => refusal(alloc, refusal_status(&fault), fault.name(), fault.line()),
    }
}

/// Reads a deck and runs it.
fn run_bytes(
    alloc: Global,
    engine: Engine,
    bytes: &[u8],
    devices: &mut Vec<Box<dyn PortDevice>>,
) -> Result<Reply, NoMemory>
    requires few { length bytes.now < 2 ^ 32 - 1 }
    requires distinct { AreDistinct (map device_of devices.old.items) }
    ensures reply { IfOk result (λ reply. IsAnswered device_of faults (jobs.Deck engine) bytes.now devices.old.items devices.new.items
        (answer_with reply.status reply.text (map device_of devices.new.items))) }
    ensures unanswered { OnErr result (IsUnanswered device_of faults (jobs.Deck engine) bytes.now devices.old.items devices.new.items) }
    ensures room { IfOk result (λ reply. length reply.text ≤ LONGEST_REPORT) }
{
    match read_deck(alloc, bytes, devices, false) {
        Ok(deck) => {
            let reply = run_deck(alloc, engine, deck, devices)?;
            Ok(reply)
        }
        Err(fault) => {
            let reply = refuse(alloc, fault)?;
            Ok(reply)
        }
    }
}

/// The reply to a job over these bytes and the devices at the ports. The bytes are asked for a deck alone.
pub fn run_job(
    alloc: Global,
    job: Job,
    bytes: &[u8],
    devices: &mut Vec<Box<dyn PortDevice>>,
) -> Result<Reply, NoMemory>
    requires few { length bytes.now < 2 ^ 32 - 1 }
    requires distinct { AreDistinct (map device_of devices.old.items) }

    // Status, text and devices are those of the definition, or those of the run up to the exchange in which a device failed.
    ensures reply { IfOk result (λ reply. IsJobReply device_of faults job bytes.now devices.old.items devices.new.items
        (answer_with reply.status reply.text (map device_of devices.new.items))) }

    // The devices are as before, or tapes were supplied in part, or they are as after the run.
    ensures unanswered { OnErr result (IsUnanswered device_of faults job bytes.now devices.old.items devices.new.items) }
    ensures room { IfOk result (λ reply. length reply.text ≤ LONGEST_REPORT) }
{
    match job {
        Job::Deck(engine) => run_bytes(alloc, engine, bytes, devices),
        Job::Soak(number) => run_soak(alloc, number, devices),
    }
}
