//! Runs of a deck for so many times: what is made ready has then run.

ghost use Rattle.std.specs.Prelude.{◌≡◌, ◌≤◌, map, OnErr, IfOk};
ghost use Rattle.lvdc_port.specs.Devices.{AreDistinct};
ghost use Rattle.lvdc_machine.specs.declared.mode.Mode.TheVariants as modes;
ghost use Rattle.lvdc_command_run.specs.Finished.{HasRun, HasJudged};
ghost use Rattle.lvdc_command_run.specs.Trials.{trial_of, IsRunnable};
ghost use Rattle.lvdc_command_save.specs.Replies.{IsUnwritten};

use lvdc_command_run::{Ready, make_ready};
use lvdc_deck::Deck;
use lvdc_laws_runs::{failed_exchange, guarded_follows};
use lvdc_machine::Mode;
use lvdc_port::PortDevice;
use lvdc_word::NoMemory;
use std::alloc::Global;

/// Makes the machine of a deck, and runs it for so many times.
fn run_machine(
    alloc: Global,
    times: u64,
    deck: Deck,
    devices: &mut Vec<Box<dyn PortDevice>>,
) -> Result<Ready, NoMemory>
    requires runnable { IsRunnable deck }
    requires within { times ≤ deck.count }
    requires distinct { AreDistinct (map device_of devices.old.items) }
    ensures run { IfOk result (λ ready. HasRun device_of faults modes.Guarded (trial_of (map device_of devices.old.items) deck) times
        devices.old.items devices.new.items ready.machine) }
    ensures orders { IfOk result (λ ready. ready.orders ≡ deck.orders) }
    ensures limit { IfOk result (λ ready. ready.machine.limit ≡ deck.count) }
    ensures unmade { OnErr result (IsUnwritten device_of faults times deck devices.old.items devices.new.items) }
{
    let Ready {
        mut machine,
        orders,
        commands,
    } = make_ready(alloc, Mode::Guarded, deck, devices)?;
    machine.run(&orders, times, devices);
    Ok(Ready {
        machine,
        orders,
        commands,
    })
}

/// The same, by the laws of guarded runs.
pub(crate) fn run_times(
    alloc: Global,
    times: u64,
    deck: Deck,
    devices: &mut Vec<Box<dyn PortDevice>>,
) -> Result<Ready, NoMemory>
    requires runnable { IsRunnable deck }
    requires within { times ≤ deck.count }
    requires distinct { AreDistinct (map device_of devices.old.items) }
    ensures run { IfOk result (λ ready. HasJudged device_of faults (trial_of (map device_of devices.old.items) deck) times
        devices.old.items devices.new.items ready.machine) }
    ensures orders { IfOk result (λ ready. ready.orders ≡ deck.orders) }
    ensures limit { IfOk result (λ ready. ready.machine.limit ≡ deck.count) }
    ensures unmade { OnErr result (IsUnwritten device_of faults times deck devices.old.items devices.new.items) }
{
    guarded_follows();
    failed_exchange();
    lvdc_laws_voted::guarded_run();
    lvdc_laws_voted::judges_alone();
    lvdc_laws_voted::guarded_ends();
    lvdc_laws_voted::guarded_times();
    lvdc_laws_voted::words_known();
    lvdc_laws_voted::all_times_made();
    run_machine(alloc, times, deck, devices)
}
