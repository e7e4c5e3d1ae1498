ghost use Rattle.std.specs.Prelude.{◌≡◌, ℕ, map, OnErr, IfOk};
ghost use Rattle.lvdc_port.specs.Devices.{AreDistinct, count_at};
ghost use Rattle.lvdc_plain.specs.Lists.{AreFit};
ghost use Rattle.lvdc_machine.specs.Calls.{Begins};
ghost use Rattle.lvdc_machine.specs.Room.{exchanges_to_come};
ghost use Rattle.lvdc_command_run.specs.Trials.{trial_of, IsRunnable};
ghost use Rattle.lvdc_command_run.specs.Ready.{AreSupplied};

use lvdc_deck::Deck;
use lvdc_machine::{Machine, Mode};
use lvdc_orders::Orders;
use lvdc_port::{PortDevice, supply_all};
use lvdc_text::Line;
use lvdc_word::{NoMemory, Seq};
use std::alloc::Global;

/// The voted machine of a deck before its first step, and what the deck asks of it.
#[derive(Drop)]
pub struct Ready {
    /// Its limit is the count of the deck.
    pub machine: Machine,
    /// The deck's orders.
    pub orders: Orders,
    /// The deck's commands.
    pub commands: Seq<Line>,
}

/// Supplies the tapes of a deck, and makes its voted machine.
pub fn make_ready(
    alloc: Global,
    mode: Mode,
    deck: Deck,
    devices: &mut Vec<Box<dyn PortDevice>>,
) -> Result<Ready, NoMemory>
    requires runnable { IsRunnable deck }
    requires distinct { AreDistinct (map device_of devices.old.items) }

    // It stands at the start of the deck's trial, and the devices are fit for all its exchanges.
    ensures begins { IfOk result (λ ready. Begins (trial_of (map device_of devices.old.items) deck) mode deck.count ready.machine (map device_of devices.new.items)) }
    ensures fit { IfOk result (λ ready. AreFit device_of spare (exchanges_to_come ready.machine) devices.new.items) }
    ensures orders { IfOk result (λ ready. ready.orders ≡ deck.orders) }
    ensures commands { IfOk result (λ ready. ready.commands ≡ deck.commands) }
    ensures part { OnErr result (AreSupplied deck (map device_of devices.old.items) (map device_of devices.new.items)) }

    // In every case.
    ensures counts { (port : ℕ) → count_at device_of faults port devices.new.items ≡ count_at device_of faults port devices.old.items }
    ensures distinct { AreDistinct (map device_of devices.new.items) }
{
    supply_all(devices, deck.supplies.items())?;
    let Deck {
        image,
        start,
        banks,
        unplugs,
        script,
        orders,
        count,
        commands,
        ..
    } = deck;
    let machine = Machine::new(
        alloc,
        image.words(),
        banks,
        start,
        script,
        unplugs.into_vec(),
        mode,
        count,
        devices,
    )?;
    Ok(Ready {
        machine,
        orders,
        commands,
    })
}
