//! The voted machine.

ghost use Rattle.std.specs.Prelude.{◌≡◌, ℕ, ◌+◌, ◌*◌, ◌≤◌, ◌<◌, List, length, map, All, true, IfOk};
ghost use Rattle.lvdc_map.specs.Memory.{are_rising, AllThere};
ghost use Rattle.lvdc_port.specs.Device as device;
ghost use Rattle.lvdc_port.specs.Devices.{AreDistinct, HoldWords};
ghost use Rattle.lvdc_plain.specs.Lists.{AreFit};
ghost use Rattle.lvdc_model.specs.Trial.{Trial};
ghost use Rattle.lvdc_model.specs.Voted.{Voted};
ghost use Rattle.lvdc_fault.specs.Events.{IsEvent};
ghost use Rattle.lvdc_machine.specs.Calls.{trial_of, Begins, MakesSteps};
ghost use Rattle.lvdc_machine.specs.Made.{made_next, told_by};
ghost use Rattle.lvdc_machine.specs.Resumed.{state_from, StandsFrom};
ghost use Rattle.lvdc_machine.specs.Room.{exchanges_to_come};
ghost use Rattle.lvdc_machine.specs.View.{answer_of_end};

use crate::kept_end::KeptEnd;
use crate::made::Made;
use crate::start::Start;
use crate::{Mode, Order, Orders, Pace};
use lvdc_fault::{MOST_EVENTS, MOST_TIMES, Script};
use lvdc_forces::Forces;
use lvdc_logic::Logic;
use lvdc_map::{Banks, Hop, Placed, is_hop_constant};
use lvdc_memory::{MemoryEvents, VotedMemory};
use lvdc_model::{Outcome, Repair};
use lvdc_plain::{Exchange, Unplug};
use lvdc_port::{PortDevice, prepare_all};
use lvdc_snapshot::room_for;
use lvdc_word::NoMemory;
use std::alloc::Global;
use std::marker::Model;

/// The voted machine, without its devices. Steps are counted from 0, three in an instruction time. What is in force on each copy,
/// which copies are wrong, and which module has two of them, is worked out where an event begins or has ended. The memory goes by
/// the events on it alone.
pub struct Machine {
    pub(crate) banks: Banks,
    pub(crate) logic: Logic,
    pub(crate) memory: VotedMemory,
    pub(crate) script: Script,
    pub(crate) on_memory: MemoryEvents,
    pub(crate) forces: Forces,
    pub(crate) unplugs: Vec<Unplug>,
    pub(crate) log: Vec<Exchange>,
    pub(crate) repairs: Vec<Repair>,
    pub(crate) steps: u64,
    pub(crate) limit: u64,
    pub(crate) mode: Mode,
    pub(crate) pace: Pace,
    pub(crate) end: Option<KeptEnd>,
}

impl Model for Machine {
    ghost use Rattle.lvdc_machine.specs.View.{View, end_seen};

    ghost Value = { View };

    ghost use Rattle.lvdc_machine.specs.Sound.{IsSoundMachine};

    ghost view = { λ m. record {
      banks = m.banks;
      copies = m.logic.copies;
      counts = m.logic.counts;
      memory = m.memory;
      script = m.script;
      on_memory = m.on_memory;
      unplugs = m.unplugs.items;
      log = m.log.items;
      repairs = m.repairs.items;
      steps = m.steps;
      limit = m.limit;
      mode = m.mode;
      pace = m.pace;
      end = end_seen m.end;
    } };

    ghost invariant = { IsSoundMachine };
}

/// Its parts go in one call, which whoever lets a machine go doesn't look into.
impl Drop for Machine {
    fn drop(self) {
        let Machine {
            banks: _,
            logic: _,
            memory: _,
            script: _,
            on_memory: _,
            forces: _,
            unplugs: _,
            log: _,
            repairs: _,
            steps: _,
            limit: _,
            mode: _,
            pace: _,
            end: _,
        } = self;
    }
}

impl Machine {
    /// The most instruction times that a machine may be made for.
    pub const LIMIT: u64 = MOST_TIMES;

    /// The most events that a script may have.
    pub const EVENTS: usize = MOST_EVENTS;

    /// A machine before its first step, with the words of the image, which rise by address. It makes room for all that may
    /// be noted and for the devices' words. After a want of memory no device holds anything else than before.
    pub fn new(
        alloc: Global,
        image: &[Placed],
        banks: Banks,
        start: Hop,
        script: Script,
        unplugs: Vec<Unplug>,
        mode: Mode,
        limit: u64,
        devices: &mut Vec<Box<dyn PortDevice>>,
    ) -> Result<Machine, NoMemory>
        requires limit { limit ≤ Self.LIMIT }
        requires rising { are_rising image.now ≡ true }
        requires there { AllThere banks image.now }
        requires few { length script ≤ Self.EVENTS }
        requires events { All IsEvent script }
        requires distinct { AreDistinct (map device_of devices.old.items) }

        // It stands at the start of the trial that these arguments are, and the devices are fit for all its exchanges.
        ensures begins { IfOk result (λ machine. Begins
            (record {
              opening = record { image = image.now; banks = banks; start = start; unplugs = unplugs.items; devices = map device_of devices.old.items };
              script = script;
            })
            mode limit machine (map device_of devices.new.items)) }
        ensures fit { IfOk result (λ machine. AreFit device_of spare (exchanges_to_come machine) devices.new.items) }

        // In every case.
        ensures devices { map device_of devices.new.items ≡ map device_of devices.old.items }
        ensures faults { map faults devices.new.items ≡ map faults devices.old.items }
    {
        prepare_all(devices, Pace::of(mode).exchanges(limit))?;
        Machine::at_start(
            alloc,
            Start {
                image,
                banks,
                start,
                script,
                unplugs,
                mode,
                limit,
            },
        )
    }

    /// A machine before its first step, with whatever devices.
    fn at_start(alloc: Global, start: Start<'_>) -> Result<Machine, NoMemory>
        requires limit { start.limit ≤ Self.LIMIT }
        requires there { AllThere start.banks start.image.now }
        requires events { All IsEvent start.script }
        ensures begins { (devices : List device.Device) → HoldWords devices
            → IfOk result (λ machine. Begins (trial_of start.entry devices) start.entry.mode start.entry.limit machine devices) }
    {
        let Start {
            image,
            banks,
            start,
            script,
            unplugs,
            mode,
            limit,
        } = start;
        is_hop_constant(start);
        let pace = Pace::of(mode);
        let memory = VotedMemory::new(alloc, image, banks)?;
        let on_memory = MemoryEvents::for_script(alloc, &script)?;
        let forces = Forces::for_script(alloc, &script)?;
        let (log, repairs) = room_for(alloc, pace.exchanges(limit), pace.repairs(limit))?;
        Ok(Machine {
            banks,
            logic: Logic::new(start),
            memory,
            script,
            on_memory,
            forces,
            unplugs,
            log,
            repairs,
            steps: 0,
            limit,
            mode,
            pace,
            end: None,
        })
    }

    /// Makes one step, in which the copies latch in this order, or answers the end that has come. It takes no memory.
    pub fn phase(&mut self, order: &Order, devices: &mut Vec<Box<dyn PortDevice>>) -> Outcome
        requires left { self.old.steps < 3 * self.old.limit }
        requires fit { AreFit device_of spare (exchanges_to_come self.old) devices.old.items }

        // The order doesn't matter. What the run is beside the plain run, `guarded_follows` and `guarded_keeps` say of every machine
        // that stands.
        ensures { MakesSteps device_of spare faults 1 result self.old self.new devices.old.items devices.new.items }
    {
        let _ = self.told_phase(order, devices);
        self.outcome()
    }

    /// Makes one step, as `phase` does, and answers what it made; nothing where it wasn't made, or where an end had come.
    pub fn told_phase(
        &mut self,
        order: &Order,
        devices: &mut Vec<Box<dyn PortDevice>>,
    ) -> Option<Made>
        requires left { self.old.steps < 3 * self.old.limit }
        requires fit { AreFit device_of spare (exchanges_to_come self.old) devices.old.items }
        ensures steps { MakesSteps device_of spare faults 1 (answer_of_end self.new.end) self.old self.new devices.old.items devices.new.items }

        // It answers what that step makes of the state where it stood, unless a device failed in it.
        ensures told { (o : Trial) (first : Voted) (n : ℕ) → StandsFrom o first n self.old (map device_of devices.old.items)
            → result ≡ told_by self.new.end (made_next self.old.mode o (state_from self.old.end self.old.mode o first n)) }
    {
        match self.ended() {
            Some(_) => None,
            None => self.advance(order, devices),
        }
    }

    /// Makes so many instruction times, of three steps each, or fewer steps where an end comes. Each step takes the order
    /// whose turn it is. It takes no memory.
    pub fn run(
        &mut self,
        orders: &Orders,
        times: u64,
        devices: &mut Vec<Box<dyn PortDevice>>,
    ) -> Outcome
        requires left { self.old.steps + 3 * times ≤ 3 * self.old.limit }
        requires fit { AreFit device_of spare (exchanges_to_come self.old) devices.old.items }

        // The orders don't matter. What the run is beside the plain run, `guarded_follows` and `unhurt_follows` say of every machine
        // that stands.
        ensures { MakesSteps device_of spare faults (3 * times) result self.old self.new devices.old.items devices.new.items }
    {
        // What is true of every machine is known where one of its fields is used: here that its limit is small.
        let _ = &self.limit;
        self.make_steps(orders, 3 * times, devices)
    }

    /// Makes so many steps, or fewer where an end comes.
    pub(crate) fn make_steps(
        &mut self,
        orders: &Orders,
        steps: u64,
        devices: &mut Vec<Box<dyn PortDevice>>,
    ) -> Outcome
        requires left { self.old.steps + steps ≤ 3 * self.old.limit }
        requires fit { AreFit device_of spare (exchanges_to_come self.old) devices.old.items }
        ensures { MakesSteps device_of spare faults steps result self.old self.new devices.old.items devices.new.items }
    {
        if let Some(end) = self.ended() {
            return end;
        }
        // Where one order takes all turns, no step asks whose turn it is.
        let first = orders.at_step(0);
        let is_alone = orders.count() == 1;
        for _made in 0..steps {
            let order = if is_alone {
                first
            } else {
                orders.at_step(self.steps)
            };
            let _ = self.advance(order, devices);
            if let Some(end) = self.ended() {
                return end;
            }
        }
        Outcome::Done
    }
}
