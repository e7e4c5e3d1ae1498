//! How far a session goes: the times that its commands make, and its breakpoints.

ghost use Rattle.std.specs.Prelude.{◌≡◌, ℕ, ◌+◌, ◌-◌, ◌*◌, ◌≤◌, min, nat_le, List, map};
ghost use Rattle.lvdc_port.specs.Device as device;
ghost use Rattle.lvdc_plain.specs.Run.{IsOpening};
ghost use Rattle.lvdc_model.specs.Trial.{Trial};
ghost use Rattle.lvdc_machine.specs.Stands.{Stands, state_by};
ghost use Rattle.lvdc_debug.specs.Session.{Subject, at_start, place_of, rests, left, after_command, does_all};
ghost use Rattle.lvdc_debug.specs.Standing.{IsReady, Moves, IsSubject};

use crate::{Breaks, Command, Spot2};
use lvdc_laws_voted::judges_alone;
use lvdc_machine::{Machine, Orders};
use lvdc_port::PortDevice;

/// Where a session is.
#[derive(Drop)]
pub(crate) struct Course {
    /// For how many instruction times it has asked. After an end fewer may have been made.
    pub(crate) asked: u64,
    pub(crate) breaks: Breaks,
}

/// The place of the instruction that is to be fetched.
fn place_of(machine: &Machine) -> Spot2
    ensures { (o : Trial) (t : ℕ) (ds : List device.Device) → Stands o t machine.now ds
        → result ≡ place_of o (state_by machine.now.end machine.now.mode o t) }
{
    let place = machine.visible().place;
    Spot2 {
        at: place.fetch(machine.banks()),
        syl: place.syl,
    }
}

/// Has the run ended, or is it at a breakpoint with no hold left?
fn rests(machine: &Machine, breaks: &Breaks) -> bool
    ensures { (o : Trial) (t : ℕ) (ds : List device.Device) → Stands o t machine.now ds
        → result ≡ rests o breaks.now (state_by machine.now.end machine.now.mode o t) }
{
    machine.ended().is_some() || !machine.holding() && breaks.has(&place_of(machine))
}

impl Course {
    /// Before the first command.
    pub(crate) fn new() -> Course
        ensures { result ≡ at_start }
    {
        Course {
            asked: 0,
            breaks: Breaks::new(),
        }
    }

    /// Asks for so many times, and makes those that the limit leaves. Were these all?
    fn step(
        &mut self,
        times: u64,
        machine: &mut Machine,
        orders: &Orders,
        devices: &mut Vec<Box<dyn PortDevice>>,
    ) -> bool
        requires ready { IsReady device_of spare self.old.asked machine.old.limit machine.old devices.old.items }
        ensures asked { self.new.asked ≡ self.old.asked + min times (machine.old.limit - self.old.asked) }
        ensures breaks { self.new.breaks ≡ self.old.breaks }
        ensures all { result ≡ nat_le times (machine.old.limit - self.old.asked) }
        ensures moves { Moves device_of faults self.old.asked self.new.asked machine.old machine.new devices.old.items devices.new.items }
        ensures ready { IsReady device_of spare self.new.asked machine.old.limit machine.new devices.new.items }
    {
        let left = machine.limit() - self.asked;
        let made = times.min(left);
        machine.run(orders, made, devices);
        self.asked += made;
        times <= left
    }

    /// Makes times until one after which the run rests, or up to the limit. Did it come to rest?
    fn go(
        &mut self,
        machine: &mut Machine,
        orders: &Orders,
        devices: &mut Vec<Box<dyn PortDevice>>,
    ) -> bool
        requires ready { IsReady device_of spare self.old.asked machine.old.limit machine.old devices.old.items }
        ensures breaks { self.new.breaks ≡ self.old.breaks }
        ensures moves { Moves device_of faults self.old.asked self.new.asked machine.old machine.new devices.old.items devices.new.items }
        ensures ready { IsReady device_of spare self.new.asked machine.old.limit machine.new devices.new.items }
        ensures went { (o : Trial) (s : Subject) → IsOpening o.opening → Stands o (3 * self.old.asked) machine.old (map device_of devices.old.items)
            → IsSubject o machine.new self.new.asked s
            → (self.new ≡ after_command s self.old Command.Go) × (result ≡ does_all s self.old Command.Go) }
    {
        judges_alone();
        while self.asked < machine.limit() {
            machine.run(orders, 1, devices);
            self.asked += 1;
            if rests(machine, &self.breaks) {
                return true;
            }
        }
        false
    }

    /// Carries a command out. Did it do all that it was asked?
    pub(crate) fn carry_out(
        &mut self,
        command: &Command,
        machine: &mut Machine,
        orders: &Orders,
        devices: &mut Vec<Box<dyn PortDevice>>,
    ) -> bool
        requires ready { IsReady device_of spare self.old.asked machine.old.limit machine.old devices.old.items }
        ensures moves { Moves device_of faults self.old.asked self.new.asked machine.old machine.new devices.old.items devices.new.items }
        ensures ready { IsReady device_of spare self.new.asked machine.old.limit machine.new devices.new.items }
        ensures went { (o : Trial) (s : Subject) → IsOpening o.opening → Stands o (3 * self.old.asked) machine.old (map device_of devices.old.items)
            → IsSubject o machine.new self.new.asked s
            → (self.new ≡ after_command s self.old command.now) × (result ≡ does_all s self.old command.now) }
    {
        match command {
            Command::Step(times) => self.step(*times, machine, orders, devices),
            Command::Go => self.go(machine, orders, devices),
            Command::Break(spot) => self.breaks.set(*spot).is_ok(),
            _ => true,
        }
    }
}
