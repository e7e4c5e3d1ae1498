//! A machine that has said something against a step goes on with it, through every fault.

ghost use Rattle.std.specs.Prelude.{◌≡◌, ◌+◌, ◌*◌, ◌≤◌, ◌<◌, length, map, OnOk, OnErr, IfOk};
ghost use Rattle.lvdc_port.specs.Devices.{AreDistinct};
ghost use Rattle.lvdc_machine.specs.declared.mode.Mode.TheVariants.{Through};
ghost use Rattle.lvdc_machine.specs.declared.mode.Pace.TheVariants.{ByStep};
ghost use Rattle.lvdc_machine.specs.Onward.{HasRefused, MakesRefused, GoesThrough};

use crate::{Machine, Mode, Order, Orders, Outcome, Pace};
use lvdc_port::{PortDevice, prepare_all};
use lvdc_word::NoMemory;

impl Machine {
    /// Goes through every fault from now on, with room for as many exchanges and repairs as there are steps left. Nothing changes after
    /// a want of memory.
    fn turn(&mut self, left: u64) -> Result<(), NoMemory>
        requires few { length self.old.log ≤ self.old.steps }
        requires left { 3 * self.old.limit ≡ self.old.steps + left }
        ensures turned { OnOk result (self.new ≡ record self.old { mode = Through; pace = ByStep }) }
        ensures unchanged { OnErr result (self.new ≡ self.old) }
    {
        self.log.reserve_exact(left as usize)?;
        self.repairs.reserve_exact(left as usize)?;
        self.mode = Mode::Through;
        self.pace = Pace::ByStep;
        Ok(())
    }

    /// Makes the step that was begun and that something was said against, in a machine that goes through every fault from then on. The
    /// end that was kept gives way to that of the step.
    fn make_refused(
        &mut self,
        order: &Order,
        left: u64,
        devices: &mut Vec<Box<dyn PortDevice>>,
    ) -> Result<(), NoMemory>
        requires refused { HasRefused self.old }
        requires left { 3 * self.old.limit ≡ self.old.steps + left }
        requires distinct { AreDistinct (map device_of devices.old.items) }
        ensures made { OnOk result (MakesRefused device_of spare faults self.old self.new devices.old.items devices.new.items) }
        ensures unchanged { OnErr result (self.new ≡ self.old) }
        ensures devices { OnErr result (map device_of devices.new.items ≡ map device_of devices.old.items) }
        ensures faults { OnErr result (map faults devices.new.items ≡ map faults devices.old.items) }
    {
        prepare_all(devices, left)?;
        self.turn(left)?;
        let wanted = self.wanted();
        match self.exchange(order, &wanted, None, devices) {
            Ok(_) => {}
            Err(port) => self.fail(port),
        }
        Ok(())
    }

    /// Makes the step that something was said against, which was begun, and all others up to the one of this number, or fewer where an end
    /// comes: as a machine does that goes through every fault, in whose run it then stands. It makes room first for all that may still be
    /// noted up to the limit and for the devices' words, so `run` may go on from there. After a want of memory the machine is as it was,
    /// and no device holds anything else.
    pub fn go_through(
        &mut self,
        orders: &Orders,
        to: u64,
        devices: &mut Vec<Box<dyn PortDevice>>,
    ) -> Result<Outcome, NoMemory>
        requires refused { HasRefused self.old }
        requires later { self.old.steps < to }
        requires within { to ≤ 3 * self.old.limit }
        requires distinct { AreDistinct (map device_of devices.old.items) }

        // The orders don't matter.
        ensures goes { IfOk result (λ end. GoesThrough device_of spare faults to end self.old self.new devices.old.items devices.new.items) }
        ensures unchanged { OnErr result (self.new ≡ self.old) }
        ensures devices { OnErr result (map device_of devices.new.items ≡ map device_of devices.old.items) }
        ensures faults { OnErr result (map faults devices.new.items ≡ map faults devices.old.items) }
    {
        let left = 3 * self.limit - self.steps;
        let rest = to - self.steps - 1;
        self.make_refused(orders.at_step(self.steps), left, devices)?;
        Ok(self.make_steps(orders, rest, devices))
    }
}
