//! The devices that are taken away before a time.

ghost use Rattle.std.specs.Prelude.{◌≡◌, ℕ, map};
ghost use Rattle.lvdc_port.specs.Devices.{AreDistinct, HasSpare};
ghost use Rattle.lvdc_plain.specs.Lists.{Left, Since};
ghost use Rattle.lvdc_plain.specs.Run.{plugged};

use crate::records::Unplug;
use lvdc_port::{PortDevice, unplug};

/// Removes the devices that lines of this time take away.
fn unplug_lines(unplugs: &[Unplug], time: u64, devices: &mut Vec<Box<dyn PortDevice>>)
    ensures { Left device_of unplugs.now time devices.old.items devices.new.items }
{
    for line in unplugs {
        if line.time == time {
            unplug(devices, line.port);
        }
    }
}

/// Removes the devices that lines of this instruction time take away, and drops them. The others keep their order.
pub fn unplug_all(unplugs: &[Unplug], time: u64, devices: &mut Vec<Box<dyn PortDevice>>)
    requires distinct { AreDistinct (map device_of devices.old.items) }
    ensures left { Left device_of unplugs.now time devices.old.items devices.new.items }
    ensures devices { map device_of devices.new.items
        ≡ plugged unplugs.now time (map device_of devices.old.items) }

    // What stays of ports, room and counts of faults.
    ensures distinct { AreDistinct (map device_of devices.new.items) }
    ensures spare { (n : ℕ) → HasSpare spare n devices.old.items
        → HasSpare spare n devices.new.items }
    ensures since { Since device_of faults devices.old.items devices.new.items }
{
    unplug_lines(unplugs, time, devices);
}
