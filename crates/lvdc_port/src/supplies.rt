ghost use Rattle.std.specs.Prelude.{◌≡◌, ◌<◌, ◌^◌, All, length, map, OnOk, OnErr, Some};
ghost use Rattle.lvdc_port.specs.Device.{after_supply};
ghost use Rattle.lvdc_port.specs.declared.device.Kind.TheVariants.{Tape};
ghost use Rattle.lvdc_port.specs.Devices.{AreDistinct};
ghost use Rattle.lvdc_port.specs.Supplies.{kind_at, after_supply_of, supplied, IsSuppliedInPart, ports_of, kinds_of};

use crate::device::{Kind, PortDevice};
use crate::requests::{Supply, place_of};
use lvdc_word::{NoMemory, Word};

fn kind_of(device: &Box<dyn PortDevice>) -> Kind
    ensures { result ≡ (device_of device.now).kind }
{
    device.kind()
}

fn supply_word(device: &mut Box<dyn PortDevice>, word: Word) -> Result<(), NoMemory>
    ensures ok { OnOk result (device_of device.new ≡ after_supply (device_of device.old) word) }
    ensures err { OnErr result (device_of device.new ≡ device_of device.old) }
    ensures spare { spare device.new ≡ spare device.old }
    ensures faults { faults device.new ≡ faults device.old }
    ensures told { told device.new ≡ told device.old }
    ensures want { OnErr result ((device_of device.old).kind ≡ Tape) }
{
    device.supply(word)
}

/// The kind of the device at this port, 000 to 377 octal; none where there is no device.
pub fn kind_at(devices: &Vec<Box<dyn PortDevice>>, port: u8) -> Option<Kind>
    // Every port meets this.
    requires { port < 2 ^ 8 }
    ensures { result ≡ kind_at device_of port devices.now.items }
{
    match place_of(devices, port) {
        Some(at) => Some(kind_of(&devices[at])),
        None => None,
    }
}

fn supply_one(devices: &mut Vec<Box<dyn PortDevice>>, supply: &Supply) -> Result<(), NoMemory>
    ensures ok { OnOk result (map device_of devices.new.items
        ≡ after_supply_of supply.now (map device_of devices.old.items)) }
    ensures err { OnErr result (map device_of devices.new.items ≡ map device_of devices.old.items) }
    ensures spare { map spare devices.new.items ≡ map spare devices.old.items }
    ensures faults { map faults devices.new.items ≡ map faults devices.old.items }
    ensures told { map told devices.new.items ≡ map told devices.old.items }
    ensures want { OnErr result (kind_at (λ device. device) supply.now.port
        (map device_of devices.old.items) ≡ Some Tape) }
{
    let Some(at) = place_of(devices, supply.port) else {
        return Ok(());
    };
    let device = &mut devices[at];
    match supply_word(device, supply.word) {
        Ok(()) => Ok(()),
        Err(NoMemory) => Err(NoMemory),
    }
}

/// Puts each word behind those that the tape at its port still has, in order. A word for a port without a tape is lost.
/// After a want of memory the words before the one that found no memory have been taken, and no others.
pub fn supply_all(
    devices: &mut Vec<Box<dyn PortDevice>>,
    supplies: &[Supply],
) -> Result<(), NoMemory>
    // Every list meets this. A call that is lent the devices and has no condition counts as one that may make a box.
    requires { length supplies.now < 2 ^ 64 }
    ensures ok { OnOk result (map device_of devices.new.items
        ≡ supplied supplies.now (map device_of devices.old.items)) }
    ensures err { OnErr result (IsSuppliedInPart supplies.now
        (map device_of devices.old.items) (map device_of devices.new.items)) }

    // Each device keeps its place, its port and its kind, its room, its count of faults and the time that it was told.
    ensures ports { ports_of (map device_of devices.new.items)
        ≡ ports_of (map device_of devices.old.items) }
    ensures kinds { kinds_of (map device_of devices.new.items)
        ≡ kinds_of (map device_of devices.old.items) }
    ensures distinct { AreDistinct (map device_of devices.old.items)
        → AreDistinct (map device_of devices.new.items) }
    ensures spare { map spare devices.new.items ≡ map spare devices.old.items }
    ensures faults { map faults devices.new.items ≡ map faults devices.old.items }
    ensures told { map told devices.new.items ≡ map told devices.old.items }
{
    for supply in supplies {
        match supply_one(devices, supply) {
            Ok(()) => {}
            Err(NoMemory) => return Err(NoMemory),
        }
    }
    Ok(())
}

/// What is supplied is a word, by its type.
fn supplies_word(supply: &Supply)
    ensures { supply.now.word < 2 ^ 26 }
{
    supply.word.value();
}

/// What is supplied are words, by their type. The loop has no effect.
pub fn supplies_words(supplies: &[Supply])
    ensures { All (λ supply. supply.word < 2 ^ 26) supplies.now }
{
    for supply in supplies {
        supplies_word(supply);
    }
}
