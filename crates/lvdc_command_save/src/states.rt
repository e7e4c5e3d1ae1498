//! What the devices hold.

ghost use Rattle.std.specs.Prelude.{◌≡◌, ◌++◌, map, slice_get, OnOk, IfOk};
ghost use Rattle.lvdc_deck.specs.Sections.{supply_of};
ghost use Rattle.lvdc_command_save.specs.States.{state_at, states_of};

use lvdc_port::{PortDevice, Supply};
use lvdc_word::{NoMemory, Word};
use std::alloc::Global;

/// How many ports there are.
const PORTS: u16 = 256;

/// The port of a device. It stands for its clause alone, which proofs cite.
fn port_of(device: &Box<dyn PortDevice>) -> u8
    ensures { result ≡ (device_of device.now).port }
{
    device.port()
}

/// The word at this index of those that a device holds. It stands for its clause alone, which proofs cite.
fn held(device: &Box<dyn PortDevice>, index: usize) -> Option<Word>
    ensures { result ≡ slice_get (device_of device.now).state index }
{
    device.held(index)
}

/// Adds the words of a device, each for this port.
fn put_words(
    states: &mut Vec<Supply>,
    device: &Box<dyn PortDevice>,
    port: u8,
) -> Result<(), NoMemory>
    ensures { OnOk result (states.new.items ≡ states.old.items ++ supply_of port (device_of device.now).state) }
{
    let before = states.len();
    while let Some(word) = held(device, states.len() - before) {
        states.push(Supply { port, word })?;
    }
    Ok(())
}

/// Adds the words of the device at this port, where there is one.
fn put_state(
    states: &mut Vec<Supply>,
    devices: &[Box<dyn PortDevice>],
    port: u8,
) -> Result<(), NoMemory>
    ensures { OnOk result (states.new.items ≡ states.old.items ++ state_at (map device_of devices.now) port) }
{
    for device in devices {
        if port_of(device) == port {
            return put_words(states, device, port);
        }
    }
    Ok(())
}

/// The words that the devices hold, by rising port and in each device's order.
pub(crate) fn states_of(
    alloc: Global,
    devices: &[Box<dyn PortDevice>],
) -> Result<Vec<Supply>, NoMemory>
    ensures { IfOk result (λ states. states.items ≡ states_of (map device_of devices.now)) }
{
    let mut states = Vec::new(alloc);
    for port in 0..PORTS {
        put_state(&mut states, devices, port as u8)?;
    }
    Ok(states)
}
