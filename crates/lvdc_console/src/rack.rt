ghost use Rattle.std.specs.Prelude.{◌≡◌, ◌+◌, ◌<◌, map, vec_len, vec_capacity, IfOk};
ghost use Rattle.lvdc_port.specs.Devices.{AreDistinct, HoldWords, NeverFail};
ghost use Rattle.lvdc_console.specs.Rack.{rack, tape_at, latch_at, ticker_at, recorder_at, device_at, IsUnfailing, IsFilled};

use lvdc_port::{Latch, PortDevice, Recorder, Tape, Ticker};
use lvdc_word::NoMemory;
use std::alloc::Global;

/// A tape without words, in a box.
pub(crate) fn tape(alloc: Global, port: u8) -> Result<Box<Tape>, NoMemory>
    ensures { IfOk result (λ made. IsUnfailing ⟦<Tape as PortDevice>⟧.device_of ⟦<Tape as PortDevice>⟧.faults made.value (tape_at port)) }
{
    Ok(Box::new(alloc, Tape::new(alloc, port))?)
}

/// A latch that holds 0, in a box.
pub(crate) fn latch(alloc: Global, port: u8) -> Result<Box<Latch>, NoMemory>
    ensures { IfOk result (λ made. IsUnfailing ⟦<Latch as PortDevice>⟧.device_of ⟦<Latch as PortDevice>⟧.faults made.value (latch_at port)) }
{
    Ok(Box::new(alloc, Latch::new(port))?)
}

/// A ticker, in a box.
pub(crate) fn ticker(alloc: Global, port: u8) -> Result<Box<Ticker>, NoMemory>
    ensures { IfOk result (λ made. IsUnfailing ⟦<Ticker as PortDevice>⟧.device_of ⟦<Ticker as PortDevice>⟧.faults made.value (ticker_at port)) }
{
    Ok(Box::new(alloc, Ticker::new(port))?)
}

/// A recorder without words, in a box.
pub(crate) fn recorder(alloc: Global, port: u8) -> Result<Box<Recorder>, NoMemory>
    ensures { IfOk result (λ made. IsUnfailing ⟦<Recorder as PortDevice>⟧.device_of ⟦<Recorder as PortDevice>⟧.faults made.value (recorder_at port)) }
{
    Ok(Box::new(alloc, Recorder::new(alloc, port))?)
}

/// Puts the device at this port behind those at the ports below it, in a list that has room for sixteen.
pub(crate) fn plug_in(
    devices: &mut Vec<Box<dyn PortDevice>>,
    _port: u8,
    device: Box<dyn PortDevice>,
)
    requires port { _port < 16 }
    requires before { IsFilled device_of faults _port devices.old.items (vec_len devices.old) (vec_capacity devices.old) }
    requires next { IsUnfailing device_of faults device (device_at _port) }
    ensures { IsFilled device_of faults (_port + 1) devices.new.items (vec_len devices.new) (vec_capacity devices.new) }
{
    let pushed = devices.push(device);
    prove!(pushed.is_ok());
}

/// A law: sixteen devices that were plugged in so are the rack, no two have one port, and none ever fails.
pub(crate) fn is_whole(devices: &Vec<Box<dyn PortDevice>>)
    requires { IsFilled device_of faults 16 devices.now.items (vec_len devices.now) (vec_capacity devices.now) }
    ensures rack { map device_of devices.now.items ≡ rack }
    ensures distinct { AreDistinct (map device_of devices.now.items) }
    ensures never_fail { NeverFail faults devices.now.items }
{}

/// A law: the sixteen devices hold words, so what is said of replies over devices that hold words is said of those over the rack.
pub fn rack_holds_words()
    ensures { HoldWords rack }
{}
