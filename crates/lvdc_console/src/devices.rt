ghost use Rattle.std.specs.Prelude.{◌+◌, ◌≤◌, vec_len, vec_capacity, IfOk};
ghost use Rattle.lvdc_console.specs.Rack.{tape_at, latch_at, ticker_at, recorder_at, device_at, IsUnfailing, IsFilled};

use crate::rack::{latch, plug_in, recorder, tape, ticker};
use lvdc_port::{Latch, PortDevice, Recorder, Tape, Ticker};
use lvdc_word::NoMemory;
use std::alloc::Global;

/// A list of the sixteen devices, each as it is before a run: a tape at each of the ports 000 to 013, latches at 014 and 015, a
/// ticker at 016 and a recorder at 017. It is a macro because a function hands out no box that holds any device: whoever asks
/// for the list makes the boxes.
macro_rules! sixteen_devices {
    ($alloc:expr) => {{
        let alloc = $alloc;
        let mut devices = Vec::with_capacity(alloc, 16)?;
        let low = four_tapes(alloc, 0o0)?;
        plug_in_four(&mut devices, 0o0, low.0, low.1, low.2, low.3);
        let middle = four_tapes(alloc, 0o4)?;
        plug_in_four(&mut devices, 0o4, middle.0, middle.1, middle.2, middle.3);
        let high = four_tapes(alloc, 0o10)?;
        plug_in_four(&mut devices, 0o10, high.0, high.1, high.2, high.3);
        let others = other_devices(alloc)?;
        plug_in_four(&mut devices, 0o14, others.0, others.1, others.2, others.3);
        is_whole(&devices);
        devices
    }};
}

pub(crate) use sixteen_devices;

/// Four tapes without words, one for this port and one for each of the next three.
pub(crate) fn four_tapes(
    alloc: Global,
    port: u8,
) -> Result<(Box<Tape>, Box<Tape>, Box<Tape>, Box<Tape>), NoMemory>
    requires { port + 4 ≤ 16 }
    ensures { IfOk result (λ made. IsUnfailing ⟦<Tape as PortDevice>⟧.device_of ⟦<Tape as PortDevice>⟧.faults made.0.value (tape_at port)
        × IsUnfailing ⟦<Tape as PortDevice>⟧.device_of ⟦<Tape as PortDevice>⟧.faults made.1.value (tape_at (port + 1))
        × IsUnfailing ⟦<Tape as PortDevice>⟧.device_of ⟦<Tape as PortDevice>⟧.faults made.2.value (tape_at (port + 2))
        × IsUnfailing ⟦<Tape as PortDevice>⟧.device_of ⟦<Tape as PortDevice>⟧.faults made.3.value (tape_at (port + 3))) }
{
    Ok((
        tape(alloc, port)?,
        tape(alloc, port + 1)?,
        tape(alloc, port + 2)?,
        tape(alloc, port + 3)?,
    ))
}

/// The devices that are no tapes: latches for ports 014 and 015, a ticker for 016 and a recorder for 017, each as it is
/// before a run.
pub(crate) fn other_devices(
    alloc: Global,
) -> Result<(Box<Latch>, Box<Latch>, Box<Ticker>, Box<Recorder>), NoMemory>
    ensures { IfOk result (λ made. IsUnfailing ⟦<Latch as PortDevice>⟧.device_of ⟦<Latch as PortDevice>⟧.faults made.0.value (latch_at 0o14)
        × IsUnfailing ⟦<Latch as PortDevice>⟧.device_of ⟦<Latch as PortDevice>⟧.faults made.1.value (latch_at 0o15)
        × IsUnfailing ⟦<Ticker as PortDevice>⟧.device_of ⟦<Ticker as PortDevice>⟧.faults made.2.value (ticker_at 0o16)
        × IsUnfailing ⟦<Recorder as PortDevice>⟧.device_of ⟦<Recorder as PortDevice>⟧.faults made.3.value (recorder_at 0o17)) }
{
    Ok((
        latch(alloc, 0o14)?,
        latch(alloc, 0o15)?,
        ticker(alloc, 0o16)?,
        recorder(alloc, 0o17)?,
    ))
}

/// Puts four devices, the first at this port, behind those at the ports below it, in a list that has room for sixteen.
pub(crate) fn plug_in_four(
    devices: &mut Vec<Box<dyn PortDevice>>,
    port: u8,
    first: Box<dyn PortDevice>,
    second: Box<dyn PortDevice>,
    third: Box<dyn PortDevice>,
    fourth: Box<dyn PortDevice>,
)
    requires before { IsFilled device_of faults port devices.old.items (vec_len devices.old) (vec_capacity devices.old) }
    requires room { port + 4 ≤ 16 }
    requires first { IsUnfailing device_of faults first (device_at port) }
    requires second { IsUnfailing device_of faults second (device_at (port + 1)) }
    requires third { IsUnfailing device_of faults third (device_at (port + 2)) }
    requires fourth { IsUnfailing device_of faults fourth (device_at (port + 3)) }
    ensures { IsFilled device_of faults (port + 4) devices.new.items (vec_len devices.new) (vec_capacity devices.new) }
{
    plug_in(devices, port, first);
    plug_in(devices, port + 1, second);
    plug_in(devices, port + 2, third);
    plug_in(devices, port + 3, fourth);
}
