ghost use Rattle.std.specs.Prelude.{◌≡◌, ◌≢◌, ◌-◌, ◌^◌, ◌*◌, ◌/◌, ◌<◌, ◌≤◌, All, length, map, IfOk, IfErr, Ok, Err};
ghost use Rattle.lvdc_fault.specs.Events.{TIMES, EVENTS, IsEvent};
ghost use Rattle.lvdc_snapshot.specs.Snapshot.{IsWhole};
ghost use Rattle.lvdc_save.specs.Reading.{saved_of};
ghost use Rattle.lvdc_save_read.specs.Accepted.{AreStates, AreUnplugs};
ghost use Rattle.lvdc_save.specs.declared.fault.SaveFault.TheVariants.{NoMemory as WantsMemory};

use crate::reading::Reading;
use lvdc_port::PortDevice;
use lvdc_save::{SaveFault, Saved};
use lvdc_text::{lines, part};
use std::alloc::Global;

/// Reads the bytes as a saved text over these devices, which stay as they are: their kinds say where a STATE or an UNPLUG
/// line may stand.
pub fn read_saved(
    alloc: Global,
    bytes: &[u8],
    devices: &Vec<Box<dyn PortDevice>>,
) -> Result<Saved, SaveFault>
    requires { length bytes.now < 2 ^ 32 - 1 }
    ensures saved { IfOk result (λ saved. saved_of (map device_of devices.now.items) bytes.now ≡ Ok saved) }
    ensures refusal { IfErr result (λ fault. fault ≢ WantsMemory →
        saved_of (map device_of devices.now.items) bytes.now ≡ Err fault) }
    // Each STATE line is of a device that holds words, by rising port, one alone for a latch. Each UNPLUG line takes away a device
    // that is there and that no earlier line takes away, and one that was gone by then has no STATE line.
    ensures fits { IfOk result (λ saved. AreStates (map device_of devices.now.items) saved.states
        × AreUnplugs (map device_of devices.now.items) (saved.snapshot.steps / 3) saved.states saved.unplugs) }
    // A machine can go on from it.
    ensures whole { IfOk result (λ saved. IsWhole saved.snapshot) }
    ensures steps { IfOk result (λ saved. saved.snapshot.steps ≤ 3 * saved.count) }
    ensures count { IfOk result (λ saved. saved.count ≤ TIMES) }
    ensures few { IfOk result (λ saved. length saved.script ≤ EVENTS) }
    ensures events { IfOk result (λ saved. All IsEvent saved.script) }
{
    let found = lines(alloc, bytes)?;
    let all = found.as_slice();
    let next = all.len() as u32 + 1;
    let mut reading = Reading::new(alloc);
    for line in all {
        match reading.take_line(alloc, devices, line.number, part(bytes, line)) {
            Ok(()) => {}
            Err(fault) => return Err(fault),
        }
    }
    reading.into_saved(next)
}
