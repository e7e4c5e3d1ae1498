//! The devices of a saved run are given their states.

ghost use Rattle.std.specs.Prelude.{◌≡◌, ◌≢◌, ℕ, ◌+◌, [], ◌∷◌, length, map, OnOk, OnErr, IfErr, Some};
ghost use Rattle.lvdc_port.specs.Devices.{HasSpare, AreDistinct};
ghost use Rattle.lvdc_port.specs.Supplies.{kind_at};
ghost use Rattle.lvdc_port.specs.declared.device.Kind.TheVariants.{Tape as TapeKind};
ghost use Rattle.lvdc_plain.specs.Lists.{Since};
ghost use Rattle.lvdc_command_resume.specs.declared.restore.Unrestored.TheVariants.{NoMemory as WantsMemory};
ghost use Rattle.lvdc_command_resume.specs.Restore.{left_before, left_of, after_state, with_states, time_of, devices_of, WereTold, HasRefused, HaveRefused};

use lvdc_plain::Unplug;
use lvdc_port::{
    Kind, PortDevice, PortRequest, Supply, exchange, kind_at, prepare_all, supply_all, unplug,
    word_of_time,
};
use lvdc_save::Saved;
use lvdc_word::{NoMemory, Word};

/// Why the devices haven't all their states.
#[derive(Clone, Copy, PartialEq, Eq)]
pub enum Unrestored {
    /// There was no memory.
    NoMemory,
    /// The device at this port failed.
    Failed(u8),
}

impl From<NoMemory> for Unrestored {
    ghost from_gives = { λ _ e. e ≡ WantsMemory };

    fn from(_: NoMemory) -> Unrestored {
        Unrestored::NoMemory
    }
}

/// Removes the devices that lines with a time below this one take away.
fn unplug_before(devices: &mut Vec<Box<dyn PortDevice>>, unplugs: &[Unplug], times: u64)
    requires distinct { AreDistinct (map device_of devices.old.items) }
    ensures left { map device_of devices.new.items ≡ left_before unplugs.now times (map device_of devices.old.items) }
    ensures since { Since device_of faults devices.old.items devices.new.items }
    ensures told { Since device_of told devices.old.items devices.new.items }
{
    for line in unplugs {
        if line.time < times {
            unplug(devices, line.port);
        }
    }
}

/// Writes a word to the device at its port.
fn write_word(
    devices: &mut Vec<Box<dyn PortDevice>>,
    time: Word,
    state: &Supply,
) -> Result<(), Unrestored>
    requires room { HasSpare spare 1 devices.old.items }
    requires kind { kind_at device_of state.now.port devices.old.items ≢ Some TapeKind }
    ensures ok { OnOk result (map device_of devices.new.items ≡ after_state state.now (map device_of devices.old.items)) }
    ensures err { OnErr result (map device_of devices.new.items ≡ map device_of devices.old.items) }
    ensures since { OnOk result (Since device_of faults devices.old.items devices.new.items) }
    ensures refused { IfErr result (λ e. HasRefused device_of faults state.now.port e devices.old.items devices.new.items) }
    ensures told { OnOk result (WereTold device_of told time (state.now ∷ []) devices.old.items devices.new.items) }
    ensures spare { (n : ℕ) → HasSpare spare (n + 1) devices.old.items → HasSpare spare n devices.new.items }
{
    let request = PortRequest::Write {
        port: state.port,
        word: state.word,
    };
    match exchange(devices, time, request) {
        Ok(_) => Ok(()),
        Err(fault) => Err(Unrestored::Failed(fault.port)),
    }
}

/// Supplies a word to the tape at its port.
fn supply_word(devices: &mut Vec<Box<dyn PortDevice>>, state: &Supply) -> Result<(), Unrestored>
    requires kind { kind_at device_of state.now.port devices.old.items ≡ Some TapeKind }
    ensures ok { OnOk result (map device_of devices.new.items ≡ after_state state.now (map device_of devices.old.items)) }
    ensures err { OnErr result (map device_of devices.new.items ≡ map device_of devices.old.items) }
    ensures since { OnOk result (Since device_of faults devices.old.items devices.new.items) }
    ensures refused { IfErr result (λ e. HasRefused device_of faults state.now.port e devices.old.items devices.new.items) }
    ensures told { Since device_of told devices.old.items devices.new.items }
    ensures spare { (n : ℕ) → HasSpare spare n devices.old.items → HasSpare spare n devices.new.items }
{
    let words = [Supply {
        port: state.port,
        word: state.word,
    }];
    match supply_all(devices, &words) {
        Ok(()) => Ok(()),
        Err(NoMemory) => Err(Unrestored::NoMemory),
    }
}

/// Gives a word of its state to the device at its port.
fn give_word(
    devices: &mut Vec<Box<dyn PortDevice>>,
    time: Word,
    state: &Supply,
) -> Result<(), Unrestored>
    requires room { HasSpare spare 1 devices.old.items }
    ensures ok { OnOk result (map device_of devices.new.items ≡ after_state state.now (map device_of devices.old.items)) }
    ensures err { OnErr result (map device_of devices.new.items ≡ map device_of devices.old.items) }
    ensures since { OnOk result (Since device_of faults devices.old.items devices.new.items) }
    ensures refused { IfErr result (λ e. HasRefused device_of faults state.now.port e devices.old.items devices.new.items) }
    ensures told { OnOk result (WereTold device_of told time (state.now ∷ []) devices.old.items devices.new.items) }
    ensures spare { (n : ℕ) → HasSpare spare (n + 1) devices.old.items → HasSpare spare n devices.new.items }
{
    match kind_at(devices, state.port) {
        Some(Kind::Tape) => supply_word(devices, state),
        _ => write_word(devices, time, state),
    }
}

/// Gives the words of a saved run to the devices at their ports, in their order, at this time.
fn give_words(
    devices: &mut Vec<Box<dyn PortDevice>>,
    time: Word,
    saved: &Saved,
) -> Result<(), Unrestored>
    requires room { HasSpare spare (length saved.now.states) devices.old.items }
    ensures ok { OnOk result (map device_of devices.new.items ≡ with_states saved.now.states (map device_of devices.old.items)) }
    ensures since { OnOk result (Since device_of faults devices.old.items devices.new.items) }
    ensures refused { IfErr result (λ e. HaveRefused device_of faults saved.now.states (map device_of devices.old.items) e devices.old.items devices.new.items) }
    ensures told { OnOk result (WereTold device_of told time saved.now.states devices.old.items devices.new.items) }
{
    let states = saved.states.items();
    for state in states {
        match give_word(devices, time, state) {
            Ok(()) => {}
            Err(refused) => return Err(refused),
        }
    }
    Ok(())
}

/// Makes of these devices those of a saved run: some are unplugged, and the others are given their states. A word is written at
/// the time at which the run goes on.
pub fn restore_devices(
    devices: &mut Vec<Box<dyn PortDevice>>,
    saved: &Saved,
) -> Result<(), Unrestored>
    requires distinct { AreDistinct (map device_of devices.old.items) }
    ensures ok { OnOk result (map device_of devices.new.items ≡ devices_of saved.now (map device_of devices.old.items)) }
    ensures distinct { OnOk result (AreDistinct (map device_of devices.new.items)) }

    // A device that looks at the time of a write was told that time with the last word that was written to it.
    ensures told { OnOk result (WereTold device_of told (time_of saved.now) saved.now.states devices.old.items devices.new.items) }

    // No count of faults of a device that is left has grown; or it is that of the device that has failed.
    ensures since { OnOk result (Since device_of faults devices.old.items devices.new.items) }
    ensures refused { IfErr result (λ e. HaveRefused device_of faults saved.now.states (left_of saved.now (map device_of devices.old.items)) e devices.old.items devices.new.items) }
{
    let times = saved.snapshot.steps / 3;
    unplug_before(devices, saved.unplugs.items(), times);
    match prepare_all(devices, saved.states.items().len() as u64) {
        Ok(()) => give_words(devices, word_of_time(times), saved),
        Err(NoMemory) => Err(Unrestored::NoMemory),
    }
}
