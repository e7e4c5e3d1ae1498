ghost use Rattle.std.specs.Prelude.{◌≡◌, ◌+◌, ◌≤◌, ◌<◌, ◌^◌, ℕ, ◌↔◌, List, All, IsTrue, map, OnOk, OnErr, IfOk, IfErr, MatchOption};
ghost use Rattle.lvdc_port.specs.Causes.{HasCause, Rose, IsSaidOf};
ghost use Rattle.lvdc_port.specs.Device.{Device, AreWords};
ghost use Rattle.lvdc_port.specs.declared.device.Kind.TheVariants.{Recorder};
ghost use Rattle.lvdc_port.specs.declared.requests.PortRequest.{PortRequest};
ghost use Rattle.lvdc_port.specs.declared.requests.Supply.{Supply};
ghost use Rattle.lvdc_port.specs.Devices.{port_of, answer_of, after_request, exchange_word, after_exchange, without, has_port, count_at, OthersKept, HasSpare, HoldWords, CarriesWord, RoomFor, RoomAt};
ghost use Rattle.lvdc_port.specs.Places.{IsFirstAt, Lacks};
ghost use Rattle.lvdc_port.specs.Supplies.{HasRecorder, supplied};
ghost use Rattle.lvdc_port.specs.Times.{told_by};

use crate::device::{Failed, PortDevice};
use lvdc_word::{NoMemory, Word};
use thiserror::Error;

/// A word to be put behind those that the tape at a port still has.
#[derive(Clone, Copy)]
pub struct Supply {
    pub port: u8,
    pub word: Word,
}

/// What is asked of the device at a port.
#[derive(Clone, Copy)]
pub enum PortRequest {
    Read { port: u8 },
    Write { port: u8, word: Word },
}

/// The device at this port failed, and then had this count of faults.
#[derive(Clone, Copy, Debug, PartialEq, Eq, Error)]
#[error("the device at port {port:03o} failed; it has counted {faults} faults")]
pub struct DeviceFault {
    pub port: u8,
    pub faults: u64,
}

impl PortRequest {
    /// The port that the request names, 000 to 377 octal.
    pub fn port(&self) -> u8
        ensures { result ≡ port_of self.now }
    {
        match self {
            PortRequest::Read { port } => *port,
            PortRequest::Write { port, .. } => *port,
        }
    }
}

fn is_at(device: &Box<dyn PortDevice>, port: u8) -> bool
    ensures { IsTrue result ↔ ((device_of device.now).port ≡ port) }
{
    device.port() == port
}

fn faults_of(device: &Box<dyn PortDevice>) -> u64
    ensures { IsSaidOf (faults device.now) result }
{
    device.faults()
}

fn prepare(device: &mut Box<dyn PortDevice>, writes: u64) -> Result<(), NoMemory>
    ensures ok { OnOk result (writes ≤ spare device.new) }
    ensures device { device_of device.new ≡ device_of device.old }
    ensures words { AreWords (device_of device.new).state }
    ensures faults { faults device.new ≡ faults device.old }
    ensures told { told device.new ≡ told device.old }
    ensures want { OnErr result ((device_of device.old).kind ≡ Recorder) }
{
    device.prepare(writes)
}

pub(crate) fn place_of(devices: &[Box<dyn PortDevice>], port: u8) -> Option<usize>
    ensures { MatchOption result (Lacks device_of port devices.now)
        (IsFirstAt device_of port devices.now) }
{
    for (at, device) in devices.iter().enumerate() {
        if is_at(device, port) {
            return Some(at);
        }
    }
    None
}

fn serve(
    device: &mut Box<dyn PortDevice>,
    time: Word,
    request: &PortRequest,
) -> Result<Word, Failed>
    requires { RoomFor request.now (spare device.old) }
    ensures word { IfOk result (λ word. word ≡ answer_of request.now time (device_of device.old)) }
    ensures ok { OnOk result (device_of device.new
        ≡ after_request request.now (device_of device.old)) }
    ensures err { OnErr result (device_of device.new ≡ device_of device.old) }
    ensures spare { spare device.old ≤ spare device.new + 1 }
    ensures spare_err { OnErr result (spare device.new ≡ spare device.old) }
    ensures told { OnOk result (told device.new ≡ told_by request.now time (told device.old)) }
    ensures told_err { OnErr result (told device.new ≡ told device.old) }
    ensures cause { HasCause (faults device.old) (faults device.new) result }
{
    match request {
        PortRequest::Read { .. } => device.read(time),
        PortRequest::Write { word, .. } => match device.write(time, *word) {
            Ok(()) => Ok(Word::ZERO),
            Err(failed) => Err(failed),
        },
    }
}

/// Makes the request of the device at its port. Without one a read answers 0 and a write is lost.
/// A write answers 0.
pub fn exchange(
    devices: &mut Vec<Box<dyn PortDevice>>,
    time: Word,
    request: PortRequest,
) -> Result<Word, DeviceFault>
    requires { RoomAt device_of spare request devices.old.items }

    // The device at the port does what its kind says, or fails and stays.
    ensures word { IfOk result (λ word. word
        ≡ exchange_word request time (map device_of devices.old.items)) }
    ensures ok { OnOk result (map device_of devices.new.items
        ≡ after_exchange request (map device_of devices.old.items)) }
    ensures err { OnErr result (map device_of devices.new.items ≡ map device_of devices.old.items) }

    // Every other device is the same object as before.
    ensures others { OthersKept device_of (port_of request) devices.old.items devices.new.items }

    // Room falls at the port alone, by one at most, and not where the device failed.
    ensures spare_at { count_at device_of spare (port_of request) devices.old.items
        ≤ count_at device_of spare (port_of request) devices.new.items + 1 }
    ensures spare { (n : ℕ) → HasSpare spare (n + 1) devices.old.items
        → HasSpare spare n devices.new.items }
    ensures spare_err { OnErr result (map spare devices.new.items ≡ map spare devices.old.items) }

    // With a word that it takes, a device that looks at the time of a write is told this one. A read tells it nothing.
    ensures told { OnOk result (count_at device_of told (port_of request) devices.new.items
        ≡ told_by request time (count_at device_of told (port_of request) devices.old.items)) }
    ensures told_err { OnErr result (map told devices.new.items ≡ map told devices.old.items) }

    // No count of faults grows but that of the device that the fault names.
    ensures faults { OnOk result (map faults devices.new.items ≡ map faults devices.old.items) }
    ensures fault { IfErr result (λ fault. (fault.port ≡ port_of request)
        × (fault.faults ≡ count_at device_of faults fault.port devices.new.items)
        × Rose (count_at device_of faults fault.port devices.old.items) fault.faults) }
{
    let port = request.port();
    let Some(at) = place_of(devices, port) else {
        return Ok(Word::ZERO);
    };
    let device = &mut devices[at];
    match serve(device, time, &request) {
        Ok(word) => Ok(word),
        Err(Failed) => Err(DeviceFault {
            port,
            faults: faults_of(device),
        }),
    }
}

/// Removes the device at this port, 000 to 377 octal, and drops it. Says whether there was one.
pub fn unplug(devices: &mut Vec<Box<dyn PortDevice>>, port: u8) -> bool
    // True of every port. Rattle takes a public call that is lent the list, with no condition, for one that may make a box.
    requires { port < 2 ^ 8 }
    ensures removed { devices.new.items ≡ without device_of port devices.old.items }
    ensures found { result ≡ has_port device_of port devices.old.items }
{
    match place_of(devices, port) {
        Some(at) => {
            devices.remove(at);
            true
        }
        None => false,
    }
}

fn prepare_each(devices: &mut [Box<dyn PortDevice>], writes: u64) -> Result<(), NoMemory>
    ensures ok { OnOk result (HasSpare spare writes devices.new) }
    ensures words { OnOk result (HoldWords (map device_of devices.new)) }
    ensures devices { map device_of devices.new ≡ map device_of devices.old }
    ensures faults { map faults devices.new ≡ map faults devices.old }
    ensures told { map told devices.new ≡ map told devices.old }
    ensures want { OnErr result (HasRecorder (map device_of devices.old)) }
{
    for device in devices.iter_mut() {
        match prepare(device, writes) {
            Ok(()) => {}
            Err(NoMemory) => return Err(NoMemory),
        }
    }
    Ok(())
}

/// Makes room for so many writes in each device. After a want of memory some devices may have more room than before.
pub fn prepare_all(devices: &mut Vec<Box<dyn PortDevice>>, writes: u64) -> Result<(), NoMemory>
    // True of every number of writes, and there for the same reason as the condition of `unplug`.
    requires { writes < 2 ^ 64 }
    ensures ok { OnOk result (HasSpare spare writes devices.new.items) }
    ensures words { OnOk result (HoldWords (map device_of devices.new.items)) }
    ensures devices { map device_of devices.new.items ≡ map device_of devices.old.items }
    ensures faults { map faults devices.new.items ≡ map faults devices.old.items }
    ensures told { map told devices.new.items ≡ map told devices.old.items }

    // Only a recorder keeps what is written, so without one there is no want of memory.
    ensures want { OnErr result (HasRecorder (map device_of devices.old.items)) }
{
    prepare_each(devices, writes)
}

/// Plain devices that hold words answer words to a time that is one, and hold words after an exchange, without one of them, and
/// after words were supplied.
pub fn words_stay()
    ensures answer { (request : PortRequest) (time : ℕ) (devices : List Device) → HoldWords devices
        → time < 2 ^ 26 → exchange_word request time devices < 2 ^ 26 }
    ensures exchange { (request : PortRequest) (devices : List Device) → HoldWords devices
        → CarriesWord request → HoldWords (after_exchange request devices) }
    ensures unplug { (port : ℕ) (devices : List Device) → HoldWords devices
        → HoldWords (without (λ device. device) port devices) }
    ensures supply { (supplies : List Supply) (devices : List Device) → All (λ supply. supply.word < 2 ^ 26) supplies
        → HoldWords devices → HoldWords (supplied supplies devices) }
{}
