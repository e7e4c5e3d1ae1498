ghost use Rattle.std.specs.Prelude.{◌≡◌, ℕ, ◌+◌, map, OnOk, OnErr, IfOk, IfErr};
ghost use Rattle.lvdc_port.specs.Device.{word_of_time};
ghost use Rattle.lvdc_port.specs.Devices.{port_of, exchange_word, after_exchange, HasSpare, AreDistinct};
ghost use Rattle.lvdc_plain.specs.Lists.{Since};
ghost use Rattle.lvdc_machine.specs.Causes.{Fails};

use lvdc_port::{PortDevice, PortRequest, exchange, word_of_time};
use lvdc_word::Word;

/// Makes a port exchange in this instruction time. A write answers 0. An error is the port of the device that failed.
pub fn answer(
    devices: &mut Vec<Box<dyn PortDevice>>,
    time: u64,
    request: PortRequest,
) -> Result<Word, u8>
    requires distinct { AreDistinct (map device_of devices.old.items) }
    requires room { HasSpare spare 1 devices.old.items }
    ensures word { IfOk result (λ word. word ≡ exchange_word request (word_of_time time) (map device_of devices.old.items)) }
    ensures ok { OnOk result (map device_of devices.new.items ≡ after_exchange request (map device_of devices.old.items)) }
    ensures since { OnOk result (Since device_of faults devices.old.items devices.new.items) }
    ensures named { IfErr result (λ port. port ≡ port_of request) }
    ensures fails { IfErr result (λ port. Fails device_of faults port devices.old.items devices.new.items) }

    // What stays of ports and room.
    ensures distinct { AreDistinct (map device_of devices.new.items) }
    ensures spare { (n : ℕ) → HasSpare spare (n + 1) devices.old.items → HasSpare spare n devices.new.items }
    ensures spare_err { (n : ℕ) → OnErr result (HasSpare spare n devices.old.items → HasSpare spare n devices.new.items) }
{
    match exchange(devices, word_of_time(time), request) {
        Ok(word) => Ok(word),
        Err(fault) => Err(fault.port),
    }
}
