ghost use Rattle.std.specs.Prelude.{◌≡◌, ◌≢◌, ◌≤◌, false, length, map, IfOk};
ghost use Rattle.lvdc_port.specs.Devices.{AreDistinct};
ghost use Rattle.lvdc_reply.specs.Answer.{answer_with};
ghost use Rattle.lvdc_console.specs.declared.words.Inquiry.TheVariants.{Study};
ghost use Rattle.lvdc_console.specs.Words.{most_bytes, IsInquiry};
ghost use Rattle.lvdc_console.specs.Replies.{HoldsFor, IsReplyTo};

use crate::Inquiry;
use lvdc_command_form::form_bytes;
use lvdc_command_study::study_bytes;
use lvdc_port::PortDevice;
use lvdc_reply::Reply;
use lvdc_report::LONGEST_REPORT;
use lvdc_study::Bench;
use lvdc_trace::trace_bytes;
use lvdc_word::NoMemory;
use std::alloc::Global;

/// Answers an inquiry over these bytes and the devices at the ports. The runs of a study have devices of a bench, like these.
pub fn inquire<B: Bench>(
    alloc: Global,
    inquiry: Inquiry,
    bytes: &[u8],
    devices: &mut Vec<Box<dyn PortDevice>>,
    bench: &B,
) -> Result<Reply, NoMemory>
    requires ranges { IsInquiry inquiry }
    requires few { length bytes.now ≤ most_bytes inquiry }
    requires distinct { AreDistinct (map device_of devices.old.items) }
    requires alike { map device_of devices.old.items ≡ B.devices bench.now }

    // Status, text and devices are those of the definition, or those that are due where a device failed in an exchange.
    ensures reply { IfOk result (λ reply. IsReplyTo device_of faults inquiry bytes.now devices.old.items devices.new.items
        (answer_with reply.status reply.text (map device_of devices.new.items))) }

    // A study's runs have devices of the bench. Where none of them may fail, 10 never comes.
    ensures unfailed { IfOk result (λ reply. inquiry ≡ Study → B.may_fail bench.now ≡ false → reply.status ≢ 10) }
    ensures holds { IfOk result (λ reply. HoldsFor inquiry bytes.now (map device_of devices.old.items)) }
    ensures room { IfOk result (λ reply. length reply.text ≤ LONGEST_REPORT) }
{
    match inquiry {
        Inquiry::Trace { mode, window } => trace_bytes(alloc, mode, window, bytes, devices),
        Inquiry::Form => form_bytes(alloc, bytes, devices),
        Inquiry::Study => study_bytes(alloc, bytes, devices, bench),
    }
}
