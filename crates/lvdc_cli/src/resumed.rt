ghost use Rattle.std.specs.Prelude.{◌≡◌, ◌≢◌, ◌-◌, ◌^◌, ◌<◌, ◌≤◌, ℕ, List, length, map, IfOk, OnErr};
ghost use Rattle.lvdc_port.specs.Device.{Device};
ghost use Rattle.lvdc_port.specs.Devices.{AreDistinct};
ghost use Rattle.lvdc_reply.specs.Answer.{answer_with};
ghost use Rattle.lvdc_command_run.specs.Answers.{job_answer};
ghost use Rattle.lvdc_command_run.specs.declared.job.Engine.TheVariants.{Guarded};
ghost use Rattle.lvdc_command_run.specs.declared.job.Job.TheVariants.{Deck};
ghost use Rattle.lvdc_command_save.specs.Halves.{IsSaveOf};
ghost use Rattle.lvdc_command_resume.specs.Replies.{IsResumeReply, IsUnresumed};
ghost use Rattle.lvdc_command_resume.specs.Reordered.{IsAnswerReordered};
ghost use Rattle.lvdc_command_resume.specs.declared.reply.TheConstants.{LIMIT, ROOM};
ghost use Rattle.lvdc_cli.specs.Alike.{AreAlike, AreAlikeInAnyOrder};

use crate::halves::saved_tells_run;
use lvdc_command_resume::resume_bytes;
use lvdc_port::PortDevice;
use lvdc_reply::Reply;
use lvdc_word::NoMemory;
use std::alloc::Global;

/// The reply to a saved text over the devices at the ports.
pub fn resume_saved(
    alloc: Global,
    bytes: &[u8],
    devices: &mut Vec<Box<dyn PortDevice>>,
) -> Result<Reply, NoMemory>
    requires few { length bytes.now < 2 ^ 32 - 1 }
    requires distinct { AreDistinct (map device_of devices.old.items) }
    ensures reply { IfOk result (λ reply. IsResumeReply device_of faults bytes.now devices.old.items devices.new.items
        (answer_with reply.status reply.text (map device_of devices.new.items))) }
    ensures unanswered { OnErr result (IsUnresumed device_of faults bytes.now devices.old.items devices.new.items) }
    ensures room { IfOk result (λ reply. length bytes.now ≤ LIMIT → length reply.text ≤ ROOM) }

    // Where `save` wrote the text, status, text and devices are those of `run` over the deck and the devices that were handed in, unless
    // a device fails.
    ensures halves { IfOk result (λ reply. (number : ℕ) (deck_bytes : List ℕ) (before : List Device) → IsSaveOf number deck_bytes before bytes.now
        → AreAlike before (map device_of devices.old.items) → reply.status ≢ 10
        → answer_with reply.status reply.text (map device_of devices.new.items) ≡ job_answer (Deck Guarded) deck_bytes before) }

    // The same where the devices stand in another order than those that were handed in: then it leaves the same devices in some order.
    ensures any_order { IfOk result (λ reply. (number : ℕ) (deck_bytes : List ℕ) (before : List Device) → IsSaveOf number deck_bytes before bytes.now
        → AreAlikeInAnyOrder before (map device_of devices.old.items) → reply.status ≢ 10
        → IsAnswerReordered (job_answer (Deck Guarded) deck_bytes before) (answer_with reply.status reply.text (map device_of devices.new.items))) }
{
    saved_tells_run();
    let reply = resume_bytes(alloc, bytes, devices)?;
    Ok(reply)
}
