ghost use Rattle.std.specs.Prelude.{◌≡◌, ◌^◌, ◌≤◌, length, map, All, IfOk, Ok};
ghost use Rattle.lvdc_text.specs.Lines.{IsWithin, part_of};
ghost use Rattle.lvdc_reply.specs.Answer.{refusal_text};
ghost use Rattle.lvdc_uplink.specs.Link.{link_to};
ghost use Rattle.lvdc_uplink.specs.Input.{Request, request_of};
ghost use Rattle.lvdc_uplink.specs.Faults.{name_of, line_of, refusal_status};
ghost use Rattle.lvdc_uplink.specs.Answers.{IsHeard, sent_text, status_of, text_of};
ghost use Rattle.lvdc_uplink.specs.declared.TheConstants.{LONGEST_TEXT};

use crate::input::parts_of;
use crate::send::send;
use crate::{PatchFault, Uplink, doubled_changes_nothing, lines_are_heard};
use lvdc_image::{Image, ImageFault, print_image, read_image};
use lvdc_reply::{Reply, refusal};
use lvdc_text::{Line, lines};
use lvdc_word::{NoMemory, Seq};
use std::alloc::Global;

/// The reply to these lines of the bytes, sent to the image.
fn answer(alloc: Global, image: Image, bytes: &[u8], messages: &[Line]) -> Result<Reply, NoMemory>
    requires within { All (IsWithin bytes.now) messages.now }
    requires few { length messages.now ≤ 2 ^ 20 }
    ensures status { IfOk result (λ reply. reply.status ≡ 0) }
    ensures text { IfOk result (λ reply. reply.text ≡ sent_text (link_to image) (map (part_of bytes.now) messages.now)) }
    ensures short { IfOk result (λ reply. length reply.text ≤ LONGEST_TEXT) }
{
    let mut uplink = Uplink::new(alloc, image)?;
    let mut text = Vec::new(alloc);
    send(&mut uplink, bytes, messages, &mut text)?;
    let patched = print_image(alloc, uplink.image())?;
    text.extend_from_slice(&patched)?;
    Ok(Reply {
        status: 0,
        text: Seq::from_vec(text),
    })
}

/// The reply to refused bytes.
fn refuse(alloc: Global, fault: PatchFault) -> Result<Reply, NoMemory>
    ensures status { IfOk result (λ reply. reply.status ≡ refusal_status fault) }
    ensures text { IfOk result (λ reply. reply.text ≡ refusal_text (name_of fault) (line_of fault)) }
    ensures short { IfOk result (λ reply. length reply.text ≤ LONGEST_TEXT) }
{
    refusal(alloc, fault.status(), fault.name(), fault.line())
}

/// The reply to bytes that hold an image and messages, or are refused.
fn patch(alloc: Global, bytes: &[u8]) -> Result<Reply, NoMemory>
    requires { length bytes.now ≤ 2 ^ 20 }
    ensures status { IfOk result (λ reply. reply.status ≡ status_of (request_of bytes.now)) }
    ensures text { IfOk result (λ reply. reply.text ≡ text_of (request_of bytes.now)) }
    ensures short { IfOk result (λ reply. length reply.text ≤ LONGEST_TEXT) }
{
    let found = lines(alloc, bytes)?;
    let parts = match parts_of(bytes, &found) {
        Ok(parts) => parts,
        Err(fault) => return refuse(alloc, fault),
    };
    match read_image(alloc, bytes, parts.image) {
        Ok(image) => answer(alloc, image, bytes, parts.messages),
        Err(ImageFault::NoMemory) => Err(NoMemory),
        Err(fault) => refuse(alloc, PatchFault::Image(fault)),
    }
}

/// The reply to bytes that hold an image and messages: 0 with the answers and the patched image, or 2 or 4 with the first refusal.
/// It takes no device.
pub fn patch_bytes(alloc: Global, bytes: &[u8]) -> Result<Reply, NoMemory>
    requires { length bytes.now ≤ 2 ^ 20 }
    ensures status { IfOk result (λ reply. reply.status ≡ status_of (request_of bytes.now)) }
    ensures text { IfOk result (λ reply. reply.text ≡ text_of (request_of bytes.now)) }
    ensures short { IfOk result (λ reply. length reply.text ≤ LONGEST_TEXT) }
    // The image is the first one changed by the committed loads, each once, in their order, as whoever hears the answers knows.
    ensures heard { IfOk result (λ reply. (request : Request) → request_of bytes.now ≡ Ok request → IsHeard request reply.text) }
{
    lines_are_heard();
    doubled_changes_nothing();
    patch(alloc, bytes)
}
