ghost use Rattle.std.specs.Prelude.{◌≡◌, ◌<◌, ◌≤◌, ◌-◌, ◌^◌, length, map, true, None, IfOk};
ghost use Rattle.lvdc_port.specs.Devices.{HoldWords};
ghost use Rattle.lvdc_withstands.specs.Form.{masks};
ghost use Rattle.lvdc_reply.specs.Answer.{answer_of};
ghost use Rattle.lvdc_report.specs.declared.report.TheConstants.{LONGEST_REPORT};
ghost use Rattle.lvdc_command_form.specs.Answers.{form_text, unmet_in, form_answer};
ghost use Rattle.lvdc_command_form.specs.Plainly.{RunsAsPlain};

use crate::laws::form_is_answered;
use lvdc_command_run::{opens_with_words, refuse};
use lvdc_deck::{Deck, read_deck};
use lvdc_port::PortDevice;
use lvdc_reply::Reply;
use lvdc_withstands::{Condition, first_unmet};
use lvdc_word::{NoMemory, Seq};
use std::alloc::Global;

/// The line that says whether a script masks by form, by the first condition that it doesn't meet.
fn form_text(unmet: Option<Condition>) -> &'static [u8]
    ensures text { result.now ≡ form_text unmet }
    ensures short { length result.now ≤ 10 }
{
    match unmet {
        None => b"FORM YES\n",
        Some(Condition::Copies) => b"FORM NO 1\n",
        Some(Condition::Pairs) => b"FORM NO 2\n",
        Some(Condition::Places) => b"FORM NO 3\n",
        Some(Condition::Deaths) => b"FORM NO 4\n",
    }
}

/// Tells the form of a deck's script in the deck's run.
fn tell_form(alloc: Global, deck: &Deck) -> Result<Reply, NoMemory>
    ensures status { IfOk result (λ reply. reply.status ≡ 0) }
    ensures text { IfOk result (λ reply. reply.text ≡ form_text (unmet_in deck.now)) }
    ensures masks { IfOk result (λ reply. reply.text ≡ form_text None → masks deck.now.script deck.now.banks deck.now.count ≡ true) }
    ensures short { IfOk result (λ reply. length reply.text ≤ 10) }
{
    let unmet = first_unmet(alloc, &deck.script, deck.banks, deck.count)?;
    let mut text = Vec::new(alloc);
    text.extend_from_slice(form_text(unmet))?;
    Ok(Reply {
        status: 0,
        text: Seq::from_vec(text),
    })
}

/// The reply to a deck, read as `run` reads it: the form of its script, or its refusal. Nothing is run, and the devices stay as
/// they are.
pub fn form_bytes(
    alloc: Global,
    bytes: &[u8],
    devices: &Vec<Box<dyn PortDevice>>,
) -> Result<Reply, NoMemory>
    requires { length bytes.now < 2 ^ 32 - 1 }
    ensures answer { IfOk result (λ reply. answer_of reply (map device_of devices.now.items)
        ≡ form_answer bytes.now (map device_of devices.now.items)) }

    // Where it is FORM YES, `run` answers the same bytes as `run --plain` does, but for the lines of what the redundancy did: its
    // status isn't 5, and no word is a question mark.
    ensures plain { IfOk result (λ reply. reply.text ≡ form_text None → HoldWords (map device_of devices.now.items)
        → RunsAsPlain bytes.now (map device_of devices.now.items)) }
    ensures short { IfOk result (λ reply. length reply.text ≤ LONGEST_REPORT) }
{
    match read_deck(alloc, bytes, devices, false) {
        Ok(deck) => {
            opens_with_words(&deck);
            form_is_answered();
            tell_form(alloc, &deck)
        }
        Err(fault) => refuse(alloc, fault),
    }
}
