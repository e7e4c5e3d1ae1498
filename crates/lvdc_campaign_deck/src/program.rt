ghost use Rattle.std.specs.Prelude.{◌≡◌, ◌≢◌, ◌<◌, ◌≤◌, ◌-◌, ◌^◌, length, map, true, All, IfOk, IfErr, OnOk, Ok, Err};
ghost use Rattle.lvdc_map.specs.Memory.{are_rising, AllThere};
ghost use Rattle.lvdc_text.specs.Lines.{lines_of, IsWithin};
ghost use Rattle.lvdc_deck.specs.Deck.{end_of};
ghost use Rattle.lvdc_campaign_deck.specs.declared.TheConstants.{MOST_CAMPAIGN_TIMES};
ghost use Rattle.lvdc_campaign_deck.specs.declared.fault.CampaignFault.TheVariants.{NoMemory as WantsMemory};
ghost use Rattle.lvdc_campaign_deck.specs.Campaign.{checked, program_of};

use crate::{CampaignFault, MOST_CAMPAIGN_TIMES};
use lvdc_deck::{Deck, read_deck_lines};
use lvdc_port::PortDevice;
use lvdc_text::Line;
use std::alloc::Global;

/// Looks for what a deck may say and a campaign's may not.
fn check(deck: &Deck) -> Result<(), CampaignFault>
    ensures ok { OnOk result (checked deck.now ≡ Ok deck.now) }
    ensures refusal { IfErr result (λ fault. checked deck.now ≡ Err fault) }
    ensures count { OnOk result (deck.now.count ≤ MOST_CAMPAIGN_TIMES) }
{
    if let Some(number) = deck.other_line {
        return Err(CampaignFault::BadSection(number));
    }
    if deck.count > MOST_CAMPAIGN_TIMES {
        return Err(CampaignFault::CountTooLarge(deck.run_line));
    }
    Ok(())
}

/// Reads the deck before CAMPAIGN, which was cut into these lines, of which the program's last is at `end`.
pub(crate) fn read_program(
    alloc: Global,
    text: &[u8],
    lines: &[Line],
    end: Option<usize>,
    devices: &Vec<Box<dyn PortDevice>>,
) -> Result<Deck, CampaignFault>
    requires size { length text.now < 2 ^ 32 - 1 }
    requires lines { lines.now ≡ lines_of text.now }
    requires within { All (IsWithin text.now) lines.now }
    requires few { length lines.now ≤ length text.now }
    requires end { end ≡ end_of text.now lines.now }
    ensures program { IfOk result (λ deck. program_of text.now (map device_of devices.now.items) ≡ Ok deck) }
    ensures refusal { IfErr result (λ fault. fault ≢ WantsMemory → program_of text.now (map device_of devices.now.items) ≡ Err fault) }
    ensures count { IfOk result (λ deck. deck.count ≤ MOST_CAMPAIGN_TIMES) }
    ensures rising { IfOk result (λ deck. are_rising deck.image.words ≡ true) }
    ensures there { IfOk result (λ deck. AllThere deck.banks deck.image.words) }
{
    let deck = read_deck_lines(alloc, text, lines, end, devices, false)?;
    match check(&deck) {
        Ok(()) => Ok(deck),
        Err(fault) => Err(fault),
    }
}
