ghost use Rattle.std.specs.Prelude.{◌≡◌, ◌≢◌, ◌<◌, ◌≤◌, ◌-◌, ◌^◌, length, map, true, IfOk, IfErr, All, Ok, Err};
ghost use Rattle.lvdc_map.specs.Memory.{are_rising, AllThere};
ghost use Rattle.lvdc_fault.specs.declared.TheConstants.{MOST_EVENTS};
ghost use Rattle.lvdc_campaign_deck.specs.declared.TheConstants.{MOST_CAMPAIGN_TIMES, MOST_CAMPAIGN_SCRIPTS};
ghost use Rattle.lvdc_campaign_deck.specs.declared.fault.CampaignFault.TheVariants.{NoMemory as WantsMemory};
ghost use Rattle.lvdc_campaign_deck.specs.Campaign.{campaign_of, campaign_with};
ghost use Rattle.lvdc_campaign_deck.specs.Scripts.{CanRun};

use crate::layout::{before_campaign, from_campaign};
use crate::program::read_program;
use crate::scripts::read_scripts;
use crate::{CampaignDeck, CampaignFault, MOST_CAMPAIGN_SCRIPTS};
use lvdc_deck::{Deck, end_of, lines_after};
use lvdc_fault::Named;
use lvdc_port::PortDevice;
use lvdc_text::lines;
use lvdc_word::Seq;
use std::alloc::Global;

/// What the deck and the scripts ask for.
fn join(deck: Deck, scripts: Vec<Named>) -> CampaignDeck
    ensures { result ≡ campaign_with deck scripts.items }
{
    let Deck {
        image,
        start,
        banks,
        orders,
        count,
        ..
    } = deck;
    CampaignDeck {
        image,
        start,
        banks,
        orders,
        count,
        scripts: Seq::from_vec(scripts),
    }
}

/// Reads the bytes as the deck of a campaign. These devices, which stay as they are, are those of the deck before CAMPAIGN: no run
/// has any.
pub fn read_campaign(
    alloc: Global,
    bytes: &[u8],
    devices: &Vec<Box<dyn PortDevice>>,
) -> Result<CampaignDeck, CampaignFault>
    requires { length bytes.now < 2 ^ 32 - 1 }
    // Each refusal comes where it is the first.
    ensures deck { IfOk result (λ deck. campaign_of bytes.now (map device_of devices.now.items) ≡ Ok deck) }
    ensures refusal { IfErr result (λ fault. fault ≢ WantsMemory → campaign_of bytes.now (map device_of devices.now.items) ≡ Err fault) }
    ensures count { IfOk result (λ deck. deck.count ≤ MOST_CAMPAIGN_TIMES) }
    ensures rising { IfOk result (λ deck. are_rising deck.image.words ≡ true) }
    ensures there { IfOk result (λ deck. AllThere deck.banks deck.image.words) }
    ensures few { IfOk result (λ deck. length deck.scripts ≤ MOST_CAMPAIGN_SCRIPTS) }
    ensures run { IfOk result (λ deck. All (CanRun MOST_EVENTS) deck.scripts) }
{
    let found = lines(alloc, bytes)?;
    let next = found.len() as u32 + 1;
    let end = end_of(bytes, &found);
    let from = from_campaign(bytes, lines_after(&found, end));
    let before = before_campaign(bytes, &found, from);
    match from {
        [line, rest @ ..] => {
            let deck = match read_program(alloc, &bytes[..line.start], before, end, devices) {
                Ok(deck) => deck,
                Err(fault) => return Err(fault),
            };
            match read_scripts(alloc, bytes, rest, MOST_CAMPAIGN_SCRIPTS) {
                Ok(scripts) => Ok(join(deck, scripts)),
                Err(fault) => Err(fault),
            }
        }
        [] => match read_program(alloc, bytes, &found, end, devices) {
            Ok(_) => Err(CampaignFault::BadSection(next)),
            Err(fault) => Err(fault),
        },
    }
}
