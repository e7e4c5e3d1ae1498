ghost use Rattle.std.specs.Prelude.{◌≡◌, ◌≢◌, ◌<◌, ◌≤◌, ◌-◌, ◌^◌, length, map, true, All, IfOk, OnOk};
ghost use Rattle.lvdc_map.specs.Memory.{are_rising, AllThere};
ghost use Rattle.lvdc_reply.specs.Answer.{refusal_text};
ghost use Rattle.lvdc_report.specs.declared.report.TheConstants.{LONGEST_REPORT};
ghost use Rattle.lvdc_fault.specs.declared.TheConstants.{MOST_EVENTS};
ghost use Rattle.lvdc_campaign_deck.specs.declared.TheConstants.{MOST_CAMPAIGN_TIMES, MOST_CAMPAIGN_SCRIPTS};
ghost use Rattle.lvdc_campaign_deck.specs.Campaign.{campaign_of};
ghost use Rattle.lvdc_campaign_deck.specs.Faults.{name_of, line_of};
ghost use Rattle.lvdc_campaign_deck.specs.Scripts.{CanRun};
ghost use Rattle.lvdc_campaign_deck.specs.declared.fault.CampaignFault.TheVariants.{NoMemory as WantsMemory};
ghost use Rattle.lvdc_command_campaign.specs.Answers.{rows_in, fault_status, status_of, text_of, AreSame, AdmissibleAreSame};
ghost use Rattle.lvdc_command_campaign.specs.Texts.{campaign_text};

use crate::text::campaign_text;
use lvdc_campaign::campaign;
use lvdc_campaign_deck::{CampaignDeck, CampaignFault, read_campaign};
use lvdc_port::PortDevice;
use lvdc_reply::{Reply, refusal};
use lvdc_word::{NoMemory, Seq};
use std::alloc::Global;

/// Runs a campaign, and tells its rows.
fn run(alloc: Global, deck: CampaignDeck) -> Result<Reply, NoMemory>
    requires count { deck.count ≤ MOST_CAMPAIGN_TIMES }
    requires rising { are_rising deck.image.words ≡ true }
    requires there { AllThere deck.banks deck.image.words }
    requires few { length deck.scripts ≤ MOST_CAMPAIGN_SCRIPTS }
    requires run { All (CanRun MOST_EVENTS) deck.scripts }
    ensures status { IfOk result (λ reply. reply.status ≡ 0) }
    ensures text { IfOk result (λ reply. reply.text ≡ campaign_text (rows_in deck)) }
    ensures same { OnOk result (AreSame (rows_in deck)) }
    ensures short { IfOk result (λ reply. length reply.text ≤ LONGEST_REPORT) }
{
    let CampaignDeck {
        image,
        start,
        banks,
        orders,
        count,
        scripts,
    } = deck;
    let rows = campaign(
        alloc,
        image.words(),
        start,
        banks,
        &orders,
        count,
        scripts.into_vec(),
    )?;
    let text = campaign_text(alloc, &rows)?;
    Ok(Reply {
        status: 0,
        text: Seq::from_vec(text),
    })
}

/// The reply to a refused campaign, or to a refused study.
pub fn refuse(alloc: Global, fault: CampaignFault) -> Result<Reply, NoMemory>
    ensures refused { OnOk result (fault ≢ WantsMemory) }
    ensures status { IfOk result (λ reply. reply.status ≡ fault_status fault) }
    ensures text { IfOk result (λ reply. reply.text ≡ refusal_text (name_of fault) (line_of fault)) }
    ensures short { IfOk result (λ reply. length reply.text ≤ LONGEST_REPORT) }
{
    match fault {
        CampaignFault::NoMemory => Err(NoMemory),
        CampaignFault::Deck(fault) => lvdc_command_run::refuse(alloc, fault),
        fault => refusal(alloc, 2, fault.name(), fault.line()),
    }
}

/// The reply to a campaign. These devices are those of its deck, and stay as they are: no run has any.
pub fn campaign_bytes(
    alloc: Global,
    bytes: &[u8],
    devices: &Vec<Box<dyn PortDevice>>,
) -> Result<Reply, NoMemory>
    requires { length bytes.now < 2 ^ 32 - 1 }
    // 0 and the rows with their total, or the first refusal and its status.
    ensures status { IfOk result (λ reply. reply.status ≡ status_of (campaign_of bytes.now (map device_of devices.now.items))) }
    ensures text { IfOk result (λ reply. reply.text ≡ text_of (campaign_of bytes.now (map device_of devices.now.items))) }
    // Each row whose script is admissible is the same.
    ensures same { OnOk result (AdmissibleAreSame bytes.now (map device_of devices.now.items)) }
    ensures short { IfOk result (λ reply. length reply.text ≤ LONGEST_REPORT) }
{
    match read_campaign(alloc, bytes, devices) {
        Ok(deck) => run(alloc, deck),
        Err(fault) => refuse(alloc, fault),
    }
}
