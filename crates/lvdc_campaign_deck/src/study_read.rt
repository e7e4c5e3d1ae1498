ghost use Rattle.std.specs.Prelude.{◌≡◌, ◌≢◌, ◌<◌, ◌≤◌, ◌-◌, ◌*◌, ◌^◌, length, map, true, IfOk, IfErr, All, Ok, Err};
ghost use Rattle.lvdc_map.specs.Memory.{are_rising, AllThere};
ghost use Rattle.lvdc_fault.specs.Events.{IsEvent};
ghost use Rattle.lvdc_fault.specs.declared.TheConstants.{MOST_TIMES, MOST_EVENTS};
ghost use Rattle.lvdc_text.specs.Lines.{lines_of, IsWithin};
ghost use Rattle.lvdc_deck.specs.Deck.{end_of};
ghost use Rattle.lvdc_campaign_deck.specs.declared.fault.CampaignFault.TheVariants.{NoMemory as WantsMemory};
ghost use Rattle.lvdc_campaign_deck.specs.Scripts.{CanRun};
ghost use Rattle.lvdc_campaign_deck.specs.declared.TheConstants.{MOST_STUDY_SCRIPTS, MOST_TIMES_IN_ALL};
ghost use Rattle.lvdc_campaign_deck.specs.Study.{program_of, by_times, study_of};

use crate::layout::before_campaign;
use crate::study_layout::other_line;
use crate::{
    CampaignFault, MOST_STUDY_SCRIPTS, MOST_TIMES_IN_ALL, StudyDeck, from_campaign, read_scripts,
};
use lvdc_deck::{Deck, end_of, lines_after, read_deck_lines};
use lvdc_fault::Named;
use lvdc_port::PortDevice;
use lvdc_text::{Line, lines};
use lvdc_word::Seq;
use std::alloc::Global;

/// Reads the deck before CAMPAIGN, which was cut into these lines. The program's last is at `end`, and `other` is the first line
/// FAULTS or DEBUG.
fn read_program(
    alloc: Global,
    text: &[u8],
    lines: &[Line],
    end: Option<usize>,
    devices: &Vec<Box<dyn PortDevice>>,
    other: Option<u32>,
) -> Result<Deck, CampaignFault>
    requires size { length text.now < 2 ^ 32 - 1 }
    requires lines { lines.now ≡ lines_of text.now }
    requires within { All (IsWithin text.now) lines.now }
    requires few { length lines.now ≤ length text.now }
    requires end { end ≡ end_of text.now lines.now }
    ensures program { IfOk result (λ deck. program_of text.now (map device_of devices.now.items) other ≡ Ok deck) }
    ensures refusal { IfErr result (λ fault. fault ≢ WantsMemory →
        program_of text.now (map device_of devices.now.items) other ≡ Err fault) }
    ensures count { IfOk result (λ deck. deck.count ≤ MOST_TIMES) }
    ensures rising { IfOk result (λ deck. are_rising deck.image.words ≡ true) }
    ensures there { IfOk result (λ deck. AllThere deck.banks deck.image.words) }
    ensures few { IfOk result (λ deck. length deck.script ≤ MOST_EVENTS) }
    ensures events { IfOk result (λ deck. All IsEvent deck.script) }
{
    let deck = read_deck_lines(alloc, text, lines, end, devices, false)?;
    match other {
        Some(number) => Err(CampaignFault::BadSection(number)),
        None => Ok(deck),
    }
}

/// What the deck and the scripts ask for, unless it is too much in all.
fn join(deck: Deck, scripts: Vec<Named>) -> Result<StudyDeck, CampaignFault>
    requires count { deck.count ≤ MOST_TIMES }
    requires few { length scripts.items ≤ MOST_STUDY_SCRIPTS }
    ensures study { result ≡ by_times deck scripts.items }
    ensures deck { IfOk result (λ study. study.deck ≡ deck) }
    ensures scripts { IfOk result (λ study. study.scripts ≡ scripts.items) }
    ensures times { IfOk result (λ study. study.deck.count * length study.scripts ≤ MOST_TIMES_IN_ALL) }
{
    if deck.count * scripts.len() as u64 > MOST_TIMES_IN_ALL {
        return Err(CampaignFault::CountTooLarge(deck.run_line));
    }
    Ok(StudyDeck {
        deck,
        scripts: Seq::from_vec(scripts),
    })
}

/// Reads the bytes as the deck of a study over these devices, which stay as they are: their kinds say where a TAPE or an UNPLUG
/// line may stand.
pub fn read_study(
    alloc: Global,
    bytes: &[u8],
    devices: &Vec<Box<dyn PortDevice>>,
) -> Result<StudyDeck, CampaignFault>
    requires { length bytes.now < 2 ^ 32 - 1 }
    // Each refusal comes where it is the first.
    ensures study { IfOk result (λ study. study_of bytes.now (map device_of devices.now.items) ≡ Ok study) }
    ensures refusal { IfErr result (λ fault. fault ≢ WantsMemory → study_of bytes.now (map device_of devices.now.items) ≡ Err fault) }
    ensures count { IfOk result (λ study. study.deck.count ≤ MOST_TIMES) }
    ensures rising { IfOk result (λ study. are_rising study.deck.image.words ≡ true) }
    ensures there { IfOk result (λ study. AllThere study.deck.banks study.deck.image.words) }
    ensures few_events { IfOk result (λ study. length study.deck.script ≤ MOST_EVENTS) }
    ensures events { IfOk result (λ study. All IsEvent study.deck.script) }
    ensures few { IfOk result (λ study. length study.scripts ≤ MOST_STUDY_SCRIPTS) }
    ensures times { IfOk result (λ study. study.deck.count * length study.scripts ≤ MOST_TIMES_IN_ALL) }
    ensures run { IfOk result (λ study. All (CanRun MOST_EVENTS) study.scripts) }
{
    let found = lines(alloc, bytes)?;
    let next = found.len() as u32 + 1;
    let end = end_of(bytes, &found);
    let after = lines_after(&found, end);
    let other = other_line(bytes, after);
    let from = from_campaign(bytes, after);
    let before = before_campaign(bytes, &found, from);
    match from {
        [line, rest @ ..] => {
            let deck = match read_program(
                alloc,
                &bytes[..line.start],
                before,
                end,
                devices,
                other,
            ) {
                Ok(deck) => deck,
                Err(fault) => return Err(fault),
            };
            match read_scripts(alloc, bytes, rest, MOST_STUDY_SCRIPTS) {
                Ok(scripts) => join(deck, scripts),
                Err(fault) => Err(fault),
            }
        }
        [] => match read_program(alloc, bytes, &found, end, devices, other) {
            Ok(_) => Err(CampaignFault::BadSection(next)),
            Err(fault) => Err(fault),
        },
    }
}
