ghost use Rattle.std.specs.Prelude.{◌≡◌, ◌≢◌, ◌≤◌, length};
ghost use Rattle.lvdc_deck.specs.declared.fault.DeckFault.TheVariants.{NoMemory as DeckWantsMemory};
ghost use Rattle.lvdc_campaign_deck.specs.declared.fault.CampaignFault.TheVariants.{NoMemory as WantsMemory, Deck as InDeck};

use lvdc_deck::DeckFault;
use lvdc_word::NoMemory;
use std::alloc::{AllocError, AllocFailed};
use thiserror::Error;

/// Why bytes are no campaign, or no study: the first refusal, and its line.
#[derive(Clone, Copy, Debug, Error)]
pub enum CampaignFault {
    /// There was no memory for what the deck says.
    #[error("no memory")]
    NoMemory,
    /// The deck before CAMPAIGN is refused.
    #[error(transparent)]
    Deck(DeckFault),
    /// The line opens a section that isn't allowed before CAMPAIGN; or CAMPAIGN is missing.
    #[error("line {0} is out of its section")]
    BadSection(u32),
    /// The line is no script's, names none anew, or has above 120 bytes.
    #[error("line {0} has a wrong form")]
    BadLine(u32),
    /// More instruction times are asked for than are allowed.
    #[error("the count on line {0} is too large")]
    CountTooLarge(u32),
    /// There are more scripts than are allowed.
    #[error("the script on line {0} is one too many")]
    TooManyScripts(u32),
    /// The scripts have more than 65,536 events together.
    #[error("the event on line {0} is one too many")]
    TooManyEvents(u32),
}

impl CampaignFault {
    ghost use Rattle.lvdc_campaign_deck.specs.Faults.{name_of, line_of};

    /// The name of the cause, as a refusal tells it; that of the deck is told by its own.
    pub fn name(&self) -> &'static [u8]
        ensures name { result.now ≡ name_of self.now }
        ensures short { length result.now ≤ 16 }
    {
        match self {
            CampaignFault::NoMemory => b"NoMemory",
            CampaignFault::Deck(fault) => fault.name(),
            CampaignFault::BadSection(_) => b"BadSection",
            CampaignFault::BadLine(_) => b"BadLine",
            CampaignFault::CountTooLarge(_) => b"CountTooLarge",
            CampaignFault::TooManyScripts(_) => b"TooManyScripts",
            CampaignFault::TooManyEvents(_) => b"TooManyEvents",
        }
    }

    /// The line of the refusal, counted from 1; 0 where there was no memory.
    pub fn line(&self) -> u32
        ensures { result ≡ line_of self.now }
    {
        match self {
            CampaignFault::NoMemory => 0,
            CampaignFault::Deck(fault) => fault.line(),
            CampaignFault::BadSection(line) => *line,
            CampaignFault::BadLine(line) => *line,
            CampaignFault::CountTooLarge(line) => *line,
            CampaignFault::TooManyScripts(line) => *line,
            CampaignFault::TooManyEvents(line) => *line,
        }
    }
}

impl From<DeckFault> for CampaignFault {
    // The want of memory stays that.
    ghost from_gives = { λ fault e. e ≢ WantsMemory → (e ≡ InDeck fault) × (fault ≢ DeckWantsMemory) };

    fn from(fault: DeckFault) -> CampaignFault {
        match fault {
            DeckFault::NoMemory => CampaignFault::NoMemory,
            fault => CampaignFault::Deck(fault),
        }
    }
}

impl From<NoMemory> for CampaignFault {
    ghost from_gives = { λ _ e. e ≡ WantsMemory };

    fn from(_: NoMemory) -> CampaignFault {
        CampaignFault::NoMemory
    }
}

impl From<AllocError> for CampaignFault {
    ghost from_gives = { λ _ e. e ≡ WantsMemory };

    fn from(_: AllocError) -> CampaignFault {
        CampaignFault::NoMemory
    }
}

impl<T: Drop> From<AllocFailed<T>> for CampaignFault {
    ghost from_gives = { λ _ e. e ≡ WantsMemory };

    fn from(_: AllocFailed<T>) -> CampaignFault {
        CampaignFault::NoMemory
    }
}
