//! Decks of fault campaigns and of studies: a program, for a study what it finds at the ports, the line CAMPAIGN, named fault scripts,
//! and each refusal with its line.
#![tactic(auto)]

mod by_name;
mod deck;
mod fault;
mod layout;
mod program;
mod read;
mod scripts;
mod study;
mod study_layout;
mod study_read;

pub use deck::CampaignDeck;
pub use fault::CampaignFault;
pub use layout::{from_campaign, is_campaign};
pub use read::read_campaign;
pub use scripts::read_scripts;
pub use study::StudyDeck;
pub use study_read::read_study;

/// The most instruction times of a campaign (this project's profile).
pub const MOST_CAMPAIGN_TIMES: u64 = 10_000;

/// The most scripts of a campaign (this project's profile).
pub const MOST_CAMPAIGN_SCRIPTS: usize = 256;

/// The most scripts of a study (this project's profile).
pub const MOST_STUDY_SCRIPTS: usize = 65_536;

/// The most instruction times that all scripts of a study may ask for together (this project's profile).
pub const MOST_TIMES_IN_ALL: u64 = 100_000_000;
