//! The command `resume`: a saved text is read, the devices are given their states, and the run goes on to its count and is
//! reported.
#![tactic(auto)]

mod laws;
mod reply;
mod restore;
mod run;

pub use laws::resume_statuses;
pub use reply::{LIMIT, ROOM, refuse_device, refuse_saved, resume_bytes};
pub use restore::{Unrestored, restore_devices};
pub use run::{Opened, open_saved};
