//! The report of a run: its title and end, the registers, the port log and the words of memory, and of the voted machine
//! the copies that differed and the cells that were repaired.
#![tactic(auto)]

mod end;
mod redundancy;
mod registers;
mod report;
mod soak;
mod title;
mod voted;
mod words;

pub use end::put_end;
pub use registers::put_registers;
pub use report::{LONGEST_REPORT, report_plain};
pub use soak::{all_counts, report_soak};
pub use title::Title;
pub use voted::report_run;
pub use words::{put_memory_line, put_unknown_line};
