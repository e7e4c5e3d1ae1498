use lvdc_fault::Event;
use lvdc_map::{Banks, Placed};
use lvdc_model::Repair;
use lvdc_orders::Order;
use lvdc_plain::{Exchange, Unplug};
use lvdc_port::Supply;
use lvdc_twin::Held;
use lvdc_word::{Seq, Word};

/// A copy of a module: in how many steps it differed from the vote, and its latches.
#[derive(Drop)]
pub struct CopyState {
    /// The module, 1 to 7.
    pub number: u8,
    /// The number of the copy, 1 to 3.
    pub copy: u8,
    pub count: u64,
    pub latches: Seq<Word>,
}

/// What a line of a saved text says.
#[derive(Drop)]
pub enum Entry {
    Title,
    Steps(u64),
    Count(u64),
    Simplex(Banks),
    Copy(CopyState),
    Select([u8; 4]),
    Cell(Held),
    Word(Placed),
    Exchange(Exchange),
    Repair(Repair),
    State(Supply),
    Unplug(Unplug),
    Fault(Event),
    Order(Order),
    End,
}
