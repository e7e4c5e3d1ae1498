use lvdc_fault::Script;
use lvdc_orders::Orders;
use lvdc_plain::Unplug;
use lvdc_port::Supply;
use lvdc_snapshot::Snapshot;
use lvdc_word::Seq;

/// A run that was stopped between two instruction times: its state, and what it needs to go on.
#[derive(Drop)]
pub struct Saved {
    pub snapshot: Snapshot,
    /// The instruction times that the deck asks for.
    pub count: u64,
    /// The words that the devices hold, by rising port and in each device's order.
    pub states: Seq<Supply>,
    /// The deck's UNPLUG lines, in their order.
    pub unplugs: Seq<Unplug>,
    pub script: Script,
    /// One to sixteen orders.
    pub orders: Orders,
}
