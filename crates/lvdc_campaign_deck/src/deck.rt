use lvdc_fault::Named;
use lvdc_image::Image;
use lvdc_map::{Banks, Hop};
use lvdc_orders::Orders;
use lvdc_word::Seq;

/// What the deck of a campaign asks for.
#[derive(Drop)]
pub struct CampaignDeck {
    /// The image of the program; a source is assembled.
    pub image: Image,
    /// Where each run starts.
    pub start: Hop,
    /// The simplex pairs of the image and of the SIMPLEX line.
    pub banks: Banks,
    /// The orders of the ORDER lines; without one the order A to U.
    pub orders: Orders,
    /// The instruction times asked for, at most 10,000.
    pub count: u64,
    /// The scripts, in their order; at most 256, with at most 65,536 events in all.
    pub scripts: Seq<Named>,
}
