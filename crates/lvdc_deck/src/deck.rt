use lvdc_fault::Script;
use lvdc_image::Image;
use lvdc_map::{Banks, Hop};
use lvdc_orders::Orders;
use lvdc_plain::Unplug;
use lvdc_port::Supply;
use lvdc_text::Line;
use lvdc_word::Seq;

/// What a deck asks for.
#[derive(Drop)]
pub struct Deck {
    /// The image of the program; a source is assembled.
    pub image: Image,
    /// Where the run starts: START's constant or name, else the image's constant, else `000000016`.
    pub start: Hop,
    /// The simplex pairs of the image and of the SIMPLEX line.
    pub banks: Banks,
    /// The words of the TAPE lines, in their order.
    pub supplies: Seq<Supply>,
    /// The UNPLUG lines, in their order.
    pub unplugs: Seq<Unplug>,
    /// The events of the FAULTS lines, in their order; at most 65,536.
    pub script: Script,
    /// The orders of the ORDER lines; without one the order A to U.
    pub orders: Orders,
    /// The instruction times asked for, at most 1,000,000.
    pub count: u64,
    /// The lines of the commands after DEBUG, in their order.
    pub commands: Seq<Line>,
    /// The number of the line RUN; 0 where no text has one.
    pub run_line: u32,
    /// The number of the first line that opens PORTS, FAULTS or DEBUG, the sections that the deck of a campaign doesn't have.
    pub other_line: Option<u32>,
}
