use lvdc_machine::Orders;
use lvdc_map::{Banks, Hop, Placed};
use lvdc_plain::Unplug;
use lvdc_port::Supply;

/// The program of a study: what each of its runs starts from, but for the script and the devices.
#[derive(Clone, Copy)]
pub struct Program<'a> {
    /// The words of the image, which rise by address.
    pub image: &'a [Placed],
    pub start: Hop,
    pub banks: Banks,
    /// Which devices are taken away, and when.
    pub unplugs: &'a [Unplug],
    /// The words that tapes are given before each run.
    pub supplies: &'a [Supply],
    pub orders: &'a Orders,
    /// The instruction times of each run.
    pub count: u64,
}
