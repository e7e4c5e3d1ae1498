use crate::Mode;
use lvdc_fault::Script;
use lvdc_map::{Banks, Hop, Placed};
use lvdc_plain::Unplug;

/// What a run starts from, but for the devices: a program and what happens to it, how it is judged, and the most instruction
/// times that it may make.
#[derive(Drop)]
pub(crate) struct Start<'a> {
    /// The words of the image, which rise by address.
    pub(crate) image: &'a [Placed],
    pub(crate) banks: Banks,
    pub(crate) start: Hop,
    pub(crate) script: Script,
    pub(crate) unplugs: Vec<Unplug>,
    pub(crate) mode: Mode,
    pub(crate) limit: u64,
}
