use lvdc_map::Hop;
use lvdc_word::Seq;

/// What START names as the place where the run starts.
#[derive(Drop)]
pub(crate) enum EntryPoint {
    Constant(Hop),
    /// The line of code of this name. START stands on the line of this number.
    Name { number: u32, name: Seq<u8> },
}
