use lvdc_map::Address;

/// A cell that a read found bad and rewrote: the step of the read, from 0, the address and the twin, 0 or 1, and whether the other
/// twin was selected by it. Of a dead twin it is noted too, though nothing is stored.
#[derive(Clone, Copy, PartialEq, Eq)]
pub struct Repair {
    pub step: u64,
    pub at: Address,
    pub twin: u8,
    pub switched: bool,
}
