use lvdc_map::Address;

/// What differs first between a run through every fault and the plain run.
#[derive(Clone, Copy, PartialEq, Eq)]
pub enum Difference {
    /// One was done and the other stopped, or both stopped, in other steps or for other causes.
    End,
    /// The port log, first in a line of this instruction time: the lesser one, where both have a line and they differ.
    Port(u64),
    /// The registers or the times made.
    Registers,
    /// The words of memory; this is the least address whose words differ.
    Words(Address),
}
