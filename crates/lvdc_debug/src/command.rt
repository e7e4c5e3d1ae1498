use lvdc_map::Address;

#[derive(Debug)]
/// The place of an instruction: an address and a syllable.
#[derive(Clone, Copy, PartialEq, Eq)]
pub struct Spot2 {
    pub at: Address,
    /// 0 or 1.
    pub syl: u8,
}

impl Default for Spot2 {
    fn default() -> Spot2 {
        Spot2 {
            at: Address::numbered(0),
            syl: 0,
        }
    }
}

#[derive(Debug)]
/// What a line of a session asks for (this project's profile).
#[derive(Clone, Copy, PartialEq, Eq)]
pub enum Command {
    /// So many instruction times, 1 to 1,000,000.
    Step(u64),
    /// Instruction times up to a breakpoint.
    Go,
    /// A breakpoint.
    Break(Spot2),
    /// The registers.
    Regs,
    /// So many words of memory from a place on, within its sector.
    Mem { at: Address, count: u16 },
    /// So many instructions from a place on, within its sector, each in this syllable.
    Dis { at: Address, syl: u8, count: u16 },
    /// The three copies of a module, 1 to 7.
    Copies(u8),
}
