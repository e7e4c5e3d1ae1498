use lvdc_map::Address;

/// What is said of a step (this project's profile).
#[derive(Clone, Copy, Debug, PartialEq, Eq)]
pub enum Verdict {
    /// The vote and the twins withstand it.
    Admissible,
    /// The lowest module with two wrong copies.
    Logic { step: u64, module: u8 },
    /// The address that was to be read, and whose word can't be recovered.
    Memory { step: u64, address: Address },
}
