use crate::Difference;
use lvdc_fault::Verdict;
use lvdc_word::Seq;

/// What a script made of a program.
#[derive(Drop)]
pub struct Row {
    /// The name of the script.
    pub name: Seq<u8>,
    /// That of the first step that isn't admissible.
    pub verdict: Verdict,
    /// What differs first between the run through every fault and the plain run; none where they come to the same.
    pub difference: Option<Difference>,
    /// In how many steps each of the 21 copies differed from its vote in the run through every fault, summed.
    pub copies: u64,
    /// How many repairs that run noted.
    pub repairs: u64,
    /// The step of the first of them.
    pub first_repair: Option<u64>,
    /// Whether the script masks by form.
    pub masks: bool,
}
