use lvdc_fault::Verdict;
use lvdc_word::Seq;

/// What a script made of a program.
#[derive(Drop)]
pub struct Row {
    /// The name of the script.
    pub name: Seq<u8>,
    /// That of the first step that isn't admissible.
    pub verdict: Verdict,
    /// Whether the run through every fault has the end, the registers, the port log and the intended words of the plain run.
    pub same: bool,
}
