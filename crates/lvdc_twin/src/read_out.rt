use lvdc_word::Word;

#[derive(Debug)]
/// What a read found.
#[derive(Clone, Copy, PartialEq, Eq)]
pub struct ReadOut {
    /// The word of the twin used.
    pub word: Word,
    /// The twin that showed a bad cell and was rewritten, also where that had no effect.
    pub repaired: Option<u8>,
    /// Whether the other twin became the one selected.
    pub switched: bool,
}
