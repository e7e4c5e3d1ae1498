use lvdc_word::Word;

/// What is wrong with one copy of a module as it latches.
#[derive(Clone, Copy, PartialEq, Eq)]
pub enum Hurt {
    /// The copy keeps its old latches.
    Lag,
    /// The bits under the mask are turned over in one latch.
    Flip { index: u8, mask: Word },
    /// The bits under the mask are those of the value in one latch.
    Force { index: u8, mask: Word, value: Word },
}
