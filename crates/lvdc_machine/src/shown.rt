use lvdc_word::Word;

/// What can be told of the word at an address.
#[derive(Clone, Copy)]
pub enum Shown {
    /// The intended word, which can be recovered.
    Known(Word),
    /// The intended word can't be recovered.
    Unknown,
}
