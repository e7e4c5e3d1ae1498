use lvdc_word::Word;

#[derive(Debug)]
/// What a message of an uplink is answered: the first four acknowledge it, the others refuse it.
#[derive(Clone, Copy, PartialEq, Eq)]
pub enum Answer {
    /// The load of this id is open.
    Opened(u32),
    /// This frame of the load is staged.
    Framed { id: u32, i: u8 },
    /// The load of this id is applied.
    Committed(u32),
    /// The load of this id was open, and is no more.
    Abandoned(u32),
    /// The line is no message.
    Form,
    /// Another load, of this id, is open.
    Busy(u32),
    /// The id is none above this one, the last that was committed.
    Old(u32),
    /// No load of this id is open.
    NoLoad,
    /// The load has no frame of this number, or the words don't stay in their sector.
    Range,
    /// This is the check word that it should have.
    Check(Word),
    /// Another frame is staged under this number.
    Differs(u8),
    /// This frame is the first that isn't staged.
    Missing(u8),
}
