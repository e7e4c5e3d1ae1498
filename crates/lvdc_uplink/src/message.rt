use crate::frame::Frame;
use lvdc_word::Word;

/// What a line of an uplink asks for (this project's profile).
#[derive(Drop)]
pub(crate) enum Message {
    /// A load of so many frames.
    Open {
        id: u32,
        count: u8,
    },
    /// The frame of this number, with its check word.
    Frame {
        id: u32,
        number: u8,
        frame: Frame,
        check: Word,
    },
    /// The load into the image, with its check word.
    Commit {
        id: u32,
        check: Word,
    },
    /// The load away.
    Abandon {
        id: u32,
    },
}
