ghost use Rattle.std.specs.Prelude.{◌≡◌, ◌<◌, ◌-◌, ◌^◌, length};
ghost use Rattle.lvdc_uplink.specs.Input.{kind_of};

use crate::PatchFault;
use lvdc_text::{is_alone, is_comment, is_long};

/// The headings of the two parts.
#[derive(Clone, Copy)]
pub(crate) enum Heading {
    Image,
    Uplink,
}

/// What a line is where a heading is due.
#[derive(Clone, Copy)]
pub(crate) enum LineKind {
    /// Above 120 bytes.
    Long,
    /// A blank line or a comment.
    Skipped,
    /// The heading.
    Due,
    Other,
}

impl Heading {
    ghost use Rattle.lvdc_uplink.specs.Input.{word_of, missing};

    /// The word that stands alone on its line.
    fn word(self) -> &'static [u8]
        ensures { result.now ≡ word_of self }
    {
        match self {
            Heading::Image => b"IMAGE",
            Heading::Uplink => b"UPLINK",
        }
    }

    /// The refusal where another line, or none, is in its place.
    pub(crate) fn missing(self, number: u32) -> PatchFault
        ensures { result ≡ missing self number }
    {
        match self {
            Heading::Image => PatchFault::NoProgram(number),
            Heading::Uplink => PatchFault::BadSection(number),
        }
    }
}

/// What a line is where this heading is due.
pub(crate) fn kind_of(heading: Heading, text: &[u8]) -> LineKind
    requires { length text.now < 2 ^ 32 - 1 }
    ensures { result ≡ kind_of heading text.now }
{
    if is_long(text) {
        LineKind::Long
    } else if is_comment(text) {
        LineKind::Skipped
    } else if is_alone(heading.word(), text) {
        LineKind::Due
    } else {
        LineKind::Other
    }
}
