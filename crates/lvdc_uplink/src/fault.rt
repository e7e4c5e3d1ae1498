ghost use Rattle.std.specs.Prelude.{◌≡◌, ◌≤◌, length};

use lvdc_image::ImageFault;
use thiserror::Error;

/// Why bytes hold no image with messages: the first refusal, and its line.
#[derive(Clone, Copy, Debug, Error)]
pub enum PatchFault {
    /// The first line is not IMAGE.
    #[error("line {0} begins no image")]
    NoProgram(u32),
    /// The image isn't closed by END, or UPLINK is missing after it.
    #[error("line {0} is out of its section")]
    BadSection(u32),
    /// The line, outside of the image, has above 120 bytes.
    #[error("line {0} is too long")]
    BadLine(u32),
    /// The image is refused.
    #[error(transparent)]
    Image(ImageFault),
}

impl PatchFault {
    ghost use Rattle.lvdc_uplink.specs.Faults.{name_of, line_of, refusal_status};

    /// The name of the cause, as a refusal tells it; that of an image is told by its own.
    pub fn name(&self) -> &'static [u8]
        ensures name { result.now ≡ name_of self.now }
        ensures short { length result.now ≤ 12 }
    {
        match self {
            PatchFault::NoProgram(_) => b"NoProgram",
            PatchFault::BadSection(_) => b"BadSection",
            PatchFault::BadLine(_) => b"BadLine",
            PatchFault::Image(fault) => fault.name(),
        }
    }

    /// The line of the refusal, counted from 1.
    pub fn line(&self) -> u32
        ensures { result ≡ line_of self.now }
    {
        match self {
            PatchFault::NoProgram(line) => *line,
            PatchFault::BadSection(line) => *line,
            PatchFault::BadLine(line) => *line,
            PatchFault::Image(fault) => fault.line(),
        }
    }

    /// The exit status of the refusal: 4 for that of an image, else 2.
    pub fn status(&self) -> u8
        ensures { result ≡ refusal_status self.now }
    {
        match self {
            PatchFault::Image(_) => 4,
            _ => 2,
        }
    }
}
