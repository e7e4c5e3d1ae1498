//! What may not stand before the scripts of a study.

ghost use Rattle.std.specs.Prelude.{◌≡◌, ◌<◌, ◌-◌, ◌^◌, length, All};
ghost use Rattle.lvdc_text.specs.Lines.{IsWithin};
ghost use Rattle.lvdc_campaign_deck.specs.Study.{is_faults_or_debug, other_line};

use crate::is_campaign;
use lvdc_text::{Line, is_alone, part};

/// Is it FAULTS or DEBUG?
fn is_faults_or_debug(text: &[u8]) -> bool
    requires { length text.now < 2 ^ 32 - 1 }
    ensures { result ≡ is_faults_or_debug text.now }
{
    is_alone(b"FAULTS", text) || is_alone(b"DEBUG", text)
}

/// The number of the first line FAULTS or DEBUG before the line CAMPAIGN.
pub(crate) fn other_line(bytes: &[u8], lines: &[Line]) -> Option<u32>
    requires size { length bytes.now < 2 ^ 32 - 1 }
    requires within { All (IsWithin bytes.now) lines.now }
    ensures { result ≡ other_line bytes.now lines.now }
{
    for line in lines {
        let text = part(bytes, line);
        if is_campaign(text) {
            return None;
        }
        if is_faults_or_debug(text) {
            return Some(line.number);
        }
    }
    None
}
