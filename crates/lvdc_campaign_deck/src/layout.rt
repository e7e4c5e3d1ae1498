//! Where the scripts of a campaign begin among its lines.

ghost use Rattle.std.specs.Prelude.{◌≡◌, ◌<◌, ◌≤◌, ◌-◌, ◌^◌, ◌∷◌, List, length, take, All};
ghost use Rattle.lvdc_text.specs.Lines.{lines_of, IsWithin};
ghost use Rattle.lvdc_text.specs.declared.cutting.Line.{Line};
ghost use Rattle.lvdc_deck.specs.Deck.{end_of, after_program};
ghost use Rattle.lvdc_campaign_deck.specs.Campaign.{is_campaign, from_campaign};

use lvdc_text::{Line, is_alone, is_long, part};

/// Is it CAMPAIGN, on a line that isn't too long?
pub fn is_campaign(text: &[u8]) -> bool
    requires { length text.now < 2 ^ 32 - 1 }
    ensures { result ≡ is_campaign text.now }
{
    !is_long(text) && is_alone(b"CAMPAIGN", text)
}

/// From the line CAMPAIGN on; no line where it's missing.
pub fn from_campaign<'a>(bytes: &[u8], lines: &'a [Line]) -> &'a [Line]
    requires size { length bytes.now < 2 ^ 32 - 1 }
    requires within { All (IsWithin bytes.now) lines.now }
    ensures lines { result.now ≡ from_campaign bytes.now lines.now }
    ensures within { All (IsWithin bytes.now) result.now }
{
    for (at, line) in lines.iter().enumerate() {
        if is_campaign(part(bytes, line)) {
            return &lines[at..];
        }
    }
    &[]
}

/// The lines before the line CAMPAIGN, which are those of the bytes before it, where these begin with it.
pub(crate) fn before_campaign<'a>(bytes: &[u8], lines: &'a [Line], from: &[Line]) -> &'a [Line]
    requires lines { lines.now ≡ lines_of bytes.now }
    requires from { from.now ≡ from_campaign bytes.now (after_program bytes.now lines.now) }
    ensures lines { (line : Line) (rest : List Line) → from.now ≡ line ∷ rest → result.now ≡ lines_of (take line.start bytes.now) }
    ensures within { (line : Line) (rest : List Line) → from.now ≡ line ∷ rest → All (IsWithin (take line.start bytes.now)) result.now }
    ensures few { (line : Line) (rest : List Line) → from.now ≡ line ∷ rest → length result.now ≤ length (take line.start bytes.now) }
    // END stands before CAMPAIGN.
    ensures end { (line : Line) (rest : List Line) → from.now ≡ line ∷ rest → end_of bytes.now lines.now ≡ end_of (take line.start bytes.now) result.now }
{
    &lines[..lines.len() - from.len()]
}
