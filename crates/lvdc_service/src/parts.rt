ghost use Rattle.std.specs.Prelude.{◌≡◌, ◌<◌, ◌≤◌, ◌+◌, ◌∷◌, [], length, drop, slice_index, slice_range, map, IfSome, IfNone, All};
ghost use Rattle.std.specs.List.{slice_split};
ghost use Rattle.lvdc_service.specs.Frames.{is_space};
ghost use Rattle.lvdc_service.specs.Parts.{part_of, LiesIn};

use arrayvec::ArrayVec;

/// A part of a line: the place of its first byte, and the place after its last.
#[derive(Clone, Copy, Default, PartialEq, Eq)]
pub struct Part {
    /// The place of its first byte.
    pub start: usize,
    /// The place after its last byte.
    pub end: usize,
}

/// The bytes of a part.
pub fn bytes_of<'a>(line: &'a [u8], part: &Part) -> &'a [u8]
    requires { LiesIn line.now part.now }
    ensures { result.now ≡ part_of line.now part.now }
{
    &line[part.start..part.end]
}

/// The part that begins at `start`: it goes up to the next space, or to the end of the line.
fn next_part(line: &[u8], start: usize) -> Part
    requires { start ≤ length line.now }
    ensures start { result.start ≡ start }
    ensures within { LiesIn line.now result }
    ensures more { result.end < length line.now →
        slice_split is_space (drop start line.now) ≡ part_of line.now result ∷ slice_split is_space (drop (result.end + 1) line.now) }
    ensures last { result.end ≡ length line.now → slice_split is_space (drop start line.now) ≡ part_of line.now result ∷ [] }
{
    let mut end = start;
    while end < line.len() && line[end] != b' ' {
        end += 1;
    }
    Part { start, end }
}

/// The parts of a line between its spaces, where there are at most so many. It takes no memory.
pub(crate) fn parts<const MOST: usize>(line: &[u8]) -> Option<ArrayVec<Part, MOST>>
    ensures parts { IfSome result (λ v. map (part_of line.now) v.items ≡ slice_split is_space line.now) }
    ensures within { IfSome result (λ v. All (LiesIn line.now) v.items) }
    ensures many { IfNone result (MOST < length (slice_split is_space line.now)) }
{
    let mut parts = ArrayVec::new();
    let mut start = 0;
    loop {
        let part = next_part(line, start);
        parts.try_push(part).ok()?;
        if part.end == line.len() {
            return Some(parts);
        }
        start = part.end + 1;
    }
}
