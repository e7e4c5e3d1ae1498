ghost use Rattle.std.specs.Prelude.{◌≤◌};

use crate::same::same;
use lvdc_image::Image;
use lvdc_uplink::{Answer, Uplink};
use std::alloc::Global;
use std::process::Abort;
use std::test::Fail;

/// The frame of load 1 with this number: eight ones, for the places behind those of the frames before it, from sector 01 on.
fn frame(alloc: Global, number: u8) -> Result<String, Fail>
    requires from { 1 ≤ number }
    requires most { number ≤ 64 }
{
    let before = u64::from(number - 1);
    let sector = 1 + before / 32;
    let loc = before % 32 * 8;
    let check = 2 + before + 256 * sector + loc + 8;
    Ok(format!(in alloc; "FRAME 1 {number} 0 {sector:02o} {loc:03o} 1 1 1 1 1 1 1 1 {check:o}")?)
}

/// A message has this answer.
fn answers(rt: &impl Abort, uplink: &mut Uplink, line: &str, due: Answer) -> Result<(), Fail> {
    same(rt, uplink.message(line.as_bytes())?, due);
    Ok(())
}

/// The frame with this number is taken.
fn is_taken(rt: &impl Abort, alloc: Global, uplink: &mut Uplink, number: u8) -> Result<(), Fail>
    requires from { 1 ≤ number }
    requires most { number ≤ 64 }
{
    let line = frame(alloc, number)?;
    let due = Answer::Framed { id: 1, i: number };
    answers(rt, uplink, line.as_str(), due)
}

#[test]
fn a_load_may_have_64_frames_of_eight_words(rt: HostRuntime) -> Result<(), Fail> {
    let alloc = rt.alloc();
    let mut uplink = Uplink::new(alloc, Image::from_words(Vec::new(alloc)))?;
    answers(&rt, &mut uplink, "OPEN 1 64", Answer::Opened(1))?;
    for before in 0..64u8 {
        is_taken(&rt, alloc, &mut uplink, 64 - before)?;
    }
    answers(&rt, &mut uplink, "COMMIT 1 104540", Answer::Committed(1))?;
    same(&rt, uplink.image().words().len(), 512);
    Ok(())
}
