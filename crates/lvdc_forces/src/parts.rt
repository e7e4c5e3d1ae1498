//! A script in parts of 256 events. What a part does to the copies is worked out anew only where one of its events begins or has
//! ended.

ghost use Rattle.std.specs.Prelude.{◌≡◌, ℕ, ◌+◌, ◌-◌, ◌*◌, ◌/◌, ◌%◌, ◌≤◌, ◌<◌, ◌^◌, true, false, length, take, drop, All};
ghost use Rattle.lvdc_fault.specs.Events.{IsEvent};
ghost use Rattle.lvdc_fault.specs.Script.{is_within};
ghost use Rattle.lvdc_forces.specs.Parts.{StaysUntil, IsRightUntil, events_of_part, share_then};
ghost use Rattle.lvdc_forces.specs.Shares.{share_at, share_on};

use crate::part::Part;
use crate::shares::{Share, add_event};
use lvdc_fault::{Event, Script};

/// Works out the part of this number of a script, from a step on. It stays a call, so that a part that is kept costs one look.
#[inline(never)]
fn work_out(script: &Script, number: usize, step: u64, part: &mut Part)
    requires events { All IsEvent script.now }
    requires number { 256 * number ≤ length script.now }
    requires bound { step < 2 ^ 63 }
    ensures right { IsRightUntil (events_of_part script.now number) step part.new }
    ensures later { step < part.new.until }
{
    let length = script.len();
    let from = 256 * number;
    let left = length - from;
    let to = from + left.min(256);
    let until = until_of(script, from, to, step);
    *part = Part::of_shares(shares_of(script, from, to, step), until);
}

/// What the events from a position up to another do to each copy in a step.
fn shares_of(script: &Script, from: usize, to: usize, step: u64) -> [Share; 21]
    requires order { from ≤ to }
    requires within { to ≤ length script.now }
    requires events { All IsEvent script.now }
    ensures { (n : ℕ) → n < 21 → share_at result n
        ≡ share_on (take (to - from) (drop from script.now)) step (n / 3 + 1) (n % 3 + 1) }
{
    let mut shares = [Share::none(); 21];
    for position in from..to {
        add_event(script.event(position), step, &mut shares);
    }
    shares
}

/// The first step after this one at which one of the events from a position up to another begins or has ended.
fn until_of(script: &Script, from: usize, to: usize, step: u64) -> u64
    requires order { from ≤ to }
    requires within { to ≤ length script.now }
    requires bound { step < 2 ^ 63 }
    ensures later { step < result }
    ensures stays { All (StaysUntil step result) (take (to - from) (drop from script.now)) }
{
    let mut until = u64::MAX;
    for position in from..to {
        until = until.min(change_of(script.event(position), step));
    }
    until
}

/// The first step after this one at which an event that acts on a copy begins or has ended.
fn change_of(event: &Event, step: u64) -> u64
    requires { step < 2 ^ 63 }
    ensures later { step < result }
    ensures stays { StaysUntil step result event.now }
{
    match *event {
        Event::Flip { .. } | Event::Force { .. } | Event::Lag { .. } | Event::Deaf { .. } => {
            event.span().change_after(step)
        }
        _ => u64::MAX,
    }
}

/// Makes the part of this number right from a step on, where it was right from another on, and answers the first step at which it
/// isn't.
pub(crate) fn renew(script: &Script, number: usize, at: u64, step: u64, part: &mut Part) -> u64
    requires events { All IsEvent script.now }
    requires number { 256 * number ≤ length script.now }
    requires bound { step < 2 ^ 63 }
    ensures right { IsRightUntil (events_of_part script.now number) at part.old → IsRightUntil (events_of_part script.now number) step part.new }
    ensures later { step < part.new.until }
    ensures until { result ≡ part.new.until }
{
    if is_due(part, at, step) {
        work_out(script, number, step, part);
    }
    part.until
}

/// Isn't a part right at a step that was right from another on?
fn is_due(part: &Part, at: u64, step: u64) -> bool
    ensures at { result ≡ false → at ≤ step }
    ensures until { result ≡ false → step < part.now.until }
{
    step < at || part.until <= step
}

/// What is done to each copy, and what a part does after it. A part that names no copy costs one look.
pub(crate) fn add_part(part: &Part, shares: &mut [Share; 21])
    ensures count { length shares.new ≡ 21 }
    ensures shares { (n : ℕ) → n < 21 → share_at shares.new n ≡ share_then (share_at shares.old n) (share_at part.now.shares n) }
{
    if part.names_any {
        add_shares(&part.shares, shares);
    }
}

/// What is done to each copy, and what comes after it.
fn add_shares(later: &[Share; 21], shares: &mut [Share; 21])
    ensures count { length shares.new ≡ 21 }
    ensures shares { (n : ℕ) → n < 21 → share_at shares.new n ≡ share_then (share_at shares.old n) (share_at later.now n) }
{
    for number in 0..21 {
        add_share(&later[number], &mut shares[number]);
    }
}

/// What is done to a copy, and what comes after it, if that names the copy.
fn add_share(later: &Share, share: &mut Share)
    ensures { share.new ≡ share_then share.old later.now }
{
    if later.named {
        *share = share.join(later);
    }
}
