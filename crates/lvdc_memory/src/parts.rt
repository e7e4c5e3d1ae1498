//! The events on memory in parts of 256. What a part sticks and kills is worked out anew only where one of its events begins, or one
//! that sticks or kills has ended: damage leaves nothing in force.

ghost use Rattle.std.specs.Prelude.{◌≡◌, ◌≢◌, ℕ, ◌*◌, ◌≤◌, ◌<◌, ◌^◌, true, false, [], length, All, IfOk, IfSome, IsSomeAnd};
ghost use Rattle.lvdc_map.specs.Address.{is_same};
ghost use Rattle.lvdc_twin.specs.Store.{nothing};
ghost use Rattle.lvdc_fault.specs.Damage.{stuck, stuck_after, stuck_beside, stuck_by, is_dead, kills};
ghost use Rattle.lvdc_fault.specs.Script.{is_within};
ghost use Rattle.lvdc_fault.specs.declared.event.Event.{Event};
ghost use Rattle.lvdc_memory.specs.Events.{AreOld, LastUntil};
ghost use Rattle.lvdc_memory.specs.News.{new_events};
ghost use Rattle.lvdc_memory.specs.Order.{number_of_event};
ghost use Rattle.lvdc_memory.specs.Parts.{events_of, part_at, stuck_first, is_first_dead, AreParts, AreRight, AreRightSince, IsBetween, IsRight, IsWithin, StaysUntil};

use crate::order::{number_of_event, number_of_pair, number_of_place};
use lvdc_fault::Event;
use lvdc_map::Address;
use lvdc_twin::Stuck;
use lvdc_word::{Cell, NoMemory};
use std::alloc::Global;

/// How many events a part has. The last one may have fewer.
const PART: usize = 256;

/// What the events of a part stick and kill from a step up to another: the bits stuck at the place that its first event names, and
/// whether the twin is dead that its first event names. All numbers of its events lie between two.
#[derive(Clone, Copy)]
pub struct Part {
    pub(crate) low: usize,
    pub(crate) high: usize,
    pub(crate) since: u64,
    pub(crate) until: u64,
    pub(crate) stuck: Stuck,
    pub(crate) dead: bool,
}

/// The parts of so many events, of which nothing is known but their numbers.
pub(crate) fn parts_of(alloc: Global, events: &[Event]) -> Result<Vec<Part>, NoMemory>
    ensures { IfOk result (λ parts. AreParts events.now parts.items) }
{
    let count = events.len().div_ceil(PART);
    let mut parts = Vec::with_capacity(alloc, count)?;
    for number in 0..count {
        parts.push(Part::unknown(part_of(events, number)))?;
    }
    Ok(parts)
}

/// The events of the part of this number.
pub(crate) fn part_of(events: &[Event], number: usize) -> &[Event]
    requires { 256 * number ≤ length events.now }
    ensures { result.now ≡ events_of events.now number }
{
    let from = PART * number;
    let left = events.len() - from;
    let to = from + left.min(PART);
    &events[from..to]
}

impl Part {
    /// A part of which nothing is known but between which numbers those of its events lie.
    fn unknown(events: &[Event]) -> Part
        ensures { IsWithin events.now result }
    {
        Part {
            low: lowest_number(events),
            high: highest_number(events),
            since: 0,
            until: 0,
            stuck: nothing_stuck(),
            dead: false,
        }
    }

    /// Makes a part right at a step, where it was right at the last one, if there was one. Where one of its events may change what is
    /// in force, it is right since this step.
    pub(crate) fn renew(&mut self, events: &[Event], last: Option<u64>, step: u64)
        ensures within { IsWithin events.now self.old → IsWithin events.now self.new }
        ensures right { IfSome last (λ at. IsRight events.now at self.old) → IsRight events.now step self.new }
        ensures new { self.new.since ≢ step → IfSome last (λ at. IsRight events.now at self.old) → new_events last step events.now ≡ [] }
    {
        if self.is_stale(last, step) {
            self.since = step;
            self.until = until_of(events, step);
            self.stuck = stuck_first(events, step);
            self.dead = is_first_dead(events, step);
        }
    }

    /// May an event of the part change what is in force where this step comes after the last one, if there was one?
    fn is_stale(&self, last: Option<u64>, step: u64) -> bool
        ensures last { result ≡ false → IsSomeAnd last (λ at. at < step) }
        ensures until { result ≡ false → step < self.now.until }
    {
        match last {
            Some(at) => step <= at || self.until <= step,
            None => true,
        }
    }

    /// What the part's events stick at a place of a twin, at a step at which it is right.
    pub(crate) fn stuck_at(&self, events: &[Event], step: u64, twin: u8, place: Address) -> Stuck
        requires right { IsRight events.now step self.now }
        requires within { IsWithin events.now self.now }
        ensures { result ≡ stuck_after step twin place events.now nothing }
    {
        if !self.may_have(number_of_place(twin, place)) {
            nothing_stuck()
        } else if sticks_first(events, twin, place) {
            self.stuck
        } else {
            stuck_in(events, step, twin, place)
        }
    }

    /// Do the part's events kill a twin of a pair, at a step at which it is right?
    pub(crate) fn kills(&self, events: &[Event], step: u64, twin: u8, pair: u8) -> bool
        requires right { IsRight events.now step self.now }
        requires within { IsWithin events.now self.now }
        ensures { result ≡ is_dead events.now step twin pair }
    {
        if !self.may_have(number_of_pair(twin, pair)) {
            false
        } else if kills_first(events, twin, pair) {
            self.dead
        } else {
            is_dead_in(events, step, twin, pair)
        }
    }

    /// May an event of the part have this number?
    fn may_have(&self, number: usize) -> bool
        ensures { result ≡ false → (e : Event) → IsBetween self.now.low self.now.high e → number_of_event e ≢ number }
    {
        self.low <= number && number <= self.high
    }
}

/// The lowest of the numbers of events.
fn lowest_number(events: &[Event]) -> usize
    ensures { All (λ e. result ≤ number_of_event e) events.now }
{
    let mut low = usize::MAX;
    for event in events {
        low = low.min(number_of_event(event));
    }
    low
}

/// The highest of the numbers of events.
fn highest_number(events: &[Event]) -> usize
    ensures { All (λ e. number_of_event e ≤ result) events.now }
{
    let mut high: usize = 0;
    for event in events {
        high = high.max(number_of_event(event));
    }
    high
}

/// The first step after this one at which one of these events begins, or one that isn't damage has ended.
fn until_of(events: &[Event], step: u64) -> u64
    ensures { All (StaysUntil step result) events.now }
{
    let mut until = u64::MAX;
    for event in events {
        until = until.min(change_of(event, step));
    }
    until
}

/// The first step after this one at which an event begins, or has ended if it isn't damage.
fn change_of(event: &Event, step: u64) -> u64
    ensures { StaysUntil step result event.now }
{
    match *event {
        Event::Damage { step: damaged, .. } => damage_after(damaged, step),
        _ => event.span().change_after(step),
    }
}

/// The step of damage, if it comes after this one. What follows it is no change: damage leaves nothing in force.
fn damage_after(damaged: u64, step: u64) -> u64
    ensures { (t : ℕ) → step < t → t < result → damaged ≢ t }
{
    if step < damaged { damaged } else { u64::MAX }
}

/// What events stick in a step at the place at which the first of them sticks bits.
fn stuck_first(events: &[Event], step: u64) -> Stuck
    ensures { result ≡ stuck_first events.now step }
{
    match events.first() {
        Some(Event::Stick { twin, at, .. }) => stuck_in(events, step, *twin, *at),
        _ => nothing_stuck(),
    }
}

/// Do events kill in a step the twin that the first of them kills?
fn is_first_dead(events: &[Event], step: u64) -> bool
    ensures { result ≡ is_first_dead events.now step }
{
    match events.first() {
        Some(Event::Dead { twin, pair, .. }) => is_dead_in(events, step, *twin, *pair),
        _ => false,
    }
}

/// Does the first of some events stick bits at this place of a twin?
fn sticks_first(events: &[Event], twin: u8, place: Address) -> bool
    ensures { result ≡ true → (step : ℕ) → stuck_first events.now step ≡ stuck_after step twin place events.now nothing }
{
    match events.first() {
        Some(
            Event::Stick {
                twin: other,
                at,
                ..
            },
        ) => *other == twin && is_same(place, *at),
        _ => false,
    }
}

/// Does the first of some events kill this twin of a pair?
fn kills_first(events: &[Event], twin: u8, pair: u8) -> bool
    ensures { result ≡ true → (step : ℕ) → is_first_dead events.now step ≡ is_dead events.now step twin pair }
{
    match events.first() {
        Some(
            Event::Dead {
                twin: other,
                pair: of,
                ..
            },
        ) => *other == twin && *of == pair,
        _ => false,
    }
}

/// What events stick in a step at a place of a twin.
fn stuck_in(events: &[Event], step: u64, twin: u8, place: Address) -> Stuck
    ensures { result ≡ stuck_after step twin place events.now nothing }
{
    let mut stuck = nothing_stuck();
    for event in events {
        stuck = stuck_with(stuck, event, step, twin, place);
    }
    stuck
}

/// What is stuck in a step at a place of a twin, where an event comes after those that stuck this.
fn stuck_with(before: Stuck, event: &Event, step: u64, twin: u8, place: Address) -> Stuck
    ensures { result ≡ stuck_by step twin place event.now before }
{
    match *event {
        Event::Stick {
            twin: other,
            at,
            first,
            last,
            mask,
            value,
        } if other == twin && is_same(place, at) && first <= step && step <= last => {
            join(before, Stuck { mask, value })
        }
        _ => before,
    }
}

/// What is stuck once bits are stuck beside others: where they meet on a bit, the later ones count.
fn join(before: Stuck, later: Stuck) -> Stuck
    ensures { result ≡ stuck_beside before later.mask later.value }
{
    Stuck {
        mask: Cell::within(before.mask.bits() | later.mask.bits()),
        value: before.value.stuck(later.mask, later.value),
    }
}

/// No bit is stuck.
fn nothing_stuck() -> Stuck
    ensures { result ≡ nothing }
{
    Stuck {
        mask: Cell::within(0),
        value: Cell::within(0),
    }
}

/// Are two places the same?
fn is_same(one: Address, other: Address) -> bool
    ensures { result ≡ is_same one other }
{
    one.loc == other.loc && one.sector == other.sector && one.pair == other.pair
}

/// Do events kill a twin of a pair in a step?
fn is_dead_in(events: &[Event], step: u64, twin: u8, pair: u8) -> bool
    ensures { result ≡ is_dead events.now step twin pair }
{
    for event in events {
        if kills(event, step, twin, pair) {
            return true;
        }
    }
    false
}

/// Does an event kill a twin of a pair in a step?
fn kills(event: &Event, step: u64, twin: u8, pair: u8) -> bool
    ensures { result ≡ kills step twin pair event.now }
{
    match *event {
        Event::Dead {
            twin: other,
            pair: of,
            first,
            last,
        } => other == twin && of == pair && first <= step && step <= last,
        _ => false,
    }
}

/// What all events stick at a place of a twin, at a step at which their parts are right.
pub(crate) fn stuck_now(
    events: &[Event],
    parts: &[Part],
    step: u64,
    twin: u8,
    place: Address,
) -> Stuck
    requires parts { AreParts events.now parts.now }
    requires right { AreRight events.now step parts.now }
    ensures { result ≡ stuck events.now step twin place }
{
    let mut stuck = nothing_stuck();
    for number in 0..parts.len() {
        stuck = join(
            stuck,
            parts[number].stuck_at(part_of(events, number), step, twin, place),
        );
    }
    stuck
}

/// Do the events kill a twin of a pair, at a step at which their parts are right?
pub(crate) fn is_dead_now(events: &[Event], parts: &[Part], step: u64, twin: u8, pair: u8) -> bool
    requires parts { AreParts events.now parts.now }
    requires right { AreRight events.now step parts.now }
    ensures { result ≡ is_dead events.now step twin pair }
{
    for number in 0..parts.len() {
        if parts[number].kills(part_of(events, number), step, twin, pair) {
            return true;
        }
    }
    false
}

/// Makes all parts right at a step, where they were right at the last one, if there was one, and answers the first step at which one
/// isn't.
pub(crate) fn renew_all(events: &[Event], parts: &mut [Part], last: Option<u64>, step: u64) -> u64
    requires parts { AreParts events.now parts.old }
    ensures parts { AreParts events.now parts.new }
    ensures right { AreRightSince events.now last parts.old → AreRight events.now step parts.new }
    ensures until { LastUntil result parts.new }
    ensures old { AreRightSince events.now last parts.old → AreOld events.now parts.new last step }
{
    let mut until = u64::MAX;
    for number in 0..parts.len() {
        parts[number].renew(part_of(events, number), last, step);
        until = until.min(parts[number].until);
    }
    until
}
