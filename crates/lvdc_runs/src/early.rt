//! Where a script begins, and the last station before that.

ghost use Rattle.std.specs.Prelude.{◌≡◌, ◌*◌, ◌≤◌, IfSome, IsSomeAnd, slice_get};
ghost use Rattle.lvdc_fault.specs.Script.{first_of};
ghost use Rattle.lvdc_fault.specs.declared.TheConstants.{MOST_TIMES};
ghost use Rattle.lvdc_laws_runs.specs.Early.{AllBeginFrom};

use lvdc_fault::{Event, Script};
use lvdc_machine::Snapshot;

/// The first step of an event.
fn first_of(event: &Event) -> u64
    ensures { result ≡ first_of event.now }
{
    match *event {
        Event::Flip { first, .. }
        | Event::Force { first, .. }
        | Event::Lag { first, .. }
        | Event::Deaf { first, .. }
        | Event::Stick { first, .. }
        | Event::Dead { first, .. } => first,
        Event::Damage { step, .. } => step,
    }
}

/// The step where the first event of a script begins, or the greatest number where there is none.
fn first_step(script: &Script) -> u64
    ensures { AllBeginFrom result script.now }
{
    let mut first = u64::MAX;
    for at in 0..script.len() {
        let begins = first_of(script.event(at));
        if begins < first {
            first = begins;
        }
    }
    first
}

/// The position of the last station at a step or before.
fn last_before(stations: &[Snapshot], step: u64) -> Option<usize>
    ensures { IfSome result (λ at. IsSomeAnd (slice_get stations.now at) (λ station. station.steps ≤ step)) }
{
    let mut last = None;
    for at in 0..stations.len() {
        if stations[at].steps <= step {
            last = Some(at);
        }
    }
    last
}

/// The position of a station at which a script may begin, since none of its events begins before it: the last such one that is not
/// behind so many times.
pub fn station_before(stations: &[Snapshot], script: &Script, times: u64) -> Option<usize>
    requires { times ≤ MOST_TIMES }
    ensures begins { IfSome result (λ at. IsSomeAnd (slice_get stations.now at) (λ station. AllBeginFrom station.steps script.now)) }
    ensures ahead { IfSome result (λ at. IsSomeAnd (slice_get stations.now at) (λ station. station.steps ≤ 3 * times)) }
{
    last_before(stations, first_step(script).min(3 * times))
}
