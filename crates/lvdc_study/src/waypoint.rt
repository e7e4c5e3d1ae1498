//! Waypoints of the fault-free run of a program: stations that have no log, and so many that one lies shortly before each event.

ghost use Rattle.std.specs.Prelude.{◌≡◌, ℕ, ◌*◌, ◌≤◌, ◌<◌, ◌%◌, List, [], IsTrue, IfOk, IfSome, IsSomeAnd, None, slice_get};
ghost use Rattle.lvdc_port.specs.Device as device;
ghost use Rattle.lvdc_fault.specs.declared.TheConstants.{MOST_TIMES};
ghost use Rattle.lvdc_laws_runs.specs.Early.{AllBeginFrom};
ghost use Rattle.lvdc_machine.specs.Shows.{Shows};
ghost use Rattle.lvdc_machine.specs.declared.mode.Mode.TheVariants.{Guarded};
ghost use Rattle.lvdc_model.specs.Trial.{Trial};
ghost use Rattle.lvdc_model.specs.Voted.{Voted};
ghost use Rattle.lvdc_snapshot.specs.Snapshot.{IsWhole, Means};

use crate::Program;
use lvdc_fault::Script;
use lvdc_machine::{Machine, Snapshot};
use lvdc_plain::Visible;
use lvdc_runs::station_before;
use lvdc_word::{NoMemory, Seq};
use std::alloc::Global;
use std::slice;

/// What a machine that judges has after some times of the fault-free run, but for the log; how many lines the log has there; and the voted
/// registers, by which a run is seen soon not to be there.
#[derive(Drop)]
pub struct Waypoint {
    pub snapshot: Snapshot,
    pub lines: usize,
    pub registers: Visible,
}

/// So many times, at least, lie between two waypoints.
const LEAST: u64 = 32;

/// For so many bytes, at most, there are waypoints of a program; so many bytes are reckoned for one, and for each word of its image.
const ROOM: usize = 16_777_216;

const BASE: usize = 512;

const WORD: usize = 32;

/// So many scripts, at least, and so many times are worth the waypoints.
const MANY: usize = 8;

/// Are so many scripts of a program of so many times worth waypoints?
pub(crate) fn are_worth_waypoints(scripts: usize, count: u64) -> bool {
    scripts >= MANY && count >= LEAST
}

/// So many times lie between two waypoints of a program.
pub(crate) fn spacing(program: &Program<'_>) -> u64
    ensures { 0 < result }
{
    let words = program.image.len().min(32_768);
    let most = (ROOM / (BASE + WORD * words)).max(1);
    (program.count / most as u64).max(LEAST)
}

/// May a script begin at a waypoint, since none of its events begins before it, and isn't it behind so many times?
fn may_begin_at(waypoint: &Waypoint, script: &Script, times: u64) -> bool
    requires { times ≤ MOST_TIMES }
    ensures { IsTrue result → AllBeginFrom waypoint.now.snapshot.steps script.now × (waypoint.now.snapshot.steps ≤ 3 * times) }
{
    station_before(slice::from_ref(&waypoint.snapshot), script, times).is_some()
}

/// The position of a waypoint at which a script may begin, and which isn't behind so many times. Waypoints stand by rising steps, so it is
/// found by halves.
pub(crate) fn waypoint_before(waypoints: &[Waypoint], script: &Script, times: u64) -> Option<usize>
    requires { times ≤ MOST_TIMES }
    ensures begins { IfSome result (λ at. IsSomeAnd (slice_get waypoints.now at) (λ w. AllBeginFrom w.snapshot.steps script.now)) }
    ensures ahead { IfSome result (λ at. IsSomeAnd (slice_get waypoints.now at) (λ w. w.snapshot.steps ≤ 3 * times)) }
{
    let mut found = None;
    let mut low = 0;
    let mut high = waypoints.len();
    for _ in 0..64 {
        if low >= high {
            return found;
        }
        let middle = low + (high - low) / 2;
        if may_begin_at(&waypoints[middle], script, times) {
            found = Some(middle);
            low = middle + 1;
        } else {
            high = middle;
        }
    }
    found
}

/// A waypoint of what a machine has now, between two times, where the log has so many lines.
pub(crate) fn waypoint_of(
    alloc: Global,
    machine: &Machine,
    lines: usize,
) -> Result<Waypoint, NoMemory>
    requires times { machine.now.steps % 3 ≡ 0 }
    requires going { machine.now.end ≡ None }
    requires mode { machine.now.mode ≡ Guarded }
    ensures means { IfOk result (λ w. (o : Trial) (v : Voted) (ds : List device.Device) → Shows o machine.now ds v → Means w.snapshot (record v { log = [] })) }
    ensures whole { IfOk result (λ w. IsWhole w.snapshot) }
    ensures banks { IfOk result (λ w. w.snapshot.banks ≡ machine.now.banks) }
    ensures steps { IfOk result (λ w. w.snapshot.steps ≡ machine.now.steps) }
    ensures log { IfOk result (λ w. w.snapshot.log ≡ []) }
    ensures lines { IfOk result (λ w. w.lines ≡ lines) }
{
    let mut snapshot = machine.snapshot(alloc)?;
    snapshot.log = Seq::from_vec(Vec::new(alloc));
    Ok(Waypoint {
        snapshot,
        lines,
        registers: machine.visible(),
    })
}
