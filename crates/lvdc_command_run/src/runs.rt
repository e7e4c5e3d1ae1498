//! Runs of a deck by each of the machines.

ghost use Rattle.std.specs.Prelude.{◌≡◌, ◌+◌, ◌<◌, ◌≤◌, List, ℕ, All, length, map, OnErr, IfOk};
ghost use Rattle.lvdc_port.specs.Device.{Device};
ghost use Rattle.lvdc_port.specs.Devices.{AreDistinct};
ghost use Rattle.lvdc_model.specs.Trial.{Trial};
ghost use Rattle.lvdc_model.specs.Voted.{Voted};
ghost use Rattle.lvdc_machine.specs.Resumed.{state_from, StandsFrom};
ghost use Rattle.lvdc_machine.specs.Stands.{Stands};
ghost use Rattle.lvdc_machine.specs.View.{answer_of_end};
ghost use Rattle.lvdc_report.specs.Report.{outcome_of};
ghost use Rattle.lvdc_lines.specs.Noted.{noted_size};
ghost use Rattle.lvdc_report.specs.Voted.{title_of, voted_text};
ghost use Rattle.lvdc_reply.specs.Answer.{answer_with};
ghost use Rattle.lvdc_command_run.specs.Trials.{trial_of, IsRunnable};
ghost use Rattle.lvdc_command_run.specs.Accounts.{end_status};
ghost use Rattle.lvdc_command_run.specs.Finished.{HasRun, HasRunPlainly, HasJudged};
ghost use Rattle.lvdc_command_run.specs.Replies.{IsRunOf, IsAnswered, IsUnreported, IsUnanswered};
ghost use Rattle.lvdc_command_run.specs.declared.job.Job.{Job as Asked};
ghost use Rattle.lvdc_command_run.specs.declared.job.Job.TheVariants as jobs;
ghost use Rattle.lvdc_command_run.specs.declared.job.Engine.TheVariants as engines;

use crate::ready::{Ready, make_ready};
use lvdc_deck::Deck;
use lvdc_laws_runs::{failed_exchange, guarded_follows};
use lvdc_machine::{Machine, Mode, Outcome};
use lvdc_plain::{Plain, PlainEnd};
use lvdc_port::{PortDevice, supply_all};
use lvdc_reply::Reply;
use lvdc_report::{LONGEST_REPORT, report_plain, report_run, report_soak};
use lvdc_soak_deck::soak_deck;
use lvdc_word::{NoMemory, Seq};
use std::alloc::Global;

/// The status of an end.
pub fn end_status(end: &Outcome) -> u8
    ensures { result ≡ end_status end.now }
{
    match end {
        Outcome::Done => 0,
        Outcome::Stopped { .. } => 6,
        Outcome::Inadmissible(_) => 5,
        Outcome::Device { .. } => 10,
    }
}

/// The same of the plain machine.
fn plain_status(end: &PlainEnd) -> u8
    ensures { result ≡ end_status (outcome_of end.now) }
{
    match end {
        PlainEnd::Done => 0,
        PlainEnd::Stopped { .. } => 6,
        PlainEnd::Device { .. } => 10,
    }
}

/// The reply of a voted machine after its run: the status of the end that it keeps, and its report.
pub fn report_end(alloc: Global, machine: &Machine) -> Result<Reply, NoMemory>
    ensures status { IfOk result (λ reply. reply.status ≡ end_status (answer_of_end machine.now.end)) }

    // It is that of the state where the machine stands, in a run from any state; `Stands` is the case of a trial's start.
    ensures text { IfOk result (λ reply. (o : Trial) (first : Voted) (n : ℕ) (ds : List Device) → StandsFrom o first n machine.now ds
        → reply.text ≡ voted_text (title_of machine.now.mode) o (state_from machine.now.end machine.now.mode o first n)) }
    ensures room { IfOk result (λ reply. (o : Trial) (t : ℕ) (ds : List Device) → Stands o t machine.now ds
        → length reply.text ≤ LONGEST_REPORT) }

    // In a run from a given state little stands behind the lines that the state has noted.
    ensures short { IfOk result (λ reply. (o : Trial) (first : Voted) (n : ℕ) (ds : List Device) → StandsFrom o first n machine.now ds
        → All (λ repair. repair.step < first.steps) first.repairs → length reply.text < LONGEST_REPORT + noted_size first.log first.repairs) }
{
    let text = report_run(alloc, machine)?;
    Ok(Reply {
        status: end_status(&machine.outcome()),
        text: Seq::from_vec(text),
    })
}

/// Makes the voted machine of a deck, and runs it.
fn run_machine(
    alloc: Global,
    mode: Mode,
    deck: Deck,
    devices: &mut Vec<Box<dyn PortDevice>>,
) -> Result<Machine, NoMemory>
    requires runnable { IsRunnable deck }
    requires distinct { AreDistinct (map device_of devices.old.items) }
    ensures run { IfOk result (λ m. HasRun device_of faults mode (trial_of (map device_of devices.old.items) deck) deck.count
        devices.old.items devices.new.items m) }
    ensures unmade { OnErr result ((job : Asked) → IsUnreported device_of faults job deck devices.old.items devices.new.items) }
{
    let Ready {
        mut machine,
        orders,
        ..
    } = make_ready(alloc, mode, deck, devices)?;
    let count = machine.limit();
    machine.run(&orders, count, devices);
    Ok(machine)
}

/// The same up to the first inadmissible step. The laws of guarded runs are cited here alone, for `run` and for `soak`.
fn run_judged(
    alloc: Global,
    deck: Deck,
    devices: &mut Vec<Box<dyn PortDevice>>,
) -> Result<Machine, NoMemory>
    requires runnable { IsRunnable deck }
    requires distinct { AreDistinct (map device_of devices.old.items) }
    ensures run { IfOk result (λ m. HasJudged device_of faults (trial_of (map device_of devices.old.items) deck) deck.count
        devices.old.items devices.new.items m) }
    ensures unmade { OnErr result ((job : Asked) → IsUnreported device_of faults job deck devices.old.items devices.new.items) }
{
    guarded_follows();
    failed_exchange();
    lvdc_laws_voted::guarded_run();
    lvdc_laws_voted::judges_alone();
    lvdc_laws_voted::guarded_ends();
    lvdc_laws_voted::guarded_times();
    lvdc_laws_voted::words_known();
    lvdc_laws_voted::all_times_made();
    run_machine(alloc, Mode::Guarded, deck, devices)
}

/// Runs a deck by the voted machine up to the first inadmissible step, and reports the run.
pub(crate) fn run_guarded(
    alloc: Global,
    deck: Deck,
    devices: &mut Vec<Box<dyn PortDevice>>,
) -> Result<Reply, NoMemory>
    requires runnable { IsRunnable deck }
    requires distinct { AreDistinct (map device_of devices.old.items) }
    ensures run { IfOk result (λ reply. IsRunOf device_of faults (jobs.Deck engines.Guarded) deck devices.old.items devices.new.items
        (answer_with reply.status reply.text (map device_of devices.new.items))) }
    ensures unreported { OnErr result (IsUnreported device_of faults (jobs.Deck engines.Guarded) deck devices.old.items devices.new.items) }
    ensures room { IfOk result (λ reply. length reply.text ≤ LONGEST_REPORT) }
{
    let machine = run_judged(alloc, deck, devices)?;
    report_end(alloc, &machine)
}

/// Runs a deck by the voted machine through every fault, and reports the run.
pub(crate) fn run_through(
    alloc: Global,
    deck: Deck,
    devices: &mut Vec<Box<dyn PortDevice>>,
) -> Result<Reply, NoMemory>
    requires runnable { IsRunnable deck }
    requires distinct { AreDistinct (map device_of devices.old.items) }
    ensures run { IfOk result (λ reply. IsRunOf device_of faults (jobs.Deck engines.Through) deck devices.old.items devices.new.items
        (answer_with reply.status reply.text (map device_of devices.new.items))) }
    ensures unreported { OnErr result (IsUnreported device_of faults (jobs.Deck engines.Through) deck devices.old.items devices.new.items) }
    ensures room { IfOk result (λ reply. length reply.text ≤ LONGEST_REPORT) }
{
    let machine = run_machine(alloc, Mode::Through, deck, devices)?;
    report_end(alloc, &machine)
}

/// Makes the plain machine of a deck, and runs it.
fn run_plain_machine(
    alloc: Global,
    deck: Deck,
    devices: &mut Vec<Box<dyn PortDevice>>,
) -> Result<Plain, NoMemory>
    requires runnable { IsRunnable deck }
    requires distinct { AreDistinct (map device_of devices.old.items) }
    ensures run { IfOk result (λ m. HasRunPlainly device_of faults (trial_of (map device_of devices.old.items) deck) deck.count
        devices.old.items devices.new.items m) }
    ensures unmade { OnErr result ((job : Asked) → IsUnreported device_of faults job deck devices.old.items devices.new.items) }
{
    supply_all(devices, deck.supplies.items())?;
    let Deck {
        image,
        start,
        banks,
        unplugs,
        count,
        ..
    } = deck;
    let mut machine = Plain::new(
        alloc,
        image.words(),
        banks,
        start,
        unplugs.into_vec(),
        count,
        devices,
    )?;
    machine.run(count, devices);
    Ok(machine)
}

/// Runs a deck by the plain machine, and reports the run.
pub(crate) fn run_plain(
    alloc: Global,
    deck: Deck,
    devices: &mut Vec<Box<dyn PortDevice>>,
) -> Result<Reply, NoMemory>
    requires runnable { IsRunnable deck }
    requires distinct { AreDistinct (map device_of devices.old.items) }
    ensures run { IfOk result (λ reply. IsRunOf device_of faults (jobs.Deck engines.Plain) deck devices.old.items devices.new.items
        (answer_with reply.status reply.text (map device_of devices.new.items))) }
    ensures unreported { OnErr result (IsUnreported device_of faults (jobs.Deck engines.Plain) deck devices.old.items devices.new.items) }
    ensures room { IfOk result (λ reply. length reply.text ≤ LONGEST_REPORT) }
{
    let machine = run_plain_machine(alloc, deck, devices)?;
    let end = machine.outcome();
    let text = report_plain(alloc, &machine, end)?;
    Ok(Reply {
        status: plain_status(&end),
        text: Seq::from_vec(text),
    })
}

/// Runs the deck that a number draws, and sums the run up. Of the bytes nothing is asked.
pub(crate) fn run_soak(
    alloc: Global,
    number: u32,
    devices: &mut Vec<Box<dyn PortDevice>>,
) -> Result<Reply, NoMemory>
    requires distinct { AreDistinct (map device_of devices.old.items) }
    ensures reply { IfOk result (λ reply. (bytes : List ℕ) → IsAnswered device_of faults (jobs.Soak number) bytes devices.old.items devices.new.items
        (answer_with reply.status reply.text (map device_of devices.new.items))) }
    ensures unanswered { OnErr result ((bytes : List ℕ) → IsUnanswered device_of faults (jobs.Soak number) bytes devices.old.items devices.new.items) }
    ensures room { IfOk result (λ reply. length reply.text ≤ LONGEST_REPORT) }
{
    let deck = soak_deck(alloc, number)?;
    let machine = run_judged(alloc, deck, devices)?;
    let end = machine.outcome();
    let text = report_soak(alloc, &machine, number, end)?;
    Ok(Reply {
        status: end_status(&end),
        text: Seq::from_vec(text),
    })
}
