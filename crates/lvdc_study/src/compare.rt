//! What a run through every fault came to beside what the plain run came to.

ghost use Rattle.std.specs.Prelude.{◌≡◌, ◌+◌, ◌*◌, ◌<◌, ℕ, Some, None, MatchOption};
ghost use Rattle.lvdc_model.specs.Runs.{through};
ghost use Rattle.lvdc_model.specs.Trial.{Trial, plain_at};
ghost use Rattle.lvdc_machine.specs.declared.mode.Mode.TheVariants.{Through};
ghost use Rattle.lvdc_runs.specs.Ran.{HasRun, HasRunPlainly};
ghost use Rattle.lvdc_runs.specs.Same.{is_same_exchange};
ghost use Rattle.lvdc_study.specs.Outcomes.{time_of_difference, least_below, address_of_difference, first_difference};

use crate::Difference;
use lvdc_machine::Machine;
use lvdc_map::Address;
use lvdc_plain::{Exchange, Plain};
use lvdc_runs::{are_blank, are_same_registers, is_same_end, is_same_word, through_is_shown};

/// Is it the same exchange? It stands for its clause alone, which proofs cite.
fn is_same_exchange(voted: &Exchange, plain: &Exchange) -> bool
    ensures { result ≡ is_same_exchange voted.now plain.now }
{
    voted == plain
}

/// The time of the first line that two port logs don't share.
fn time_of_difference(voted: &[Exchange], plain: &[Exchange]) -> Option<u64>
    ensures { result ≡ time_of_difference voted.now plain.now }
{
    let mut others = plain.iter();
    for line in voted {
        let Some(other) = others.next() else {
            return Some(line.time);
        };
        if !is_same_exchange(line, other) {
            return Some(line.time.min(other.time));
        }
    }
    match others.next() {
        Some(other) => Some(other.time),
        None => None,
    }
}

/// The least address of a sector, of the 128 in the order of addresses, whose words differ, of those whose banks are there.
fn difference_in_sector(machine: &Machine, plain: &Plain, sector: usize) -> Option<Address>
    requires banks { machine.now.banks ≡ plain.now.banks }
    requires sector { sector < 128 }
    ensures { (o : Trial) (times : ℕ) → HasRun Through o times machine.now → HasRunPlainly o.opening times plain.now
        → least_below o.opening.banks (through o (3 * times)).intended (plain_at o times).memory (256 * sector) ≡ None
        → MatchOption result
        (least_below o.opening.banks (through o (3 * times)).intended (plain_at o times).memory (256 * sector + 256) ≡ None)
        (λ at. address_of_difference o.opening.banks (through o (3 * times)).intended (plain_at o times).memory ≡ Some at) }
{
    if are_blank(machine, plain, sector) {
        return None;
    }
    for number in 256 * sector..256 * sector + 256 {
        let at = Address::numbered(number);
        if !is_same_word(machine, plain, at) {
            return Some(at);
        }
    }
    None
}

/// The least address whose words differ, of those whose banks are there.
fn address_of_difference(machine: &Machine, plain: &Plain) -> Option<Address>
    requires { machine.now.banks ≡ plain.now.banks }
    ensures { (o : Trial) (times : ℕ) → HasRun Through o times machine.now → HasRunPlainly o.opening times plain.now
        → result ≡ address_of_difference o.opening.banks (through o (3 * times)).intended (plain_at o times).memory }
{
    for sector in 0..Address::SECTORS {
        match difference_in_sector(machine, plain, sector) {
            Some(at) => return Some(at),
            None => {}
        }
    }
    None
}

/// The first difference between a machine that went through every fault and the plain machine.
pub(crate) fn first_difference(machine: &Machine, plain: &Plain) -> Option<Difference>
    requires { machine.now.banks ≡ plain.now.banks }
    ensures { (o : Trial) (times : ℕ) → HasRun Through o times machine.now → HasRunPlainly o.opening times plain.now
        → result ≡ first_difference o times }
{
    through_is_shown();
    if !is_same_end(machine.ended(), plain.end()) {
        return Some(Difference::End);
    }
    match time_of_difference(machine.log(), plain.log()) {
        Some(time) => return Some(Difference::Port(time)),
        None => {}
    }
    if !are_same_registers(&machine.visible(), &plain.visible()) {
        return Some(Difference::Registers);
    }
    match address_of_difference(machine, plain) {
        Some(at) => Some(Difference::Words(at)),
        None => None,
    }
}
