//! What a run of the voted machine came to beside what the plain run came to.

ghost use Rattle.std.specs.Prelude.{◌≡◌, ◌*◌, ◌/◌, ◌<◌, ℕ, true};
ghost use Rattle.lvdc_map.specs.Address.{spot_at};
ghost use Rattle.lvdc_model.specs.Runs.{through};
ghost use Rattle.lvdc_model.specs.Trial.{Trial, plain_at};
ghost use Rattle.lvdc_machine.specs.declared.mode.Mode.TheVariants.{Through};
ghost use Rattle.lvdc_runs.specs.Ran.{HasRun, HasRunPlainly};
ghost use Rattle.lvdc_runs.specs.Same.{are_same_registers, is_same_end, is_same_word};

use lvdc_machine::{Machine, Outcome};
use lvdc_map::Address;
use lvdc_plain::{Plain, PlainEnd, Visible};

/// Is it the same end?
pub fn is_same_end(voted: Option<Outcome>, plain: Option<PlainEnd>) -> bool
    ensures { result ≡ is_same_end voted plain }
{
    match (voted, plain) {
        (None, None) => true,
        (
            Some(Outcome::Stopped { step, stop }),
            Some(
                PlainEnd::Stopped {
                    step: at,
                    stop: why,
                },
            ),
        ) => { step == at && stop == why }
        _ => false,
    }
}

/// Are they the same registers? It stands for its clause alone, which proofs cite.
pub fn are_same_registers(voted: &Visible, plain: &Visible) -> bool
    ensures { result ≡ are_same_registers voted.now plain.now }
{
    voted == plain
}

/// Is the intended word of an address the plain machine's, where its bank is there?
pub fn is_same_word(machine: &Machine, plain: &Plain, at: Address) -> bool
    requires { machine.now.banks ≡ plain.now.banks }
    ensures { (o : Trial) (times : ℕ) → HasRun Through o times machine.now → HasRunPlainly o.opening times plain.now
        → result ≡ is_same_word o.opening.banks (through o (3 * times)).intended (plain_at o times).memory at }
{
    if !machine.banks().has(at) {
        return true;
    }
    machine.intended(at) == plain.word(at)
}

/// Is each word of a sector, of the 128 in the order of addresses, 0 in both machines? So none differs there. False says nothing.
pub fn are_blank(machine: &Machine, plain: &Plain, sector: usize) -> bool
    requires { sector < 128 }
    ensures { result ≡ true → (o : Trial) (times : ℕ) → HasRun Through o times machine.now → HasRunPlainly o.opening times plain.now
        → (number : ℕ) → number < 32768 → number / 256 ≡ sector
        → is_same_word o.opening.banks (through o (3 * times)).intended (plain_at o times).memory (spot_at number) ≡ true }
{
    machine.is_blank(sector) && plain.is_blank(sector)
}
