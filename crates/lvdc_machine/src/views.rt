//! What can be seen of the voted machine.

ghost use Rattle.std.specs.Prelude.{◌≡◌, ℕ, ◌-◌, ◌*◌, ◌/◌, ◌%◌, ◌≤◌, ◌<◌, ◌↔◌, List, length, true, IsTrue, Option, Some};
ghost use Rattle.lvdc_map.specs.Address.{Spot, IsAddress, number_of};
ghost use Rattle.lvdc_map.specs.Banks.{is_there};
ghost use Rattle.lvdc_map.specs.Memory.{word_at};
ghost use Rattle.lvdc_port.specs.Device as device;
ghost use Rattle.lvdc_modules.specs.Seen.{hold};
ghost use Rattle.lvdc_vote.specs.Numbers.{latches_of};
ghost use Rattle.lvdc_model.specs.Trial.{Trial};
ghost use Rattle.lvdc_model.specs.Voted.{Voted, count_of};
ghost use Rattle.lvdc_fault.specs.Script.{is_wrong};
ghost use Rattle.lvdc_logic.specs.Logic.{latch_of, vote_at, is_outvoted};
ghost use Rattle.lvdc_machine.specs.Resumed.{state_from, StandsFrom};
ghost use Rattle.lvdc_machine.specs.Room.{pace_of};
ghost use Rattle.lvdc_machine.specs.Stands.{shown_of};
ghost use Rattle.lvdc_machine.specs.declared.shown.Shown.TheVariants.{Known};
ghost use Rattle.lvdc_machine.specs.View.{bus_of_votes, registers_on, visible_of, answer_of_end};

use crate::{Machine, Mode, Shown};
use lvdc_map::{Address, Banks, Hop};
use lvdc_model::{Outcome, Repair};
use lvdc_modules::Bus;
use lvdc_plain::{Exchange, Visible};
use lvdc_word::Word;

/// The registers on a bus, after so many steps. The data fields of the place are those of DATA.
fn registers_on(bus: &Bus, steps: u64) -> Visible
    ensures { result ≡ registers_on bus.now steps }
{
    let place = Hop::of(bus.locator.place);
    let held = Hop::of(bus.selector.hold_place);
    Visible {
        place: Hop {
            dmod: held.dmod,
            dsec: held.dsec,
            dupdn: held.dupdn,
            ..place
        },
        a: bus.accumulator.a,
        pq: bus.multiplier.pq,
        saver: bus.locator.saver,
        times: steps / 3,
    }
}

impl Machine {
    /// The voted registers that a report shows, and the whole times made.
    pub fn visible(&self) -> Visible
        ensures registers { result ≡ visible_of self.now }
        ensures few { result.times ≤ Self.LIMIT }
    {
        registers_on(self.logic.bus(), self.steps)
    }

    /// The intended word of an address whose bank is there, where it can be recovered: told of the state where the machine stands.
    pub fn shown(&self, at: Address) -> Shown
        requires { is_there self.now.banks at ≡ true }
        ensures told { (o : Trial) (first : Voted) (n : ℕ) (ds : List device.Device) → StandsFrom o first n self.now ds
            → result ≡ shown_of o (state_from self.now.end self.now.mode o first n) at }
    {
        if self.memory.recoverable(at) {
            Shown::Known(self.memory.intended(at))
        } else {
            Shown::Unknown
        }
    }

    /// Is the word of an address, by its number, known to be 0, as `shown` tells it where the bank is there? False says nothing.
    #[inline(always)]
    pub fn is_zero(&self, number: usize) -> bool
        requires { number < 32768 }
        ensures { result ≡ true → (o : Trial) (first : Voted) (n : ℕ) (ds : List device.Device) → StandsFrom o first n self.now ds
            → (at : Spot) → IsAddress at → number_of at ≡ number → shown_of o (state_from self.now.end self.now.mode o first n) at ≡ Known 0 }
    {
        self.memory.is_zero(number)
    }

    /// Is the word of each address of a sector, of the 128 in the order of addresses, known to be 0, as `shown` tells it where the bank is
    /// there? False says nothing: it tells in which sectors nothing was loaded, stored, damaged, stuck or dead.
    pub fn is_blank(&self, sector: usize) -> bool
        requires { sector < 128 }
        ensures told { result ≡ true → (o : Trial) (first : Voted) (n : ℕ) (ds : List device.Device) → StandsFrom o first n self.now ds
            → (at : Spot) → IsAddress at → number_of at / 256 ≡ sector → shown_of o (state_from self.now.end self.now.mode o first n) at ≡ Known 0 }
        ensures words { result ≡ true → (o : Trial) (first : Voted) (n : ℕ) (ds : List device.Device) → StandsFrom o first n self.now ds
            → (at : Spot) → IsAddress at → number_of at / 256 ≡ sector → word_at (state_from self.now.end self.now.mode o first n).intended at ≡ 0 }
    {
        self.memory.is_blank(sector)
    }

    /// The intended word of an address whose bank is there: the last word that the machine as voted stored there, else the
    /// image's, else 0.
    pub fn intended(&self, at: Address) -> Word
        requires { is_there self.now.banks at ≡ true }
        ensures told { (o : Trial) (first : Voted) (n : ℕ) (ds : List device.Device) → StandsFrom o first n self.now ds
            → result ≡ word_at (state_from self.now.end self.now.mode o first n).intended at }
    {
        self.memory.intended(at)
    }

    /// The port exchanges that were made, the oldest first.
    pub fn log(&self) -> &[Exchange]
        ensures log { result.now ≡ self.now.log }
        ensures few { self.now.pace ≡ pace_of self.now.mode → length result.now ≤ 3 * Self.LIMIT }
    {
        &self.log
    }

    /// The repairs that reads noted, the oldest first.
    pub fn repairs(&self) -> &[Repair]
        ensures repairs { result.now ≡ self.now.repairs }
        ensures few { length result.now ≤ 3 * Self.LIMIT }
    {
        &self.repairs
    }

    /// In how many steps a copy differed from the vote. Modules are 1 to 7 and copies 1 to 3.
    pub fn differed(&self, number: u8, copy: u8) -> u64
        requires first_number { 1 ≤ number }
        requires last_number { number ≤ 7 }
        requires first_copy { 1 ≤ copy }
        requires last_copy { copy ≤ 3 }
        ensures count { result ≡ count_of self.now.counts number copy }
        ensures few { result ≤ 3 * Self.LIMIT }
    {
        self.logic.differed(number, copy)
    }

    /// The word of a latch of a copy. Modules are 1 to 7, copies 1 to 3, and latches are counted from 0.
    pub fn copy_word(&self, number: u8, copy: u8, index: u8) -> Word
        requires first_number { 1 ≤ number }
        requires last_number { number ≤ 7 }
        requires first_copy { 1 ≤ copy }
        requires last_copy { copy ≤ 3 }
        requires index { index < latches_of number }
        ensures { result ≡ latch_of self.now.copies number copy index }
    {
        self.logic.copy_word(number, copy, index)
    }

    /// The vote over a latch of a module. Modules are 1 to 7, and latches are counted from 0.
    pub fn voted_word(&self, number: u8, index: u8) -> Word
        requires first_number { 1 ≤ number }
        requires last_number { number ≤ 7 }
        requires index { index < latches_of number }
        ensures { result ≡ vote_at self.now.copies number index }
    {
        self.logic.voted_word(number, index)
    }

    /// Does a copy differ from the vote of its module? Modules are 1 to 7 and copies 1 to 3.
    pub fn is_outvoted(&self, number: u8, copy: u8) -> bool
        requires first_number { 1 ≤ number }
        requires last_number { number ≤ 7 }
        requires first_copy { 1 ≤ copy }
        requires last_copy { copy ≤ 3 }
        ensures { result ≡ is_outvoted self.now.copies number copy }
    {
        self.logic.is_outvoted(number, copy)
    }

    /// Does a fault act on this copy in the step that was begun last, whatever comes of it? Modules are 1 to 7 and copies 1 to 3.
    pub fn is_wrong(&self, number: u8, copy: u8) -> bool
        requires first_number { 1 ≤ number }
        requires last_number { number ≤ 7 }
        requires first_copy { 1 ≤ copy }
        requires last_copy { copy ≤ 3 }
        ensures { (step : ℕ) → self.now.on_memory.last ≡ Some step → result ≡ is_wrong self.now.script step number copy }
    {
        self.forces.has(number, copy)
    }

    /// Is an instruction time left for which nothing is fetched, by the voted HOLD?
    pub fn holding(&self) -> bool
        ensures { IsTrue result ↔ (0 < hold (bus_of_votes self.now.copies)) }
    {
        self.logic.bus().timer.hold.value() % 8 > 0
    }

    /// The end that has come; none where every call has answered `Done`.
    pub fn ended(&self) -> Option<Outcome>
        ensures { result ≡ self.now.end }
    {
        let end = self.end?;
        Some(end.outcome())
    }

    /// What the calls answer by the end that has come: it, or `Done` where none has.
    pub fn outcome(&self) -> Outcome
        ensures { result ≡ answer_of_end self.now.end }
    {
        match self.ended() {
            Some(end) => end,
            None => Outcome::Done,
        }
    }

    /// How it goes through its script.
    pub fn mode(&self) -> Mode
        ensures { result ≡ self.now.mode }
    {
        self.mode
    }

    /// Which pairs of memory modules are simplex, as it was given.
    pub fn banks(&self) -> Banks
        ensures { result ≡ self.now.banks }
    {
        self.banks
    }

    /// The steps made: those that came to latching.
    pub fn steps(&self) -> u64
        ensures { result ≡ self.now.steps }
    {
        self.steps
    }

    /// The most instruction times that may be made.
    pub fn limit(&self) -> u64
        ensures { result ≡ self.now.limit }
    {
        self.limit
    }
}
