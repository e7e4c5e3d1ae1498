ghost use Rattle.std.specs.Prelude.{◌≡◌, ℕ, ◌+◌, ◌≤◌, ◌<◌, ◌^◌, [], ◌∷◌, All, List, map, replicate};
ghost use Rattle.lvdc_vote.specs.Copies.{vote_of};
ghost use Rattle.lvdc_modules.specs.Rows.{rows, bus_of, start_latches};
ghost use Rattle.lvdc_vote.specs.Numbers.{latches_of};
ghost use Rattle.lvdc_fault.specs.declared.event.Event.{Event};
ghost use Rattle.lvdc_model.specs.Voted.{next_copies, counted, thrice, count_of};
ghost use Rattle.lvdc_fault.specs.Events.{IsEvent};
ghost use Rattle.lvdc_logic.specs.Counts.{counts_in};
ghost use Rattle.lvdc_forces.specs.InForce.{IsInForce};
ghost use Rattle.lvdc_logic.specs.Latching.{alike, copies_in, AllFresh, AllSized};
ghost use Rattle.lvdc_logic.specs.Logic.{latch_of, vote_at, is_outvoted, DifferedAtMost};

use crate::counts::Counts;
use crate::triples::Triples;
use crate::words::latch_on;
use lvdc_forces::InForce;
use lvdc_map::Hop;
use lvdc_modules::{
    AccumulatorState, Bus, DecoderState, ExchangeState, LocatorState, MultiplierState,
    SelectorState, TimerState, data_word, place_word,
};
use lvdc_orders::Order;
use lvdc_word::Word;
use std::marker::Model;

/// Three copies of each of the seven modules, and of each copy in how many steps it differed from the vote. Contracts see
/// the lists of both. The bus is that of the votes; where no copy stands apart, it is all that is kept of the copies.
pub struct Logic {
    pub(crate) bus: Bus,
    pub(crate) apart: bool,
    pub(crate) triples: Triples,
    pub(crate) counts: Counts,
}

/// Its parts go in one call, which whoever lets it go doesn't look into.
impl Drop for Logic {
    fn drop(self) {
        let Logic {
            bus: _,
            apart: _,
            triples: _,
            counts: _,
        } = self;
    }
}

impl Model for Logic {
    ghost use Rattle.lvdc_logic.specs.Counts.{counts_in};
    ghost use Rattle.lvdc_logic.specs.Latching.{copies_by, copies_in, IsVoted};
    ghost use Rattle.lvdc_logic.specs.Logic.{LogicState};

    ghost Value = { LogicState };

    ghost view = { λ l. record { copies = copies_in (copies_by l.apart l.triples l.bus); counts = counts_in l.counts } };

    ghost invariant = { λ l. IsVoted (copies_by l.apart l.triples l.bus) l.bus };
}

impl Logic {
    /// The logic at a start: equal copies, of which none has differed.
    pub fn new(start: Hop) -> Logic
        ensures copies { result.copies ≡ map thrice (start_latches start) }
        ensures counts { result.counts ≡ replicate 7 (0 ∷ 0 ∷ 0 ∷ []) }
        ensures differed { DifferedAtMost 0 result.counts }
    {
        let bus = bus_at_start(start);
        Logic {
            bus,
            apart: false,
            triples: Triples::alike(&bus),
            counts: Counts::none(),
        }
    }

    /// The logic with these copies, and with these counts.
    pub(crate) fn of_copies(triples: Triples, counts: Counts) -> Logic
        requires fresh { AllFresh triples }
        requires sized { AllSized triples }
        ensures copies { result.copies ≡ copies_in triples }
        ensures counts { result.counts ≡ counts_in counts }
    {
        Logic {
            bus: triples.voted_bus(Word::ZERO, Word::ZERO),
            apart: true,
            triples,
            counts,
        }
    }

    /// The bus of the votes, without a word from memory or port.
    pub fn bus(&self) -> &Bus
        ensures { result.now ≡ bus_of (map vote_of self.now.copies) 0 0 }
    {
        &self.bus
    }

    /// Makes a step with this in force, in which the copies latch in this order: each from the bus of the votes with these words from
    /// memory and port, or where it is deaf from the copies of its own number, and with what is in force on it. Then each copy that
    /// differs from the new vote is counted. It is the step of each script that puts this in force, and doesn't depend on the order.
    pub fn step_under(&mut self, order: &Order, force: &InForce, memory: Word, port: Word)
        requires differed { DifferedAtMost (2 ^ 63) self.old.counts }
        ensures copies { (script : List Event) (step : ℕ) → All IsEvent script → IsInForce script step force.now
            → self.new.copies ≡ next_copies script step 1 rows self.old.copies self.old.copies (bus_of (map vote_of self.old.copies) memory port) }
        ensures counts { self.new.counts ≡ counted self.new.copies self.old.counts }
        ensures differed { (most : ℕ) → DifferedAtMost most self.old.counts → DifferedAtMost (most + 1) self.new.counts }
    {
        if force.any {
            self.triples.stand_apart(self.apart, &self.bus);
            self.apart = true;
            self.bus.memory = memory;
            self.bus.port = port;
            self.triples
                .step(order, force, &mut self.bus, &mut self.counts);
        } else {
            self.bus.memory = memory;
            self.bus.port = port;
            self.bus.renew();
            self.apart = false;
        }
    }

    /// In how many steps a copy differed from the vote. Modules are 1 to 7 and copies 1 to 3.
    pub fn differed(&self, number: u8, copy: u8) -> u64
        requires first_number { 1 ≤ number }
        requires last_number { number ≤ 7 }
        requires first_copy { 1 ≤ copy }
        requires last_copy { copy ≤ 3 }
        ensures { result ≡ count_of self.now.counts number copy }
    {
        self.counts.of_module(number)[usize::from(copy - 1)]
    }

    /// The word of a latch of a copy. Modules are 1 to 7, copies 1 to 3, and latches are counted from 0.
    pub fn copy_word(&self, number: u8, copy: u8, index: u8) -> Word
        requires first_number { 1 ≤ number }
        requires last_number { number ≤ 7 }
        requires first_copy { 1 ≤ copy }
        requires last_copy { copy ≤ 3 }
        requires index { index < latches_of number }
        ensures { result ≡ latch_of self.now.copies number copy index }
    {
        if self.apart {
            self.triples.word(number, copy, index)
        } else {
            latch_on(&self.bus, number, index)
        }
    }

    /// The vote over a latch of a module. Modules are 1 to 7, and latches are counted from 0.
    pub fn voted_word(&self, number: u8, index: u8) -> Word
        requires first_number { 1 ≤ number }
        requires last_number { number ≤ 7 }
        requires index { index < latches_of number }
        ensures { result ≡ vote_at self.now.copies number index }
    {
        if self.apart {
            self.triples.voted_word(number, index)
        } else {
            latch_on(&self.bus, number, index)
        }
    }

    /// Does a copy differ from the vote of its module? Modules are 1 to 7 and copies 1 to 3.
    pub fn is_outvoted(&self, number: u8, copy: u8) -> bool
        requires first_number { 1 ≤ number }
        requires last_number { number ≤ 7 }
        requires first_copy { 1 ≤ copy }
        requires last_copy { copy ≤ 3 }
        ensures { result ≡ is_outvoted self.now.copies number copy }
    {
        self.apart && self.triples.is_outvoted(number, copy)
    }
}

/// The bus at a start: all latches are 0 but the place and the data place.
fn bus_at_start(start: Hop) -> Bus
    ensures copies { copies_in (alike result) ≡ map thrice (start_latches start) }
    ensures memory { result.memory ≡ 0 }
    ensures port { result.port ≡ 0 }
{
    let zero_word = Word::ZERO;
    Bus {
        timer: TimerState {
            phase: zero_word,
            hold: zero_word,
        },
        locator: LocatorState {
            place: place_word(start),
            saver: zero_word,
        },
        decoder: DecoderState { instr: zero_word },
        selector: SelectorState {
            hold_place: data_word(start),
        },
        accumulator: AccumulatorState {
            a: zero_word,
            operand: zero_word,
        },
        multiplier: MultiplierState {
            pq: zero_word,
            control: zero_word,
            m: zero_word,
            h: zero_word,
            q: zero_word,
        },
        exchange: ExchangeState {
            stop: zero_word,
            request: zero_word,
        },
        memory: zero_word,
        port: zero_word,
    }
}
