ghost use Rattle.std.specs.Prelude.{◌≡◌, ℕ, ◌≤◌, ◌<◌, ◌+◌, ◌/◌, ◌%◌, ◌^◌, ◌⊎◌, None, List, All, map, slice_index, true, false};
ghost use Rattle.lvdc_vote.specs.Copies.{copy_of, shadow_of, vote_of, after_settle, IsFresh, IsFullOrder, IsSized};
ghost use Rattle.lvdc_vote.specs.Harms.{harmed};
ghost use Rattle.lvdc_modules.specs.Rows.{rows, bus_of};
ghost use Rattle.lvdc_model.specs.Voted.{next_copies, counted, counted_three};
ghost use Rattle.lvdc_fault.specs.Events.{IsEvent};
ghost use Rattle.lvdc_fault.specs.declared.event.Event.{Event};
ghost use Rattle.lvdc_logic.specs.Counts.{counts_in};
ghost use Rattle.lvdc_forces.specs.InForce.{faults_at, mark_at, IsInForce};
ghost use Rattle.lvdc_logic.specs.Harmed.{after_harms, three_harmed, latched_under};
ghost use Rattle.lvdc_logic.specs.Latching.{alike, copies_by, copies_in, row_of, latches_in, triple_in, after_number, after_numbers, after_steps, AllFresh, AllSized, AreAlike};
ghost use Rattle.lvdc_logic.specs.Logic.{DifferedAtMost};

use crate::counts::Counts;
use lvdc_forces::{Faults, InForce};
use lvdc_modules::{Accumulator, Bus, Decoder, Exchanger, Locator, Multiplier, Selector, Timer};
use lvdc_orders::Order;
use lvdc_vote::{Harm, LogicModule, Triple, Vote, harm_suffices};
use lvdc_word::Word;

/// Three copies of each module, and what each has latched.
pub struct Triples {
    pub timer: Triple<Timer>,
    pub locator: Triple<Locator>,
    pub decoder: Triple<Decoder>,
    pub selector: Triple<Selector>,
    pub accumulator: Triple<Accumulator>,
    pub multiplier: Triple<Multiplier>,
    pub exchange: Triple<Exchanger>,
}

/// Its parts go in one call, which whoever lets it go doesn't look into.
impl Drop for Triples {
    fn drop(self) {
        let Triples {
            timer: _,
            locator: _,
            decoder: _,
            selector: _,
            accumulator: _,
            multiplier: _,
            exchange: _,
        } = self;
    }
}

impl Triples {
    /// Three equal copies of each state on a bus.
    pub fn alike(votes: &Bus) -> Triples
        ensures { result ≡ alike votes.now }
    {
        Triples {
            timer: Triple::new(votes.timer),
            locator: Triple::new(votes.locator),
            decoder: Triple::new(votes.decoder),
            selector: Triple::new(votes.selector),
            accumulator: Triple::new(votes.accumulator),
            multiplier: Triple::new(votes.multiplier),
            exchange: Triple::new(votes.exchange),
        }
    }

    /// The copies that stand apart; where none does, those that are alike on the bus.
    pub fn stand_apart(&mut self, apart: bool, votes: &Bus)
        ensures { self.new ≡ copies_by apart self.old votes.now }
    {
        if !apart {
            *self = Triples::alike(votes);
        }
    }

    /// The votes, and the words of memory and port.
    pub fn voted_bus(&self, memory: Word, port: Word) -> Bus
        ensures { result ≡ bus_of (map vote_of (copies_in self.now)) memory port }
    {
        Bus {
            timer: self.timer.voted(),
            locator: self.locator.voted(),
            decoder: self.decoder.voted(),
            selector: self.selector.voted(),
            accumulator: self.accumulator.voted(),
            multiplier: self.multiplier.voted(),
            exchange: self.exchange.voted(),
            memory,
            port,
        }
    }

    /// Makes a step with this in force, from this bus of the votes, which becomes that of the new ones. Each copy that differs from the
    /// new vote is counted.
    pub fn step(&mut self, order: &Order, force: &InForce, bus: &mut Bus, counts: &mut Counts)
        requires fresh { AllFresh self.old }
        requires sized { AllSized self.old }
        requires any { force.now.any ≡ true }
        requires votes { bus.old ≡ bus_of (map vote_of (copies_in self.old)) bus.old.memory bus.old.port }
        requires differed { DifferedAtMost (2 ^ 63) (counts_in counts.old) }
        ensures copies { (script : List Event) (step : ℕ) → All IsEvent script → IsInForce script step force.now
            → copies_in self.new ≡ next_copies script step 1 rows (copies_in self.old) (copies_in self.old) bus.old }
        ensures counts { counts_in counts.new ≡ counted (copies_in self.new) (counts_in counts.old) }
        ensures votes { bus.new ≡ bus_of (map vote_of (copies_in self.new)) 0 0 }
        ensures fresh { AllFresh self.new }
        ensures sized { AllSized self.new }
    {
        harm_suffices();
        if self.hears_apart(force) {
            self.latch_named(order, force, bus);
            self.settle(bus, counts);
            *bus = self.voted_bus(Word::ZERO, Word::ZERO);
        } else {
            bus.renew();
            self.renew_under(force, bus, counts);
        }
    }

    /// May a copy hear anything but the votes? None does where none is deaf, nor where the copies of each number are what the votes are.
    fn hears_apart(&self, force: &InForce) -> bool
        ensures { result ≡ false → (force.now.deaf ≡ false) ⊎ AreAlike self.now }
    {
        force.deaf && !self.are_alike()
    }

    /// Is each copy what its vote is?
    fn are_alike(&self) -> bool
        ensures { result ≡ true → AreAlike self.now }
    {
        self.timer.is_unanimous()
            & self.locator.is_unanimous()
            & self.decoder.is_unanimous()
            & self.selector.is_unanimous()
            & self.accumulator.is_unanimous()
            & self.multiplier.is_unanimous()
            & self.exchange.is_unanimous()
    }

    /// The copies of one number, 0 to 2, and the words of memory and port.
    fn copied_bus(&self, copy: u8, memory: Word, port: Word) -> Bus
        requires { copy < 3 }
        ensures { result ≡ bus_of (map (λ t. copy_of t copy) (copies_in self.now)) memory port }
    {
        Bus {
            timer: *self.timer.copy(copy),
            locator: *self.locator.copy(copy),
            decoder: *self.decoder.copy(copy),
            selector: *self.selector.copy(copy),
            accumulator: *self.accumulator.copy(copy),
            multiplier: *self.multiplier.copy(copy),
            exchange: *self.exchange.copy(copy),
            memory,
            port,
        }
    }

    /// Copy `number % 3` of module `number / 3`, both counted from 0, latches, from the votes, or where it is deaf from the copies
    /// of its own number.
    fn latch_next(&mut self, number: u8, faults: &Faults, voted: &Bus)
        requires number { number < 21 }
        requires fresh { shadow_of (triple_in self.old number) (number % 3) ≡ None }
        ensures { self.new ≡ after_number self.old number (latched_under faults.now self.old voted.now number) }
    {
        if faults.deaf {
            let heard = self.copied_bus(number % 3, voted.memory, voted.port);
            self.latch(number, &heard, &faults.harm);
        } else {
            self.latch(number, voted, &faults.harm);
        }
    }

    /// The same copy latches from this bus.
    fn latch(&mut self, number: u8, bus: &Bus, harm: &Harm)
        requires number { number < 21 }
        requires fresh { shadow_of (triple_in self.old number) (number % 3) ≡ None }
        ensures { self.new ≡ after_number self.old number (harmed (latches_in self.old number) (row_of (number / 3) bus.now) harm.now) }
    {
        let copy = number % 3;
        match number / 3 {
            0 => self.timer.latch_under(copy, bus, harm),
            1 => self.locator.latch_under(copy, bus, harm),
            2 => self.decoder.latch_under(copy, bus, harm),
            3 => self.selector.latch_under(copy, bus, harm),
            4 => self.accumulator.latch_under(copy, bus, harm),
            5 => self.multiplier.latch_under(copy, bus, harm),
            _ => self.exchange.latch_under(copy, bus, harm),
        }
    }

    /// The copies that are marked latch by themselves in this order, each with what is in force on it. What comes of it doesn't depend on the
    /// order.
    fn latch_named(&mut self, order: &Order, force: &InForce, voted: &Bus)
        requires fresh { AllFresh self.old }
        ensures value { self.new ≡ after_numbers self.old (mark_at force.now.marks) order.now
            (λ n. latched_under (faults_at force.now.copies n) self.old voted.now n) }
        ensures full { IsFullOrder 21 order.now }
    {
        for number in order.copies() {
            if force.is_marked(*number) {
                self.latch_next(*number, force.on_copy(*number), voted);
            }
        }
    }

    /// Each copy hears the votes: each that is marked latches what follows for its module, which is on this bus, under what is wrong with it, and
    /// every other one has what follows. No copy waits for another, so there is no order. The bus becomes that of the new votes, and each
    /// copy that differs from them is counted.
    fn renew_under(&mut self, force: &InForce, next: &mut Bus, counts: &mut Counts)
        requires fresh { AllFresh self.old }
        requires differed { DifferedAtMost (2 ^ 63) (counts_in counts.old) }
        ensures value { self.new ≡ after_harms force.now self.old next.old }
        ensures votes { next.new ≡ bus_of (map vote_of (copies_in self.new)) next.old.memory next.old.port }
        ensures counts { counts_in counts.new ≡ counted (copies_in self.new) (counts_in counts.old) }
        ensures sized { AllSized self.new }
    {
        renew(
            &mut self.timer,
            &mut counts.timer,
            force,
            0,
            &mut next.timer,
        );
        renew(
            &mut self.locator,
            &mut counts.locator,
            force,
            3,
            &mut next.locator,
        );
        renew(
            &mut self.decoder,
            &mut counts.decoder,
            force,
            6,
            &mut next.decoder,
        );
        renew(
            &mut self.selector,
            &mut counts.selector,
            force,
            9,
            &mut next.selector,
        );
        renew(
            &mut self.accumulator,
            &mut counts.accumulator,
            force,
            12,
            &mut next.accumulator,
        );
        renew(
            &mut self.multiplier,
            &mut counts.multiplier,
            force,
            15,
            &mut next.multiplier,
        );
        renew(
            &mut self.exchange,
            &mut counts.exchange,
            force,
            18,
            &mut next.exchange,
        );
    }

    /// What each copy latched takes its place, and that of a copy that hasn't latched what follows from the votes, which is worked
    /// out once for a module. Each copy that differs from the new vote is counted.
    fn settle(&mut self, voted: &Bus, counts: &mut Counts)
        requires differed { DifferedAtMost (2 ^ 63) (counts_in counts.old) }
        ensures value { self.new ≡ after_steps self.old voted.now }
        ensures counts { counts_in counts.new ≡ counted (copies_in self.new) (counts_in counts.old) }
        ensures sized { AllSized self.new }
    {
        settle(&mut self.timer, &mut counts.timer, voted);
        settle(&mut self.locator, &mut counts.locator, voted);
        settle(&mut self.decoder, &mut counts.decoder, voted);
        settle(&mut self.selector, &mut counts.selector, voted);
        settle(&mut self.accumulator, &mut counts.accumulator, voted);
        settle(&mut self.multiplier, &mut counts.multiplier, voted);
        settle(&mut self.exchange, &mut counts.exchange, voted);
    }
}

/// The next copies of a module: what each latched, or the state that follows from the votes; and their counts.
fn settle<M: LogicModule>(triple: &mut Triple<M>, counts: &mut [u64; 3], voted: &M::Bus)
    requires differed { (c : ℕ) → slice_index counts.old c ≤ 2 ^ 63 }
    ensures value { triple.new ≡ after_settle triple.old (M.next_of voted.now) }
    ensures counts { counts.new ≡ counted_three triple.new counts.old }
    ensures sized { IsSized M.State.LATCHES triple.new }
{
    triple.settle(M::next(voted));
    *counts = counted_three(triple, *counts);
}

/// The next copies of a module, numbered from the first on, where this state follows, which becomes their vote; and their counts.
#[inline(always)]
fn renew<M: LogicModule>(
    triple: &mut Triple<M>,
    counts: &mut [u64; 3],
    force: &InForce,
    first: u8,
    next: &mut M::State,
)
    requires first { first + 2 < 21 }
    requires fresh { IsFresh triple.old }
    requires differed { (c : ℕ) → slice_index counts.old c ≤ 2 ^ 63 }
    ensures value { triple.new ≡ three_harmed force.now first triple.old (M.State.latches next.old) }
    ensures vote { M.State.latches next.new ≡ vote_of triple.new }
    ensures counts { counts.new ≡ counted_three triple.new counts.old }
    ensures sized { IsSized M.State.LATCHES triple.new }
{
    let one = &force.on_copy(first).harm;
    let two = &force.on_copy(first + 1).harm;
    let three = &force.on_copy(first + 2).harm;
    match (
        force.is_marked(first),
        force.is_marked(first + 1),
        force.is_marked(first + 2),
    ) {
        (false, false, false) => triple.renew(next.copied()),
        (true, false, false) => counts[0] += u64::from(triple.renew_one(next, one)),
        (false, true, false) => counts[1] += u64::from(triple.renew_two(next, two)),
        (false, false, true) => counts[2] += u64::from(triple.renew_three(next, three)),
        _ => {
            triple.renew_under(
                next,
                force.harm_on(first),
                force.harm_on(first + 1),
                force.harm_on(first + 2),
            );
            *counts = counted_three(triple, *counts);
        }
    }
}

/// The counts of the copies of a module, with one more for each that differs from the vote.
fn counted_three<M: LogicModule>(triple: &Triple<M>, counts: [u64; 3]) -> [u64; 3]
    requires { (c : ℕ) → slice_index counts c ≤ 2 ^ 63 }
    ensures { result ≡ counted_three triple.now counts }
{
    if triple.is_unanimous() {
        return counts;
    }
    [
        counts[0] + u64::from(triple.differs(0)),
        counts[1] + u64::from(triple.differs(1)),
        counts[2] + u64::from(triple.differs(2)),
    ]
}
