//! The latches of all copies and their counts as lists: a logic made from them, and what a logic has.

ghost use Rattle.std.specs.Prelude.{◌≡◌, ℕ, ◌+◌, ◌≤◌, ◌++◌, All, IfOk, length};
ghost use Rattle.lvdc_modules.specs.States.{timer_latches, locator_latches, decoder_latches, selector_latches, accumulator_latches, multiplier_latches, exchange_latches};
ghost use Rattle.lvdc_model.specs.Listing.{items_at, copies_of, counts_of};
ghost use Rattle.lvdc_logic.specs.Counts.{counts_in};
ghost use Rattle.lvdc_logic.specs.Latching.{copies_in, AllFresh, AllSized};
ghost use Rattle.lvdc_logic.specs.Logic.{DifferedAtMost};

use crate::Logic;
use crate::counts::Counts;
use crate::triples::Triples;
use lvdc_modules::{
    Accumulator, AccumulatorState, Decoder, DecoderState, ExchangeState, Exchanger, Locator,
    LocatorState, Multiplier, MultiplierState, Selector, SelectorState, Timer, TimerState,
};
use lvdc_vote::Triple;
use lvdc_word::{NoMemory, Seq, Word};
use std::alloc::Global;

impl Logic {
    /// The logic whose copies have these 45 latches, by module, copy and index, and differed so often, which are 21 counts by
    /// module and copy.
    pub fn from_latches(latches: &[Word], counts: &[u64]) -> Logic
        requires latches { length latches.now ≡ 45 }
        requires counts { length counts.now ≡ 21 }
        ensures copies { result.copies ≡ copies_of latches.now }
        ensures counts { result.counts ≡ counts_of counts.now }
        ensures differed { (most : ℕ) → All (λ count. count ≤ most) counts.now → DifferedAtMost most result.counts }
    {
        Logic::of_copies(triples_of(latches), counts_of(counts))
    }

    /// The 45 latches, by module, copy and index, and in how many steps each copy differed from the vote, 21 counts by module and copy.
    pub fn lists(&self, alloc: Global) -> Result<(Seq<Word>, Seq<u64>), NoMemory>
        ensures latches { IfOk result (λ lists. length lists.0 ≡ 45) }
        ensures copies { IfOk result (λ lists. copies_of lists.0 ≡ self.now.copies) }
        ensures differed { IfOk result (λ lists. length lists.1 ≡ 21) }
        ensures counts { IfOk result (λ lists. counts_of lists.1 ≡ self.now.counts) }
        ensures most { (most : ℕ) → DifferedAtMost most self.now.counts → IfOk result (λ lists. All (λ count. count ≤ most) lists.1) }
    {
        let latches = self.latches(alloc)?;
        let counts = self.counts(alloc)?;
        Ok((Seq::from_vec(latches), Seq::from_vec(counts)))
    }

    /// The 45 latches, by module, copy and index.
    fn latches(&self, alloc: Global) -> Result<Vec<Word>, NoMemory>
        ensures count { IfOk result (λ latches. length latches.items ≡ 45) }
        ensures copies { IfOk result (λ latches. copies_of latches.items ≡ self.now.copies) }
    {
        if self.apart {
            latches_in(alloc, &self.triples)
        } else {
            latches_in(alloc, &Triples::alike(&self.bus))
        }
    }

    /// In how many steps each copy differed from the vote: 21 counts, by module and copy.
    fn counts(&self, alloc: Global) -> Result<Vec<u64>, NoMemory>
        ensures count { IfOk result (λ counts. length counts.items ≡ 21) }
        ensures counts { IfOk result (λ counts. counts_of counts.items ≡ self.now.counts) }
        ensures most { (most : ℕ) → DifferedAtMost most self.now.counts → IfOk result (λ counts. All (λ count. count ≤ most) counts.items) }
    {
        let mut counts = Vec::with_capacity(alloc, 21)?;
        counts.extend_from_slice(&self.counts.timer)?;
        counts.extend_from_slice(&self.counts.locator)?;
        counts.extend_from_slice(&self.counts.decoder)?;
        counts.extend_from_slice(&self.counts.selector)?;
        counts.extend_from_slice(&self.counts.accumulator)?;
        counts.extend_from_slice(&self.counts.multiplier)?;
        counts.extend_from_slice(&self.counts.exchange)?;
        Ok(counts)
    }
}

/// The 45 latches of these copies.
fn latches_in(alloc: Global, triples: &Triples) -> Result<Vec<Word>, NoMemory>
    requires fresh { AllFresh triples.now }
    requires sized { AllSized triples.now }
    ensures count { IfOk result (λ latches. length latches.items ≡ 45) }
    ensures copies { IfOk result (λ latches. copies_of latches.items ≡ copies_in triples.now) }
{
    let mut latches = Vec::with_capacity(alloc, 45)?;
    latches.extend_from_slice(&timer_words(&triples.timer))?;
    latches.extend_from_slice(&locator_words(&triples.locator))?;
    latches.extend_from_slice(&decoder_words(&triples.decoder))?;
    latches.extend_from_slice(&selector_words(&triples.selector))?;
    latches.extend_from_slice(&accumulator_words(&triples.accumulator))?;
    latches.extend_from_slice(&multiplier_words(&triples.multiplier))?;
    latches.extend_from_slice(&exchange_words(&triples.exchange))?;
    Ok(latches)
}

/// The triples with these latches.
fn triples_of(latches: &[Word]) -> Triples
    requires { length latches.now ≡ 45 }
    ensures copies { copies_in result ≡ copies_of latches.now }
    ensures fresh { AllFresh result }
    ensures sized { AllSized result }
{
    Triples {
        timer: Triple::from_copies(
            timer_at(latches, 0),
            timer_at(latches, 2),
            timer_at(latches, 4),
        ),
        locator: Triple::from_copies(
            locator_at(latches, 6),
            locator_at(latches, 8),
            locator_at(latches, 10),
        ),
        decoder: Triple::from_copies(
            decoder_at(latches, 12),
            decoder_at(latches, 13),
            decoder_at(latches, 14),
        ),
        selector: Triple::from_copies(
            selector_at(latches, 15),
            selector_at(latches, 16),
            selector_at(latches, 17),
        ),
        accumulator: Triple::from_copies(
            accumulator_at(latches, 18),
            accumulator_at(latches, 20),
            accumulator_at(latches, 22),
        ),
        multiplier: Triple::from_copies(
            multiplier_at(latches, 24),
            multiplier_at(latches, 29),
            multiplier_at(latches, 34),
        ),
        exchange: Triple::from_copies(
            exchange_at(latches, 39),
            exchange_at(latches, 41),
            exchange_at(latches, 43),
        ),
    }
}

/// The counts with these numbers.
fn counts_of(counts: &[u64]) -> Counts
    requires { length counts.now ≡ 21 }
    ensures { counts_in result ≡ counts_of counts.now }
{
    Counts {
        timer: [counts[0], counts[1], counts[2]],
        locator: [counts[3], counts[4], counts[5]],
        decoder: [counts[6], counts[7], counts[8]],
        selector: [counts[9], counts[10], counts[11]],
        accumulator: [counts[12], counts[13], counts[14]],
        multiplier: [counts[15], counts[16], counts[17]],
        exchange: [counts[18], counts[19], counts[20]],
    }
}

/// The latches of TIMER that stand from an index on.
fn timer_at(latches: &[Word], from: usize) -> TimerState
    requires { from + 2 ≤ length latches.now }
    ensures { timer_latches result ≡ items_at latches.now from 2 }
{
    TimerState {
        phase: latches[from],
        hold: latches[from + 1],
    }
}

/// The latches of LOCATOR that stand from an index on.
fn locator_at(latches: &[Word], from: usize) -> LocatorState
    requires { from + 2 ≤ length latches.now }
    ensures { locator_latches result ≡ items_at latches.now from 2 }
{
    LocatorState {
        place: latches[from],
        saver: latches[from + 1],
    }
}

/// The latches of DECODER that stand from an index on.
fn decoder_at(latches: &[Word], from: usize) -> DecoderState
    requires { from + 1 ≤ length latches.now }
    ensures { decoder_latches result ≡ items_at latches.now from 1 }
{
    DecoderState {
        instr: latches[from],
    }
}

/// The latches of SELECTOR that stand from an index on.
fn selector_at(latches: &[Word], from: usize) -> SelectorState
    requires { from + 1 ≤ length latches.now }
    ensures { selector_latches result ≡ items_at latches.now from 1 }
{
    SelectorState {
        hold_place: latches[from],
    }
}

/// The latches of ACCUMULATOR that stand from an index on.
fn accumulator_at(latches: &[Word], from: usize) -> AccumulatorState
    requires { from + 2 ≤ length latches.now }
    ensures { accumulator_latches result ≡ items_at latches.now from 2 }
{
    AccumulatorState {
        a: latches[from],
        operand: latches[from + 1],
    }
}

/// The latches of MULTIPLIER that stand from an index on.
fn multiplier_at(latches: &[Word], from: usize) -> MultiplierState
    requires { from + 5 ≤ length latches.now }
    ensures { multiplier_latches result ≡ items_at latches.now from 5 }
{
    MultiplierState {
        pq: latches[from],
        control: latches[from + 1],
        m: latches[from + 2],
        h: latches[from + 3],
        q: latches[from + 4],
    }
}

/// The latches of EXCHANGE that stand from an index on.
fn exchange_at(latches: &[Word], from: usize) -> ExchangeState
    requires { from + 2 ≤ length latches.now }
    ensures { exchange_latches result ≡ items_at latches.now from 2 }
{
    ExchangeState {
        stop: latches[from],
        request: latches[from + 1],
    }
}

/// The latches of the three copies of TIMER.
fn timer_words(triple: &Triple<Timer>) -> [Word; 6]
    ensures { result ≡ triple.now.one ++ triple.now.two ++ triple.now.three }
{
    let (one, two, three) = (triple.copy(0), triple.copy(1), triple.copy(2));
    [
        one.phase,
        one.hold,
        two.phase,
        two.hold,
        three.phase,
        three.hold,
    ]
}

/// The latches of the three copies of LOCATOR.
fn locator_words(triple: &Triple<Locator>) -> [Word; 6]
    ensures { result ≡ triple.now.one ++ triple.now.two ++ triple.now.three }
{
    let (one, two, three) = (triple.copy(0), triple.copy(1), triple.copy(2));
    [
        one.place,
        one.saver,
        two.place,
        two.saver,
        three.place,
        three.saver,
    ]
}

/// The latches of the three copies of DECODER.
fn decoder_words(triple: &Triple<Decoder>) -> [Word; 3]
    ensures { result ≡ triple.now.one ++ triple.now.two ++ triple.now.three }
{
    let (one, two, three) = (triple.copy(0), triple.copy(1), triple.copy(2));
    [one.instr, two.instr, three.instr]
}

/// The latches of the three copies of SELECTOR.
fn selector_words(triple: &Triple<Selector>) -> [Word; 3]
    ensures { result ≡ triple.now.one ++ triple.now.two ++ triple.now.three }
{
    let (one, two, three) = (triple.copy(0), triple.copy(1), triple.copy(2));
    [one.hold_place, two.hold_place, three.hold_place]
}

/// The latches of the three copies of ACCUMULATOR.
fn accumulator_words(triple: &Triple<Accumulator>) -> [Word; 6]
    ensures { result ≡ triple.now.one ++ triple.now.two ++ triple.now.three }
{
    let (one, two, three) = (triple.copy(0), triple.copy(1), triple.copy(2));
    [
        one.a,
        one.operand,
        two.a,
        two.operand,
        three.a,
        three.operand,
    ]
}

/// The latches of the three copies of MULTIPLIER.
fn multiplier_words(triple: &Triple<Multiplier>) -> [Word; 15]
    ensures { result ≡ triple.now.one ++ triple.now.two ++ triple.now.three }
{
    let (one, two, three) = (triple.copy(0), triple.copy(1), triple.copy(2));
    [
        one.pq,
        one.control,
        one.m,
        one.h,
        one.q,
        two.pq,
        two.control,
        two.m,
        two.h,
        two.q,
        three.pq,
        three.control,
        three.m,
        three.h,
        three.q,
    ]
}

/// The latches of the three copies of EXCHANGE.
fn exchange_words(triple: &Triple<Exchanger>) -> [Word; 6]
    ensures { result ≡ triple.now.one ++ triple.now.two ++ triple.now.three }
{
    let (one, two, three) = (triple.copy(0), triple.copy(1), triple.copy(2));
    [
        one.stop,
        one.request,
        two.stop,
        two.request,
        three.stop,
        three.request,
    ]
}
