ghost use Rattle.std.specs.Prelude.{◌≡◌, ℕ, ◌<◌, slice_get, Some, None, true, false, not, ◌&&◌, IsSome, unwrap_or};
ghost use Rattle.std.specs.Option.{option_copied, option_map};
ghost use Rattle.lvdc_vote.specs.Bits.{TwoAre};
ghost use Rattle.lvdc_vote.specs.Latches.{IsMajority};
ghost use Rattle.lvdc_vote.specs.Copies.{settled, copy_of, shadow_of, after_latch, after_settle, vote_of, differs_of, IsFresh, IsSized};
ghost use Rattle.lvdc_vote.specs.Differences.{kept_of, shadow_by, IsKept};
ghost use Rattle.lvdc_vote.specs.Harms.{harmed, harmed_by};

use crate::harm::{harmed_state, has_patch, patch_all};
use crate::{Harm, LogicModule, Vote};
use lvdc_word::Word;
use std::marker::Model;

/// Three copies of the state of a module, and the shadow of each: what it has latched, until the three are settled. Of a copy
/// only what differs from the vote is kept, and of a shadow only what differs from the shadow that was latched first;
/// contracts see the three whole copies and shadows that are meant.
pub struct Triple<M: LogicModule> {
    voted: M::State,
    one: Option<M::State>,
    two: Option<M::State>,
    three: Option<M::State>,
    first: Option<M::State>,
    shadow_one: Option<M::State>,
    shadow_two: Option<M::State>,
    shadow_three: Option<M::State>,
    latched_one: bool,
    latched_two: bool,
    latched_three: bool,
}

impl<M: LogicModule> Model for Triple<M> {
    ghost use Rattle.std.specs.Option.{option_map};
    ghost use Rattle.lvdc_vote.specs.Copies.{Copies};
    ghost use Rattle.lvdc_vote.specs.Differences.{copies_by, IsSound};

    ghost Value = { Copies };

    ghost view = { λ t. copies_by (record {
      voted = M.State.latches t.voted;
      one = option_map M.State.latches t.one;
      two = option_map M.State.latches t.two;
      three = option_map M.State.latches t.three;
      first = option_map M.State.latches t.first;
      shadow_one = option_map M.State.latches t.shadow_one;
      shadow_two = option_map M.State.latches t.shadow_two;
      shadow_three = option_map M.State.latches t.shadow_three;
      latched_one = t.latched_one;
      latched_two = t.latched_two;
      latched_three = t.latched_three;
    }) };

    ghost invariant = { λ t. IsSound (record {
      voted = M.State.latches t.voted;
      one = option_map M.State.latches t.one;
      two = option_map M.State.latches t.two;
      three = option_map M.State.latches t.three;
      first = option_map M.State.latches t.first;
      shadow_one = option_map M.State.latches t.shadow_one;
      shadow_two = option_map M.State.latches t.shadow_two;
      shadow_three = option_map M.State.latches t.shadow_three;
      latched_one = t.latched_one;
      latched_two = t.latched_two;
      latched_three = t.latched_three;
    }) };
}

impl<M: LogicModule> Drop for Triple<M> {
    fn drop(self) {
        let Triple {
            voted: _,
            one: _,
            two: _,
            three: _,
            first: _,
            shadow_one: _,
            shadow_two: _,
            shadow_three: _,
            latched_one: _,
            latched_two: _,
            latched_three: _,
        } = self;
    }
}

impl<M: LogicModule> Triple<M> {
    /// Three copies of one state, of which none has latched.
    pub fn new(state: M::State) -> Triple<M>
        ensures value { result ≡ settled (M.State.latches state) (M.State.latches state) (M.State.latches state) }
        ensures sized { IsSized M.State.LATCHES result }
    {
        Triple {
            voted: state,
            one: None,
            two: None,
            three: None,
            first: None,
            shadow_one: None,
            shadow_two: None,
            shadow_three: None,
            latched_one: false,
            latched_two: false,
            latched_three: false,
        }
    }

    /// All three copies have this state.
    pub fn renew(&mut self, state: M::State)
        requires { IsFresh self.old }
        ensures value { self.new ≡ settled (M.State.latches state) (M.State.latches state) (M.State.latches state) }
        ensures vote { vote_of self.new ≡ M.State.latches state }
        ensures agree { (c : ℕ) → differs_of self.new c ≡ false }
        ensures sized { IsSized M.State.LATCHES self.new }
    {
        self.voted = state;
        self.one = None;
        self.two = None;
        self.three = None;
    }

    /// Copy 1 latches by itself, and has what it latches under what is wrong with it, where this state follows; the others have this
    /// state, which is the vote. Does the copy differ from it?
    #[inline(always)]
    pub fn renew_one(&mut self, state: &M::State, harm: &Harm) -> bool
        requires { IsFresh self.old }
        ensures value { self.new ≡ settled (harmed self.old.one (M.State.latches state.now) harm.now) (M.State.latches state.now) (M.State.latches state.now) }
        ensures vote { vote_of self.new ≡ M.State.latches state.now }
        ensures differs { result ≡ differs_of self.new 0 }
        ensures two { differs_of self.new 1 ≡ false }
        ensures three { differs_of self.new 2 ≡ false }
        ensures sized { IsSized M.State.LATCHES self.new }
    {
        latch_alone(&mut self.one, &self.voted, state, harm);
        self.two = None;
        self.three = None;
        self.voted = state.copied();
        self.differs(0)
    }

    /// Copy 2 latches by itself, and has what it latches under what is wrong with it, where this state follows; the others have this
    /// state, which is the vote. Does the copy differ from it?
    #[inline(always)]
    pub fn renew_two(&mut self, state: &M::State, harm: &Harm) -> bool
        requires { IsFresh self.old }
        ensures value { self.new ≡ settled (M.State.latches state.now) (harmed self.old.two (M.State.latches state.now) harm.now) (M.State.latches state.now) }
        ensures vote { vote_of self.new ≡ M.State.latches state.now }
        ensures differs { result ≡ differs_of self.new 1 }
        ensures one { differs_of self.new 0 ≡ false }
        ensures three { differs_of self.new 2 ≡ false }
        ensures sized { IsSized M.State.LATCHES self.new }
    {
        latch_alone(&mut self.two, &self.voted, state, harm);
        self.one = None;
        self.three = None;
        self.voted = state.copied();
        self.differs(1)
    }

    /// Copy 3 latches by itself, and has what it latches under what is wrong with it, where this state follows; the others have this
    /// state, which is the vote. Does the copy differ from it?
    #[inline(always)]
    pub fn renew_three(&mut self, state: &M::State, harm: &Harm) -> bool
        requires { IsFresh self.old }
        ensures value { self.new ≡ settled (M.State.latches state.now) (M.State.latches state.now) (harmed self.old.three (M.State.latches state.now) harm.now) }
        ensures vote { vote_of self.new ≡ M.State.latches state.now }
        ensures differs { result ≡ differs_of self.new 2 }
        ensures one { differs_of self.new 0 ≡ false }
        ensures two { differs_of self.new 1 ≡ false }
        ensures sized { IsSized M.State.LATCHES self.new }
    {
        latch_alone(&mut self.three, &self.voted, state, harm);
        self.one = None;
        self.two = None;
        self.voted = state.copied();
        self.differs(2)
    }

    /// Each copy that latches by itself has what it latches under what is wrong with it, where this state follows; every other one has
    /// this state. The state becomes the vote.
    #[inline(never)]
    pub fn renew_under(
        &mut self,
        state: &mut M::State,
        one: Option<&Harm>,
        two: Option<&Harm>,
        three: Option<&Harm>,
    )
        ensures value { self.new ≡ settled
            (harmed_by (option_copied one.entry) self.old.one (M.State.latches state.old))
            (harmed_by (option_copied two.entry) self.old.two (M.State.latches state.old))
            (harmed_by (option_copied three.entry) self.old.three (M.State.latches state.old)) }
        ensures vote { M.State.latches state.new ≡ vote_of self.new }
        ensures sized { IsSized M.State.LATCHES self.new }
    {
        let one = self.latched_by(0, state, one);
        let two = self.latched_by(1, state, two);
        let three = self.latched_by(2, state, three);
        *self = Triple::from_copies(one, two, three);
        *state = self.voted();
    }

    /// What a copy latches where this state follows, by itself or with the others.
    fn latched_by(&self, copy: u8, state: &M::State, harm: Option<&Harm>) -> M::State
        requires { copy < 3 }
        ensures { M.State.latches result ≡ harmed_by (option_copied harm.entry) (copy_of self.now copy) (M.State.latches state.now) }
    {
        match harm {
            Some(harm) => harmed_state(self.copy(copy), state, harm),
            None => state.copied(),
        }
    }

    /// These copies, of which none has latched.
    pub fn from_copies(one: M::State, two: M::State, three: M::State) -> Triple<M>
        ensures value { result ≡ settled (M.State.latches one) (M.State.latches two) (M.State.latches three) }
        ensures sized { IsSized M.State.LATCHES result }
    {
        let voted = M::State::vote(&one, &two, &three);
        let kept_one = kept(one, &voted);
        let kept_two = kept(two, &voted);
        let kept_three = kept(three, &voted);
        Triple {
            voted,
            one: kept_one,
            two: kept_two,
            three: kept_three,
            first: None,
            shadow_one: None,
            shadow_two: None,
            shadow_three: None,
            latched_one: false,
            latched_two: false,
            latched_three: false,
        }
    }

    /// The copy latches what follows from the bus, or where it lags what it has, under what is wrong with it. The copies themselves stay
    /// until they are settled.
    pub fn latch_under(&mut self, copy: u8, bus: &M::Bus, harm: &Harm)
        requires copy { copy < 3 }
        requires fresh { shadow_of self.old copy ≡ None }
        ensures { self.new ≡ after_latch self.old copy (harmed (copy_of self.old copy) (M.next_of bus.now) harm.now) }
    {
        let shadow = harmed_state(self.copy(copy), &M::next(bus), harm);
        self.put_shadow(copy, shadow);
    }

    /// The copy has latched this state.
    fn put_shadow(&mut self, copy: u8, shadow: M::State)
        requires copy { copy < 3 }
        requires fresh { shadow_of self.old copy ≡ None }
        ensures { self.new ≡ after_latch self.old copy (M.State.latches shadow) }
    {
        let first = &mut self.first;
        match copy {
            0 => note(first, &mut self.shadow_one, &mut self.latched_one, shadow),
            1 => note(first, &mut self.shadow_two, &mut self.latched_two, shadow),
            _ => note(
                first,
                &mut self.shadow_three,
                &mut self.latched_three,
                shadow,
            ),
        }
    }

    /// What each copy has latched takes its place, and this state that of each copy that hasn't latched. Where at most one has, the
    /// state is the vote.
    pub fn settle(&mut self, state: M::State)
        ensures value { self.new ≡ after_settle self.old (M.State.latches state) }
        ensures sized { IsSized M.State.LATCHES self.new }
    {
        match (self.latched_one, self.latched_two, self.latched_three) {
            (false, false, false) => self.keep(None, None, None, state),
            (true, false, false) => {
                let one = beside(&self.shadow_one, &self.first, &state);
                self.keep(one, None, None, state);
            }
            (false, true, false) => {
                let two = beside(&self.shadow_two, &self.first, &state);
                self.keep(None, two, None, state);
            }
            (false, false, true) => {
                let three = beside(&self.shadow_three, &self.first, &state);
                self.keep(None, None, three, state);
            }
            _ => self.settle_apart(&state),
        }
    }

    /// The copies are these beside a state that is their vote, and none has latched.
    fn keep(
        &mut self,
        one: Option<M::State>,
        two: Option<M::State>,
        three: Option<M::State>,
        state: M::State,
    )
        requires { IsKept (M.State.latches state) (option_map M.State.latches one) (option_map M.State.latches two) (option_map M.State.latches three) }
        ensures value { self.new ≡ settled (unwrap_or (option_map M.State.latches one) (M.State.latches state))
            (unwrap_or (option_map M.State.latches two) (M.State.latches state))
            (unwrap_or (option_map M.State.latches three) (M.State.latches state)) }
        ensures sized { IsSized M.State.LATCHES self.new }
    {
        self.voted = state;
        self.one = one;
        self.two = two;
        self.three = three;
        self.first = None;
        self.latched_one = false;
        self.latched_two = false;
        self.latched_three = false;
    }

    /// What each copy has latched takes its place, whichever copies have, and this state that of each that hasn't.
    fn settle_apart(&mut self, state: &M::State)
        ensures value { self.new ≡ after_settle self.old (M.State.latches state.now) }
        ensures sized { IsSized M.State.LATCHES self.new }
    {
        let settled = {
            let first = &self.first;
            let one = latched_or(self.latched_one, &self.shadow_one, first, state).copied();
            let two = latched_or(self.latched_two, &self.shadow_two, first, state).copied();
            let three = latched_or(self.latched_three, &self.shadow_three, first, state).copied();
            Triple::from_copies(one, two, three)
        };
        *self = settled;
    }

    /// The vote over the three copies.
    pub fn voted(&self) -> M::State
        ensures value { M.State.latches result ≡ vote_of self.now }
        ensures two { (state : M.State) → TwoAre self.now.one self.now.two self.now.three (M.State.latches state) → result ≡ state }
        ensures bits { IsMajority self.now.one self.now.two self.now.three (M.State.latches result) }
    {
        self.voted.copied()
    }

    /// Does the copy differ from the vote?
    pub fn differs(&self, copy: u8) -> bool
        requires { copy < 3 }
        ensures { result ≡ differs_of self.now copy }
    {
        match copy {
            0 => self.one.is_some(),
            1 => self.two.is_some(),
            _ => self.three.is_some(),
        }
    }

    /// Has each copy the vote?
    pub fn is_unanimous(&self) -> bool
        ensures { result ≡ (not (differs_of self.now 0) && not (differs_of self.now 1) && not (differs_of self.now 2)) }
    {
        !self.differs(0) && !self.differs(1) && !self.differs(2)
    }

    /// The word of one latch of a copy.
    pub fn word(&self, copy: u8, index: u8) -> Word
        requires copy { copy < 3 }
        requires index { index < M.State.LATCHES }
        ensures { slice_get (copy_of self.now copy) index ≡ Some result }
    {
        self.copy(copy).latch(index)
    }

    /// The copy of this number.
    pub fn copy(&self, copy: u8) -> &M::State
        requires { copy < 3 }
        ensures { M.State.latches result.now ≡ copy_of self.now copy }
    {
        match copy {
            0 => meant(&self.one, &self.voted),
            1 => meant(&self.two, &self.voted),
            _ => meant(&self.three, &self.voted),
        }
    }
}

/// One copy latches: the shadow that comes first is kept whole, and of another what differs from it.
fn note<S: Vote>(first: &mut Option<S>, own: &mut Option<S>, latched: &mut bool, shadow: S)
    ensures first { option_map S.latches first.new ≡ Some (unwrap_or (option_map S.latches first.old) (S.latches shadow)) }
    ensures own { option_map S.latches own.new ≡ kept_of (S.latches shadow) (unwrap_or (option_map S.latches first.old) (S.latches shadow)) }
    ensures latched { latched.new ≡ true }
{
    *latched = true;
    if let Some(base) = first {
        *own = kept(shadow, base);
    } else {
        *first = Some(shadow);
        *own = None;
    }
}

/// What is kept of a state beside a base: nothing where they are the same.
fn kept<S: Vote>(state: S, base: &S) -> Option<S>
    ensures { option_map S.latches result ≡ kept_of (S.latches state) (S.latches base.now) }
{
    if state.same(base) { None } else { Some(state) }
}

/// What is kept of a copy beside the vote becomes what is kept beside the state that follows of what it latches by itself.
#[inline(always)]
fn latch_alone<S: Vote>(own: &mut Option<S>, voted: &S, state: &S, harm: &Harm)
    ensures { option_map S.latches own.new ≡ kept_of (harmed (unwrap_or (option_map S.latches own.old) (S.latches voted.now))
        (S.latches state.now) harm.now) (S.latches state.now) }
{
    if !harm.lags {
        *own = kept(patch_all(state, &harm.patches), state);
    } else if has_patch::<S>(&harm.patches) {
        *own = kept(patch_all(meant(own, voted), &harm.patches), state);
    } else {
        stay(own, voted, state);
    }
}

/// What is kept of a copy beside the vote becomes what is kept of it beside the state that follows.
#[inline(always)]
fn stay<S: Vote>(own: &mut Option<S>, voted: &S, state: &S)
    ensures { option_map S.latches own.new ≡ kept_of (unwrap_or (option_map S.latches own.old) (S.latches voted.now)) (S.latches state.now) }
{
    if let Some(old) = own {
        if old.same(state) {
            *own = None;
        }
    } else {
        *own = kept(voted.copied(), state);
    }
}

/// What a copy has latched, or this state where it hasn't latched.
fn latched_or<'a, S: Vote>(
    latched: bool,
    own: &'a Option<S>,
    first: &'a Option<S>,
    state: &'a S,
) -> &'a S
    requires { latched ≡ true → IsSome first.now }
    ensures { S.latches result.now ≡ unwrap_or (shadow_by latched (option_map S.latches own.now) (option_map S.latches first.now)) (S.latches state.now) }
{
    if latched {
        meant(own, meant(first, state))
    } else {
        state
    }
}

/// What is kept beside a state of what a copy has latched.
fn beside<S: Vote>(own: &Option<S>, first: &Option<S>, state: &S) -> Option<S>
    ensures { option_map S.latches result ≡ kept_of (unwrap_or (option_map S.latches own.now)
        (unwrap_or (option_map S.latches first.now) (S.latches state.now))) (S.latches state.now) }
{
    let shadow = meant(own, meant(first, state));
    if shadow.same(state) {
        None
    } else {
        Some(shadow.copied())
    }
}

/// The state of which this is kept beside a base.
fn meant<'a, S: Vote>(own: &'a Option<S>, base: &'a S) -> &'a S
    ensures { S.latches result.now ≡ unwrap_or (option_map S.latches own.now) (S.latches base.now) }
{
    match own {
        Some(state) => state,
        None => base,
    }
}
