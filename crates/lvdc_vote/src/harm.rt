//! What many hurts of one copy come to: one patch for each latch, whatever their number.

ghost use Rattle.std.specs.Prelude.{◌≡◌, ℕ, ◌≤◌, ◌<◌, ◌↔◌, List, length, All, IsTrue, false};
ghost use Rattle.lvdc_vote.specs.Harms.{harm_and, harm_of, harmed, no_harm, no_patch, patch_and_flip, patch_and_force, patched_all, patched_at};
ghost use Rattle.lvdc_vote.specs.Latches.{latched_by, FitsLatches};
ghost use Rattle.lvdc_vote.specs.declared.hurt.Hurt.{Hurt};

use crate::bits::{flipped, forced};
use crate::{Hurt, Vote};
use lvdc_word::Word;

/// What becomes of the word of one latch: the bits under the mask are those of the value, and the others are turned over where
/// the value has a one.
#[derive(Clone, Copy, PartialEq, Eq)]
pub struct Patch {
    pub mask: Word,
    pub value: Word,
}

impl Patch {
    /// The patch under which each word stays.
    fn none() -> Patch
        ensures { result ≡ no_patch }
    {
        Patch {
            mask: Word::ZERO,
            value: Word::ZERO,
        }
    }

    /// Does each word stay?
    fn is_none(&self) -> bool
        ensures { IsTrue result ↔ (self.now ≡ no_patch) }
    {
        *self == Patch::none()
    }

    /// This, after which the bits under the mask are turned over.
    fn and_flip(self, mask: Word) -> Patch
        ensures { result ≡ patch_and_flip self mask }
    {
        Patch {
            mask: self.mask,
            value: flipped(self.value, mask),
        }
    }

    /// This, after which the bits under the mask are those of the value.
    fn and_force(self, mask: Word, value: Word) -> Patch
        ensures { result ≡ patch_and_force self mask value }
    {
        Patch {
            mask: forced(self.mask, mask, mask),
            value: forced(self.value, mask, value),
        }
    }
}

/// What is wrong with one copy of a module as it latches, in as much room for a thousand hurts as for one: whether it lags, and
/// what becomes of each latch. No module has more than five.
#[derive(Clone, Copy, PartialEq, Eq)]
pub struct Harm {
    pub(crate) lags: bool,
    pub(crate) patches: [Patch; 5],
}

impl Harm {
    /// Nothing is wrong.
    pub fn none() -> Harm
        ensures { result ≡ no_harm }
    {
        Harm {
            lags: false,
            patches: [Patch::none(); 5],
        }
    }

    /// This, and one hurt more, which comes after those that there were.
    pub fn and(self, hurt: Hurt) -> Harm
        requires { FitsLatches 5 hurt }
        ensures { result ≡ harm_and self hurt }
    {
        let mut harm = self;
        match hurt {
            Hurt::Lag => harm.lags = true,
            Hurt::Flip { index, mask } => {
                let patch = &mut harm.patches[usize::from(index)];
                *patch = patch.and_flip(mask);
            }
            Hurt::Force { index, mask, value } => {
                let patch = &mut harm.patches[usize::from(index)];
                *patch = patch.and_force(mask, value);
            }
        }
        harm
    }
}

/// What a copy latches: the state that follows, or where it lags its old state; then each latch has its patch.
pub(crate) fn harmed_state<S: Vote>(old: &S, next: &S, harm: &Harm) -> S
    ensures { S.latches result ≡ harmed (S.latches old.now) (S.latches next.now) harm.now }
{
    let begun = if harm.lags { old } else { next };
    patch_all(begun, &harm.patches)
}

/// The state each of whose latches has its patch.
#[inline(always)]
pub(crate) fn patch_all<S: Vote>(state: &S, patches: &[Patch; 5]) -> S
    ensures { S.latches result ≡ patched_all patches.now (S.latches state.now) }
{
    let mut patched = state.copied();
    for index in 0..S::LATCHES.min(5) {
        patched = patch_latch(&patched, index, &patches[usize::from(index)]);
    }
    patched
}

/// The state in which one latch has its patch.
#[inline(always)]
fn patch_latch<S: Vote>(state: &S, index: u8, patch: &Patch) -> S
    requires { index < S.LATCHES }
    ensures { S.latches result ≡ patched_at (S.latches state.now) index patch.now }
{
    let turned = state.with_flip(index, patch.value);
    turned.with_force(index, patch.mask, patch.value)
}

/// May a state of this kind change under these patches?
#[inline(always)]
pub(crate) fn has_patch<S: Vote>(patches: &[Patch; 5]) -> bool
    ensures { result ≡ false → (state : S) → patched_all patches.now (S.latches state) ≡ S.latches state }
{
    for index in 0..S::LATCHES.min(5) {
        if !patches[usize::from(index)].is_none() {
            return true;
        }
    }
    false
}

/// A copy latches under what its hurts come to what it latches under the hurts, one after another. No module has more than five
/// latches.
pub fn harm_suffices()
    ensures { (hurts : List Hurt) (old next : List ℕ) → length old ≤ 5 → length next ≡ length old
        → All (FitsLatches (length old)) hurts → harmed old next (harm_of hurts) ≡ latched_by old next hurts }
{}
