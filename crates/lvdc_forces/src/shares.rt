//! What the events of a part of a script do to one copy: as small for many events as for one, and of two parts that follow each
//! other it is told by what each of them does.

ghost use Rattle.std.specs.Prelude.{◌≡◌, ℕ, ◌+◌, ◌/◌, ◌%◌, ◌<◌, ◌||◌, true, length};
ghost use Rattle.lvdc_vote.specs.Harms.{harm_and, no_patch};
ghost use Rattle.lvdc_vote.specs.declared.hurt.Hurt.TheVariants as hurts;
ghost use Rattle.lvdc_fault.specs.Script.{makes_wrong};
ghost use Rattle.lvdc_fault.specs.Events.{IsEvent};
ghost use Rattle.lvdc_forces.specs.Shares.{no_share, harm_in, share_with, share_at, share_next, share_join, patch_join};

use lvdc_fault::{Event, number_of_copy};
use lvdc_vote::{Harm, Hurt, Patch, flipped, forced};
use lvdc_word::Word;

/// What events do to one copy in a step: whether one names it, whether one makes it deaf, and what they come to as it latches.
#[derive(Clone, Copy)]
pub struct Share {
    pub(crate) named: bool,
    pub(crate) deaf: bool,
    pub(crate) lags: bool,
    pub(crate) patches: [Patch; 5],
}

impl Share {
    /// Nothing.
    pub(crate) fn none() -> Share
        ensures { result ≡ no_share }
    {
        Share {
            named: false,
            deaf: false,
            lags: false,
            patches: [Patch {
                mask: Word::ZERO,
                value: Word::ZERO,
            }; 5],
        }
    }

    /// This, and what an event does that acts on the copy.
    fn and(self, event: &Event) -> Share
        requires { IsEvent event.now }
        ensures { (step m c : ℕ) → makes_wrong step m c event.now ≡ true → result ≡ share_next step m c self event.now }
    {
        match *event {
            Event::Flip { index, mask, .. } => self.and_flip(index, mask),
            Event::Force {
                index,
                mask,
                value,
                ..
            } => self.and_force(index, mask, value),
            Event::Lag { .. } => Share {
                named: true,
                lags: true,
                ..self
            },
            Event::Deaf { .. } => Share {
                named: true,
                deaf: true,
                ..self
            },
            _ => self,
        }
    }

    /// This, after which the bits under the mask are turned over in one latch.
    fn and_flip(self, index: u8, mask: Word) -> Share
        requires { index < 5 }
        ensures { result ≡ share_with true self.deaf (harm_and (harm_in self) (hurts.Flip index mask)) }
    {
        let mut share = self;
        share.named = true;
        let patch = &mut share.patches[usize::from(index)];
        patch.value = flipped(patch.value, mask);
        share
    }

    /// This, after which the bits under the mask are the value's in one latch.
    fn and_force(self, index: u8, mask: Word, value: Word) -> Share
        requires { index < 5 }
        ensures { result ≡ share_with true self.deaf (harm_and (harm_in self) (hurts.Force index mask value)) }
    {
        let mut share = self;
        share.named = true;
        let patch = &mut share.patches[usize::from(index)];
        patch.mask = forced(patch.mask, mask, mask);
        patch.value = forced(patch.value, mask, value);
        share
    }

    /// This, and what comes after it.
    pub(crate) fn join(&self, later: &Share) -> Share
        ensures { result ≡ share_join self.now later.now }
    {
        let one = &self.patches;
        let two = &later.patches;
        Share {
            named: either(self.named, later.named),
            deaf: either(self.deaf, later.deaf),
            lags: either(self.lags, later.lags),
            patches: [
                join_patch(&one[0], &two[0]),
                join_patch(&one[1], &two[1]),
                join_patch(&one[2], &two[2]),
                join_patch(&one[3], &two[3]),
                join_patch(&one[4], &two[4]),
            ],
        }
    }

    /// What is wrong with the copy as it latches.
    pub(crate) fn harm(&self) -> Harm
        ensures { result ≡ harm_in self.now }
    {
        harm_by(self.lags, &self.patches)
    }
}

/// What is wrong with a copy that lags or doesn't, and each of whose latches has its patch.
fn harm_by(lags: bool, patches: &[Patch; 5]) -> Harm
    ensures { result ≡ record { lags = lags; patches = patches.now } }
{
    let mut harm = lagging(lags);
    for index in 0..5 {
        let patch = &patches[usize::from(index)];
        harm = harm.and(Hurt::Flip {
            index,
            mask: patch.value,
        });
        harm = harm.and(Hurt::Force {
            index,
            mask: patch.mask,
            value: patch.value,
        });
    }
    harm
}

/// What is wrong with a copy that lags, or that doesn't.
fn lagging(lags: bool) -> Harm
    ensures { result ≡ harm_in (record no_share { lags = lags }) }
{
    if lags {
        Harm::none().and(Hurt::Lag)
    } else {
        Harm::none()
    }
}

/// One of the two, or both.
fn either(one: bool, two: bool) -> bool
    ensures { result ≡ (one || two) }
{
    one || two
}

/// A patch after another.
fn join_patch(one: &Patch, two: &Patch) -> Patch
    ensures { result ≡ patch_join one.now two.now }
{
    Patch {
        mask: forced(one.mask, two.mask, two.mask),
        value: forced(flipped(one.value, two.value), two.mask, two.value),
    }
}

/// What is done to each copy, and what an event does in a step beside it.
pub(crate) fn add_event(event: &Event, step: u64, shares: &mut [Share; 21])
    requires { IsEvent event.now }
    ensures count { length shares.new ≡ 21 }
    ensures shares { (n : ℕ) → n < 21 → share_at shares.new n ≡ share_next step (n / 3 + 1) (n % 3 + 1) (share_at shares.old n) event.now }
{
    match number_of_copy(event, step) {
        Some(number) => shares[number] = shares[number].and(event),
        None => {}
    }
}
