//! What is in force on each copy of the logic: what the active events come to, however many they are.

ghost use Rattle.std.specs.Prelude.{◌≡◌, ℕ, ◌<◌};
ghost use Rattle.std.specs.Option.{option_copied};
ghost use Rattle.lvdc_forces.specs.InForce.{faults_at, harm_on, mark_at, no_faults, nothing_in_force};

use lvdc_vote::Harm;

/// What is in force on one copy: whether it reads the copies of its own number in place of the votes, and what is wrong with it as
/// it latches.
#[derive(Clone, Copy)]
pub struct Faults {
    /// Whether it reads the copies of its own number.
    pub deaf: bool,
    /// What is wrong with it as it latches.
    pub harm: Harm,
}

impl Faults {
    /// Nothing.
    pub(crate) fn none() -> Faults
        ensures { result ≡ no_faults }
    {
        Faults {
            deaf: false,
            harm: Harm::none(),
        }
    }
}

/// What is in force on all copies, in as much room for a thousand events as for one: whether an event names any, whether one makes any
/// deaf, which copies are named, and what is in force on each. Copy `n` is copy `n % 3` of module `n / 3`, both counted from 0.
#[derive(Clone, Copy)]
pub struct InForce {
    /// Whether an event names any copy.
    pub any: bool,
    /// Whether one makes any copy deaf.
    pub deaf: bool,
    pub(crate) marks: [bool; 21],
    pub(crate) copies: [Faults; 21],
}

impl InForce {
    /// Nothing.
    pub(crate) fn none() -> InForce
        ensures { result ≡ nothing_in_force }
    {
        InForce {
            any: false,
            deaf: false,
            marks: [false; 21],
            copies: [Faults::none(); 21],
        }
    }

    /// Is the copy of this number marked?
    pub fn is_marked(&self, number: u8) -> bool
        requires { number < 21 }
        ensures { result ≡ mark_at self.now.marks number }
    {
        self.marks[usize::from(number)]
    }

    /// What is in force on the copy of this number.
    pub fn on_copy(&self, number: u8) -> &Faults
        requires { number < 21 }
        ensures { result.now ≡ faults_at self.now.copies number }
    {
        &self.copies[usize::from(number)]
    }

    /// What is wrong with the copy of this number, where it is marked.
    pub fn harm_on(&self, number: u8) -> Option<&Harm>
        requires { number < 21 }
        ensures { option_copied result ≡ harm_on self.now number }
    {
        if self.is_marked(number) {
            Some(&self.on_copy(number).harm)
        } else {
            None
        }
    }
}
