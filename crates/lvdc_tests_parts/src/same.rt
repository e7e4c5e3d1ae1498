//! Comparisons. A call of these takes a part of the proof that the same assertion, written out, takes.
use std::fmt::Debug;
use std::process::Abort;

/// What was found is what was wanted.
pub fn same<T: PartialEq + Debug + Drop>(rt: &impl Abort, found: T, wanted: T) {
    assert_eq!(rt; found, wanted);
}
