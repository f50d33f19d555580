//! A comparison for tests, since an assertion of their own would make their proofs longer.
use std::fmt::Debug;
use std::process::Abort;

/// Compares what was found.
pub fn same<T: PartialEq + Debug + Copy>(rt: &impl Abort, found: T, want: T) {
    assert_eq!(rt; found, want);
}
