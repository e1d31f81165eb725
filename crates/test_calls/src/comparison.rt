//! Compares what was found with what is due.

use std::fmt::Debug;
use std::process::Abort;

/// Ends the test where what was found isn't what is due.
pub fn compare<R: Abort, T: Debug + PartialEq + Drop>(rt: &R, found: T, due: T) {
    assert_eq!(rt; found, due);
}
