//! Assertions as functions: each is proved once, so a call of it is cheap to prove.

use std::fmt::Debug;
use std::process::Abort;

/// Fails the test unless the named value is the wanted one.
pub fn is<T: PartialEq + Debug>(rt: &impl Abort, what: &str, found: &T, wanted: &T) {
    assert_eq!(rt; found, wanted, "{what}");
}

/// Fails the test unless this holds.
pub fn holds(rt: &impl Abort, what: &str, found: bool) {
    assert!(rt; found, "{what}");
}
