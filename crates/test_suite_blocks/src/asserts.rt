//! What tests assert. `assert_eq!` writes much code where it stands, and all of it is proved there; a call of these is a fifth of that.

use std::fmt::Debug;
use std::process::Abort;

/// Asserts that a value is the wanted one.
pub fn equal<T: PartialEq + Debug>(rt: &impl Abort, found: &T, wanted: &T) {
    assert_eq!(rt; *found, *wanted);
}

/// Asserts that a value is the wanted one at some place, such as a row of a table, which is printed if it isn't.
pub fn equal_at<T: PartialEq + Debug, P: Debug>(rt: &impl Abort, found: &T, wanted: &T, place: &P) {
    assert_eq!(rt; *found, *wanted, "at {place:?}");
}
