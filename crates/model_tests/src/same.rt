//! Comparisons, each in a function of its own: what a failed one prints adds nothing to its caller's proof.

use std::fmt::Debug;
use std::process::Abort;

/// Both are the same.
pub(crate) fn same<T: PartialEq + Debug>(rt: &impl Abort, found: &T, wanted: &T) {
    assert!(rt; found == wanted, "{found:?} is not {wanted:?}");
}

/// Both are the same, in this row of a table.
pub(crate) fn same_in<T: PartialEq + Debug, R: Debug>(
    rt: &impl Abort,
    found: &T,
    wanted: &T,
    row: &R,
) {
    assert!(rt;
        found == wanted,
        "{found:?} is not {wanted:?} in row {row:?}"
    );
}

/// It is so, in this row of a table.
pub(crate) fn holds_in<R: Debug>(rt: &impl Abort, is_so: bool, row: &R) {
    assert!(rt; is_so, "it is not so in row {row:?}");
}

/// A call that is to succeed.
pub(crate) trait Sure {
    /// What it gives.
    type Value;

    /// What it gives; a failure ends the test, and leaves its caller no other way out to prove.
    fn sure<R: Abort>(self, rt: &R) -> Self::Value;
}

impl<T, E: Debug> Sure for Result<T, E> {
    type Value = T;

    fn sure<R: Abort>(self, rt: &R) -> T {
        match self {
            Ok(value) => value,
            Err(error) => panic!(rt; "it failed: {error:?}"),
        }
    }
}
