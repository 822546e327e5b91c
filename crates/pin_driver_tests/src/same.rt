//! Comparisons, each in one call: what a failed one prints costs the proof of its caller nothing.

use std::fmt::Debug;
use std::process::Abort;

/// It is so, in this row of a table.
pub(crate) fn holds_in<R: Debug>(rt: &impl Abort, is_so: bool, row: &R) {
    assert!(rt; is_so, "it is not so: {row:?}");
}

/// Both are the same. A failure prints both.
pub(crate) fn same<T: PartialEq + Debug>(rt: &impl Abort, found: &T, wanted: &T) {
    holds_in(rt, found == wanted, &(found, wanted));
}

/// Both are the same, in this row of a table. A failure prints the row and both.
pub(crate) fn same_in<T: PartialEq + Debug, R: Debug>(
    rt: &impl Abort,
    found: &T,
    wanted: &T,
    row: &R,
) {
    holds_in(rt, found == wanted, &(row, found, wanted));
}

/// A call that is to succeed.
pub(crate) trait Sure {
    /// What it gives.
    type Value;

    /// What it gives; a failure ends the test, and leaves its caller no other way out to prove.
    fn sure<R: Abort>(self, rt: &R) -> Self::Value;
}

impl<T, E: Debug> Sure for Result<T, E> {
    type Value = T;

    fn sure<R: Abort>(self, rt: &R) -> T {
        match self {
            Ok(value) => value,
            Err(error) => panic!(rt; "it failed: {error:?}"),
        }
    }
}
