//! Comparisons, each in one call: what a failed one prints costs the proof of its caller nothing.

use std::fmt::Debug;
use std::process::Abort;

/// It is so, in this row of a table.
pub(crate) fn holds_in<R: Debug>(rt: &impl Abort, is_so: bool, row: &R) {
    assert!(rt; is_so, "it is not so: {row:?}");
}

/// Both are the same. A failure prints both.
pub(crate) fn same<T: PartialEq + Debug>(rt: &impl Abort, found: &T, wanted: &T) {
    holds_in(rt, found == wanted, &(found, wanted));
}

/// Both are the same, in this row of a table. A failure prints the row and both.
pub(crate) fn same_in<T: PartialEq + Debug, R: Debug>(
    rt: &impl Abort,
    found: &T,
    wanted: &T,
    row: &R,
) {
    holds_in(rt, found == wanted, &(row, found, wanted));
}

/// What is compared with a row of a table.
pub(crate) trait Row<W> {
    /// Whether it is as the row says.
    fn is_as(&self, row: &W) -> bool;
}

/// Whether there are a value and a row at a place, and the value is as the row says.
fn is_as_at<T: Row<W>, W>(found: &[T], table: &[W], at: usize) -> bool {
    match (found.get(at), table.get(at)) {
        (Some(value), Some(row)) => value.is_as(row),
        _ => false,
    }
}

/// The last place at which there is no value, no row, or a value that isn't as the row says.
fn otherwise_at<T: Row<W>, W>(found: &[T], table: &[W]) -> Option<usize> {
    let mut otherwise = None;
    for at in 0..found.len().max(table.len()) {
        if !is_as_at(found, table, at) {
            otherwise = Some(at);
        }
    }
    otherwise
}

/// There is one for each row of a table, as it says; the table is named.
pub(crate) fn same_rows<T: Row<W>, W>(rt: &impl Abort, found: &[T], table: &[W], name: &str) {
    same_in(rt, &otherwise_at(found, table), &None, &name);
}

/// A call that is to succeed.
pub(crate) trait Sure {
    /// What it gives.
    type Value;

    /// What it gives; a failure ends the test, and leaves its caller no other way out to prove.
    fn sure<R: Abort>(self, rt: &R) -> Self::Value;
}

impl<T, E: Debug> Sure for Result<T, E> {
    type Value = T;

    fn sure<R: Abort>(self, rt: &R) -> T {
        match self {
            Ok(value) => value,
            Err(error) => panic!(rt; "it failed: {error:?}"),
        }
    }
}
