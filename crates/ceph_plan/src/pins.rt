//! The pins that put each row at its target.
ghost use Rattle.std.specs.Prelude.{◌≡◌, IfOk, IsTrue, None, Some};
ghost use Rattle.ceph_plan.specs.Rule.{ArePinsFor, AreRows};

use crate::gathered::gather;
use crate::hold::holds_of;
use crate::row::{Pin, PinRow};
use mds_types::limits::DIR_LIMIT;
use std::alloc::{AllocError, Global};

/// Whether a row is one for the root: its own parent, with no pin, and at rest at its target.
fn is_root(row: PinRow) -> bool
    ensures parent { IsTrue result → row.parent ≡ 0 }
    ensures foreign { IsTrue result → row.foreign ≡ None }
    ensures rest { IsTrue result → row.rest ≡ Some row.target }
    ensures only { row.parent ≡ 0 → row.foreign ≡ None → row.rest ≡ Some row.target → IsTrue result }
{
    if row.parent != 0 || row.foreign.is_some() {
        return false;
    }
    match row.rest {
        Some(rank) => rank == row.target,
        None => false,
    }
}

/// Whether these are rows as `pins_for` takes them: parents before children, the root without a pin and resting at its
/// target.
pub fn are_rows(rows: &[PinRow]) -> bool
    ensures rows { IsTrue result → AreRows rows.now }
    ensures only { AreRows rows.now → IsTrue result }
{
    if rows.len() > DIR_LIMIT as usize {
        return false;
    }
    for (i, row) in rows.iter().enumerate() {
        let is_fine = if i == 0 {
            is_root(*row)
        } else {
            (row.parent as usize) < i
        };
        if !is_fine {
            return false;
        }
    }
    true
}

/// The pins that put each row at its target, deepest first.
///
/// A row that a foreign pin holds is left as it is. The root has to rest at its target, since Ceph never moves it.
pub fn pins_for(alloc: Global, rows: &[PinRow]) -> Result<Vec<Pin>, AllocError>
    requires { AreRows rows.now }
    ensures { IfOk result (λ pins. ArePinsFor rows.now pins.items) }
{
    let holds = holds_of(alloc, rows)?;
    gather(alloc, rows, &holds)
}
