//! The changes that undo changes of pins.
ghost use Rattle.std.specs.Prelude.{◌≡◌, ℕ, IfOk};
ghost use Rattle.ceph_plan.specs.Changes.{applied, before_pin};
ghost use Rattle.ceph_pins.specs.Back.{inverted, restored};

use ceph_plan::{PinChange, PinRow};
use std::alloc::{AllocError, Global};

/// The change that gives the row of a change the pin that it had before.
fn restored(rows: &[PinRow], change: PinChange) -> PinChange
    ensures { result ≡ restored rows.now change }
{
    let pin = match rows.get(change.row as usize) {
        Some(row) => row.foreign.or(row.earlier),
        None => None,
    };
    PinChange {
        row: change.row,
        pin,
    }
}

/// The changes that bring the pins back to what they were before these changes, the last change first.
pub fn changes_back(
    alloc: Global,
    rows: &[PinRow],
    changes: &[PinChange],
) -> Result<Vec<PinChange>, AllocError>
    ensures inverted { IfOk result (λ back. back.items ≡ inverted rows.now changes.now) }
    // once both are made, each row has the pin that it had before
    ensures back { IfOk result (λ back. (i : ℕ) → applied (applied (before_pin rows.now) changes.now) back.items i
        ≡ before_pin rows.now i) }
{
    let mut back = Vec::with_capacity(alloc, changes.len())?;
    for change in changes {
        back.push(restored(rows, *change))?;
    }
    back.reverse();
    Ok(back)
}
