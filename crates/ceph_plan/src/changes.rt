//! The changes from the pins of an earlier plan to those of a new one.
ghost use Rattle.std.specs.Prelude.{◌≡◌, ◌++◌, length, IfOk, OnOk};
ghost use Rattle.ceph_plan.specs.Holds.{HoldEach};
ghost use Rattle.ceph_plan.specs.Rule.{AreRows};
ghost use Rattle.ceph_plan.specs.Changes.{AreChangesFor, drops_from, is_dropped, is_set, sets_below, stands};

use crate::hold::{Hold, holds_of};
use crate::row::{PinChange, PinRow};
use std::alloc::{AllocError, Global};

/// Whether a row's own pin is its target already.
fn is_standing(row: PinRow) -> bool
    ensures { result ≡ stands row }
{
    row.foreign.or(row.earlier) == Some(row.target)
}

/// Whether a row is to get a new pin that it doesn't have already.
fn sets(row: PinRow, hold: Hold) -> bool
    ensures { result ≡ is_set row hold }
{
    hold.is_new() && !is_standing(row)
}

/// A new pin for each row that is to have one and doesn't have it already, by falling rows.
fn push_sets(
    changes: &mut Vec<PinChange>,
    rows: &[PinRow],
    holds: &[Hold],
) -> Result<(), AllocError>
    requires { HoldEach rows.now holds.now }
    ensures { OnOk result (changes.new.items ≡ changes.old.items ++ sets_below rows.now holds.now (length rows.now)) }
{
    let mut i = rows.len();
    while i > 0 {
        i -= 1;
        if sets(rows[i], holds[i]) {
            changes.push(PinChange {
                row: i as u32,
                pin: Some(rows[i].target),
            })?;
        }
    }
    Ok(())
}

/// Whether a row's earlier pin is to be taken away.
fn drops(row: PinRow, hold: Hold) -> bool
    ensures { result ≡ is_dropped row hold }
{
    row.foreign.is_none() && row.earlier.is_some() && !hold.is_new()
}

/// No pin for each row whose earlier one is no longer wanted, by rising rows.
fn push_drops(
    changes: &mut Vec<PinChange>,
    rows: &[PinRow],
    holds: &[Hold],
) -> Result<(), AllocError>
    requires { HoldEach rows.now holds.now }
    ensures { OnOk result (changes.new.items ≡ changes.old.items ++ drops_from rows.now holds.now (length rows.now) 0) }
{
    let mut i = 0;
    while i < rows.len() {
        if drops(rows[i], holds[i]) {
            changes.push(PinChange {
                row: i as u32,
                pin: None,
            })?;
        }
        i += 1;
    }
    Ok(())
}

/// The changes that put each row at its target, in an order in which no row goes by way of a third rank. A pin that
/// is there already is left as it is.
pub fn changes_for(alloc: Global, rows: &[PinRow]) -> Result<Vec<PinChange>, AllocError>
    requires { AreRows rows.now }
    ensures { IfOk result (λ changes. AreChangesFor rows.now changes.items) }
{
    let holds = holds_of(alloc, rows)?;
    let mut changes = Vec::new(alloc);
    push_sets(&mut changes, rows, &holds)?;
    push_drops(&mut changes, rows, &holds)?;
    Ok(changes)
}
