//! For each row, what holds it: found from its parent's, so in one pass.
ghost use Rattle.std.specs.Prelude.{◌≡◌, IfOk};
ghost use Rattle.ceph_plan.specs.Rule.{AreRows};
ghost use Rattle.ceph_plan.specs.Holds.{HoldEach, hold_of};

use crate::row::PinRow;
use std::alloc::{AllocError, Global};

/// What holds a row.
#[derive(Clone, Copy)]
pub enum Hold {
    /// A foreign pin at it or above it.
    Foreign,
    /// No pin, and it rests at its target.
    Free,
    /// A new pin of its own.
    Own,
    /// A new pin above it.
    Above,
}

impl Hold {
    ghost use Rattle.ceph_plan.specs.Holds.{is_own};

    /// Whether it is a new pin of the row's own.
    pub fn is_new(self) -> bool
        ensures { result ≡ is_own self }
    {
        matches!(self, Hold::Own)
    }
}

/// What holds a row below the root, where this holds its parent.
fn next_hold(row: PinRow, parent: PinRow, above: Hold) -> Hold
    ensures { result ≡ hold_of row parent above }
{
    if row.foreign.is_some() {
        return Hold::Foreign;
    }
    let same = match above {
        Hold::Foreign => return Hold::Foreign,
        Hold::Free => match row.rest {
            Some(rank) if rank == row.target => return Hold::Free,
            _ => false,
        },
        Hold::Own | Hold::Above => row.target == parent.target,
    };
    if same { Hold::Above } else { Hold::Own }
}

/// What holds each row.
pub fn holds_of(alloc: Global, rows: &[PinRow]) -> Result<Vec<Hold>, AllocError>
    requires { AreRows rows.now }
    ensures { IfOk result (λ holds. HoldEach rows.now holds.items) }
{
    let mut holds = Vec::with_capacity(alloc, rows.len())?;
    for (i, row) in rows.iter().enumerate() {
        let parent = row.parent as usize;
        let hold = if i == 0 {
            Hold::Free
        } else {
            next_hold(*row, rows[parent], holds[parent])
        };
        holds.push(hold)?;
    }
    Ok(holds)
}
