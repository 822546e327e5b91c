//! The new pins of the rows, deepest first.
ghost use Rattle.std.specs.Prelude.{◌≡◌, length, IfOk};
ghost use Rattle.ceph_plan.specs.Holds.{HoldEach, pins_below};

use crate::hold::Hold;
use crate::row::{Pin, PinRow};
use std::alloc::{AllocError, Global};

/// A pin for each row that is held by a new one of its own, by falling rows.
pub fn gather(alloc: Global, rows: &[PinRow], holds: &[Hold]) -> Result<Vec<Pin>, AllocError>
    requires { HoldEach rows.now holds.now }
    ensures { IfOk result (λ pins. pins.items ≡ pins_below rows.now holds.now (length rows.now)) }
{
    let mut pins = Vec::new(alloc);
    let mut i = rows.len();
    while i > 0 {
        i -= 1;
        if holds[i].is_new() {
            pins.push(Pin {
                row: i as u32,
                rank: rows[i].target,
            })?;
        }
    }
    Ok(pins)
}
