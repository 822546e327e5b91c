//! The list of the pins that this program set: a line `RANK NAME` each, with names as `getfattr` writes them.
ghost use Rattle.std.specs.Prelude.{◌≡◌, ◌++◌, IfOk, None, OnOk, slice_get, slice_index_or};
ghost use Rattle.ceph_pins.specs.OwnList.{own_line, own_list, pin_line_of};

use crate::pins::pins_after;
use ceph_dumps::write_name;
use ceph_plan::{PinChange, PinRow};
use ceph_snapshot::Directory;
use mds_types::Rank;
use std::alloc::{AllocError, Global};

/// Adds the line of a pin.
fn push_line(alloc: Global, list: &mut Vec<u8>, rank: Rank, path: &[u8]) -> Result<(), AllocError>
    ensures { OnOk result (list.new.items ≡ list.old.items ++ own_line rank path.now) }
{
    let number = format!(in alloc; "{}", rank.number())?;
    list.extend_from_slice(number.as_bytes())?;
    list.push(b' ')?;
    write_name(list, path)?;
    list.push(b'\n')?;
    Ok(())
}

/// Adds the line of a directory that has a pin.
fn push_pin(
    alloc: Global,
    list: &mut Vec<u8>,
    directories: &[Directory],
    at: usize,
    pin: Option<Rank>,
) -> Result<(), AllocError>
    ensures { OnOk result (list.new.items ≡ list.old.items ++ pin_line_of pin (slice_get directories.now at)) }
{
    match (pin, directories.get(at)) {
        (Some(rank), Some(directory)) => push_line(alloc, list, rank, &directory.path),
        _ => Ok(()),
    }
}

/// The list of the pins of this program once the changes are made: those that stay as they are and those that are
/// set, deepest first.
pub fn make_own_list(
    alloc: Global,
    directories: &[Directory],
    rows: &[PinRow],
    changes: &[PinChange],
) -> Result<Vec<u8>, AllocError>
    ensures { IfOk result (λ list. list.items ≡ own_list directories.now rows.now changes.now) }
{
    let pins = pins_after(alloc, rows, changes)?;
    let mut list = Vec::new(alloc);
    let mut at = rows.len();
    while at > 0 {
        at -= 1;
        push_pin(alloc, &mut list, directories, at, pins[at])?;
    }
    Ok(list)
}
