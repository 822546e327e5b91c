//! The changes of pins as the driver of pins reads them.
ghost use Rattle.std.specs.Prelude.{◌≡◌, ◌++◌, IfOk, OnOk, length, map, slice_index_or};
ghost use Rattle.ceph_pins.specs.PinsScript.{inode_of_row, path_at};
ghost use Rattle.ceph_plan.specs.Changes.{before_pin};
ghost use Rattle.pin_driver.specs.StoredText.{stored_text};
ghost use Rattle.pin_driver.specs.Restoring.{no_mark};
ghost use Rattle.mdbal_ceph.specs.DriverPlan.{driver_plan, earlier_below, earlier_of, planned_change};

use ceph_plan::{PinChange, PinRow};
use ceph_snapshot::Directory;
use mds_types::Rank;
use pin_driver::{Bytes, EarlierPin, Mark, PinPlan, PlannedChange, stored_text};
use std::alloc::{AllocError, Global};

/// The path of the directory at a place.
fn path_of(alloc: Global, directories: &[Directory], at: usize) -> Result<Bytes, AllocError>
    ensures { IfOk result (λ path. path ≡ path_at directories.now at) }
{
    let path = match directories.get(at) {
        Some(directory) => directory.path.as_slice().to_vec(alloc)?,
        None => Vec::new(alloc),
    };
    Ok(Bytes::new(path))
}

/// Its inode number, where it is known.
fn inode_of(directories: &[Directory], at: usize) -> Option<u64>
    ensures { result ≡ inode_of_row directories.now at }
{
    match directories.get(at) {
        Some(directory) => directory.inode,
        None => None,
    }
}

/// The pin of a row before the changes: somebody else's, or one of this program.
fn pin_before(rows: &[PinRow], at: usize) -> Option<Rank>
    ensures { result ≡ before_pin rows.now at }
{
    match rows.get(at) {
        Some(row) => row.foreign.or(row.earlier),
        None => None,
    }
}

/// The number at a place.
fn number_at(numbers: &[u64], at: usize) -> u64
    ensures { result ≡ slice_index_or numbers.now at 0 }
{
    match numbers.get(at) {
        Some(number) => *number,
        None => 0,
    }
}

/// A change. `inodes[i]` are the inodes that the pin of directory i brings.
fn change_of(
    alloc: Global,
    directories: &[Directory],
    rows: &[PinRow],
    inodes: &[u64],
    change: PinChange,
) -> Result<PlannedChange, AllocError>
    ensures { IfOk result (λ one. one ≡ planned_change directories.now rows.now inodes.now change) }
{
    let at = change.row as usize;
    Ok(PlannedChange {
        path: path_of(alloc, directories, at)?,
        inode: inode_of(directories, at),
        before: pin_before(rows, at),
        after: change.pin,
        inodes: number_at(inodes, at),
    })
}

/// The changes, in their order.
fn changes_of(
    alloc: Global,
    directories: &[Directory],
    rows: &[PinRow],
    inodes: &[u64],
    changes: &[PinChange],
) -> Result<Vec<PlannedChange>, AllocError>
    ensures { IfOk result (λ found. found.items
        ≡ map (planned_change directories.now rows.now inodes.now) changes.now) }
{
    let mut found = Vec::with_capacity(alloc, changes.len())?;
    for at in 0..changes.len() {
        found.push(change_of(alloc, directories, rows, inodes, changes[at])?)?;
    }
    Ok(found)
}

/// Adds the pin of this program at a place, if there is one.
fn push_earlier(
    alloc: Global,
    found: &mut Vec<EarlierPin>,
    directories: &[Directory],
    rows: &[PinRow],
    at: usize,
) -> Result<(), AllocError>
    ensures { OnOk result (found.new.items ≡ found.old.items ++ earlier_of directories.now rows.now at) }
{
    let Some(row) = rows.get(at) else {
        return Ok(());
    };
    let Some(rank) = row.earlier else {
        return Ok(());
    };
    let path = path_of(alloc, directories, at)?;
    let inode = inode_of(directories, at);
    found.push(EarlierPin { path, inode, rank })?;
    Ok(())
}

/// The pins of this program before the changes.
fn earlier_pins(
    alloc: Global,
    directories: &[Directory],
    rows: &[PinRow],
) -> Result<Vec<EarlierPin>, AllocError>
    ensures { IfOk result (λ found. found.items ≡ earlier_below directories.now rows.now (length rows.now)) }
{
    let mut found = Vec::new(alloc);
    for at in 0..rows.len() {
        push_earlier(alloc, &mut found, directories, rows, at)?;
    }
    Ok(found)
}

/// The text with which a driver of pins begins: the plan, of which nothing is done yet.
pub fn make_driver_text(
    alloc: Global,
    identity: Vec<u8>,
    directories: &[Directory],
    rows: &[PinRow],
    inodes: &[u64],
    changes: &[PinChange],
) -> Result<Vec<u8>, AllocError>
    ensures { IfOk result (λ text. text.items
        ≡ stored_text (driver_plan identity.items directories.now rows.now inodes.now changes.now) no_mark) }
{
    let planned = changes_of(alloc, directories, rows, inodes, changes)?;
    let earlier = earlier_pins(alloc, directories, rows)?;
    let plan = PinPlan::new(Bytes::new(identity), planned, earlier);
    let mark = Mark {
        begun: 0,
        certain: 0,
    };
    stored_text(alloc, &plan, mark)
}
