//! The pins that directories have of their own, as the planner of pins takes them.
ghost use Rattle.std.specs.Prelude.{◌≡◌, ◌<◌, ◌||◌, length, IfOk, Some, None, if◌then◌else◌};
ghost use Rattle.ceph_dumps.specs.PathList.{path_bytes};
ghost use Rattle.ceph_plan.specs.Rule.{first_of};
ghost use Rattle.ceph_pins.specs.OwnPins.{AreOwnPins, IsOwnPins};

use crate::left::is_left;
use ceph_plan::OwnPins;
use ceph_snapshot::Directory;
use mds_types::Rank;
use std::alloc::{AllocError, Global};

/// The pin of a directory below the root that is to stay. One that is spread or may not be pinned counts as pinned
/// where it lies.
fn foreign(directory: &Directory) -> Option<Rank>
    ensures { result ≡ first_of directory.entry.now.pin
        (if directory.entry.now.is_spread || directory.entry.now.is_kept then Some directory.entry.now.now else None) }
{
    match directory.pin {
        None if directory.is_fixed() => Some(directory.now),
        pin => pin,
    }
}

/// The pins that a directory has of its own, and whether it is to be left where it is.
fn own_pins_of(directories: &[Directory], at: usize, leave: &[Vec<u8>]) -> OwnPins
    requires { at < length directories.now }
    ensures { IsOwnPins directories.now (path_bytes leave.now) at result }
{
    let directory = &directories[at];
    OwnPins {
        foreign: if at == 0 { None } else { foreign(directory) },
        earlier: directory.earlier,
        is_left: is_left(leave, &directory.path),
    }
}

/// The pins that each directory has of its own, and whether it is to be left where it is. The root can't be pinned.
pub fn own_pins(
    alloc: Global,
    directories: &[Directory],
    leave: &[Vec<u8>],
) -> Result<Vec<OwnPins>, AllocError>
    ensures { IfOk result (λ own. AreOwnPins directories.now (path_bytes leave.now) (length directories.now)
        own.items) }
{
    let mut own = Vec::with_capacity(alloc, directories.len())?;
    for at in 0..directories.len() {
        own.push(own_pins_of(directories, at, leave))?;
    }
    Ok(own)
}
