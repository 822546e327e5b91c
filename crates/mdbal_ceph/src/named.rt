//! The paths of the directories that the dumps name, for a program that asks a mount about each.
ghost use Rattle.std.specs.Prelude.{◌≡◌, ◌++◌, IfOk, OnOk};
ghost use Rattle.std.specs.List.{flat_map};
ghost use Rattle.mdbal_ceph.specs.Named.{directory_paths0, path0, paths0};

use ceph_dumps::OwnPin;
use ceph_snapshot::Directory;
use std::alloc::{AllocError, Global};

/// Adds a path, relative to the root, and a NUL.
fn push_path(text: &mut Vec<u8>, path: &[u8]) -> Result<(), AllocError>
    ensures { OnOk result (text.new.items ≡ text.old.items ++ path0 path.now) }
{
    text.push(b'.')?;
    text.extend_from_slice(path)?;
    text.push(0)?;
    Ok(())
}

/// The paths of directories, in their order.
fn directory_paths0(alloc: Global, directories: &[Directory]) -> Result<Vec<u8>, AllocError>
    ensures { IfOk result (λ text. text.items ≡ directory_paths0 directories.now) }
{
    let mut text = Vec::new(alloc);
    for directory in directories {
        push_path(&mut text, &directory.path)?;
    }
    Ok(text)
}

/// The paths of directories, and then those of pins, relative to the root and each with a NUL after it.
pub fn paths0(
    alloc: Global,
    directories: &[Directory],
    own: &[OwnPin],
) -> Result<Vec<u8>, AllocError>
    ensures { IfOk result (λ text. text.items ≡ paths0 directories.now own.now) }
{
    let mut text = directory_paths0(alloc, directories)?;
    for pin in own {
        push_path(&mut text, &pin.path)?;
    }
    Ok(text)
}
