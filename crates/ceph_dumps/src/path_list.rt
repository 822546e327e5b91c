//! A list of directories: a line `PATH` each, with names as `getfattr` writes them.
ghost use Rattle.std.specs.Prelude.{◌≡◌, ◌⊎◌, ◌++◌, IfErr, IfOk, OnOk};
ghost use Rattle.ceph_dumps.specs.OwnList.{list_lines};
ghost use Rattle.ceph_dumps.specs.PathList.{ArePathsOfList, IsPathLine, IsPathListError, line_paths, path_bytes};

use crate::dump_error::DumpError;
use crate::listing::after;
use crate::own_list::{lines_of, path_of};
use crate::paths::is_clean_path;
use std::alloc::Global;

/// Adds the path of the line of this number, unless the line is empty.
fn push_path(
    alloc: Global,
    found: &mut Vec<Vec<u8>>,
    line: &[u8],
    number: usize,
) -> Result<(), DumpError>
    ensures paths { OnOk result (path_bytes found.new.items ≡ path_bytes found.old.items ++ line_paths line.now) }
    ensures line { OnOk result (IsPathLine line.now) }
    ensures refused { IfErr result (λ error. (error ≡ DumpError.Memory)
        ⊎ ((error ≡ DumpError.Path number) × ¬ IsPathLine line.now)) }
{
    if line.is_empty() {
        return Ok(());
    }
    let Some(name) = after(line, b"/") else {
        return Err(DumpError::Path(number));
    };
    let path = path_of(alloc, name)?;
    if !is_clean_path(&path) {
        return Err(DumpError::Path(number));
    }
    found.push(path)?;
    Ok(())
}

/// The paths of a list, in its order.
pub fn read_path_list(alloc: Global, bytes: &[u8]) -> Result<Vec<Vec<u8>>, DumpError>
    ensures paths { IfOk result (λ found. ArePathsOfList bytes.now found.items) }
    ensures refused { IfErr result (IsPathListError bytes.now) }
{
    let lines = lines_of(alloc, bytes)?;
    let mut found = Vec::new(alloc);
    for at in 0..lines.len() {
        push_path(alloc, &mut found, lines[at], at + 1)?;
    }
    Ok(found)
}
