//! A snapshot as the record of an hour, and the heat of an earlier hour at the directories of now.
ghost use Rattle.std.specs.Prelude.{◌≡◌, ◌++◌, ℕ, IfOk, List, OnOk, Some, map, if◌then◌else◌};
ghost use Rattle.std.specs.HashMap.{get_by};
ghost use Rattle.std.specs.List.{flat_map};
ghost use Rattle.std.specs.Option.{unwrap_or};
ghost use Rattle.std.specs.Str.{bytes_eq};
ghost use Rattle.ceph_dumps.specs.HourRecord.{heat_path};
ghost use Rattle.ceph_snapshot.specs.Hours.{AreHeatsThen, IsHourOfSnapshot, heat_paths, heat_then};

use crate::directory::Directory;
use crate::snapshot::Snapshot;
use ceph_dumps::{FileSystem, HourRecord, PastHeat};
use std::alloc::{AllocError, Global};
use std::collections::HashMap;

/// Adds the heat of a directory, if it has some.
fn push_heat(
    alloc: Global,
    found: &mut Vec<PastHeat>,
    directory: &Directory,
) -> Result<(), AllocError>
    ensures { OnOk result (map heat_path found.new.items
        ≡ map heat_path found.old.items ++ heat_paths directory.entry.now) }
{
    if directory.heat > 0 {
        found.push(PastHeat {
            path: Vec::from_slice(alloc, &directory.path)?,
            heat: directory.heat,
        })?;
    }
    Ok(())
}

/// The heat of the directories that have some, in their order.
fn heats_of(alloc: Global, directories: &[Directory]) -> Result<Vec<PastHeat>, AllocError>
    ensures { IfOk result (λ found. map heat_path found.items ≡ flat_map heat_paths directories.now) }
{
    let mut found = Vec::new(alloc);
    for directory in directories {
        push_heat(alloc, &mut found, directory)?;
    }
    Ok(found)
}

/// The hour of a snapshot of this file system: the heat of the directories that have some, in their order.
pub fn hour_of(
    alloc: Global,
    file_system: FileSystem,
    snapshot: &Snapshot,
) -> Result<HourRecord, AllocError>
    ensures { IfOk result (IsHourOfSnapshot file_system snapshot.now) }
{
    Ok(HourRecord {
        file_system,
        spread: snapshot.spread.to_vec(alloc)?,
        heats: heats_of(alloc, &snapshot.directories)?,
    })
}

/// Gives the path of an entry its heat.
fn note(
    alloc: Global,
    heats: &mut HashMap<Vec<u8>, u64>,
    entry: &PastHeat,
) -> Result<(), AllocError>
    ensures { OnOk result ((path : List ℕ) → get_by (λ key. bytes_eq path key.items) heats.new
        ≡ (if bytes_eq entry.entry.now.path.items path then Some entry.entry.now.heat
        else get_by (λ key. bytes_eq path key.items) heats.old)) }
{
    heats.insert(Vec::from_slice(alloc, &entry.path)?, entry.heat)?;
    Ok(())
}

/// The heat of each path: that of the first entry with it.
fn heats_by_path(alloc: Global, past: &[PastHeat]) -> Result<HashMap<Vec<u8>, u64>, AllocError>
    ensures { IfOk result (λ heats. (path : List ℕ)
        → unwrap_or (get_by (λ key. bytes_eq path key.items) heats) 0 ≡ heat_then past.now path) }
{
    let mut heats = HashMap::new(alloc);
    for at in (0..past.len()).rev() {
        note(alloc, &mut heats, &past[at])?;
    }
    Ok(heats)
}

/// The heat of a path; none where it has none.
fn heat_of(heats: &HashMap<Vec<u8>, u64>, path: &[u8]) -> u64
    ensures { result ≡ unwrap_or (get_by (λ key. bytes_eq path.now key.items) heats.now) 0 }
{
    heats.get(path).copied().unwrap_or(0)
}

/// The heat that each of these directories had then: that of the first entry with its path, and none where there is
/// none. What a directory had that is gone counts for nothing.
pub fn heats_then(
    alloc: Global,
    directories: &[Directory],
    past: &[PastHeat],
) -> Result<Vec<u64>, AllocError>
    ensures { IfOk result (λ heats. AreHeatsThen directories.now past.now heats.items) }
{
    let by_path = heats_by_path(alloc, past)?;
    let mut heats = Vec::with_capacity(alloc, directories.len())?;
    for directory in directories {
        heats.push(heat_of(&by_path, &directory.path))?;
    }
    Ok(heats)
}
