//! Folds directories into those above them: the coldest, where there are more than the planner takes, or all but
//! those that are units.
ghost use Rattle.std.specs.Prelude.{◌≡◌, ◌+◌, ◌<◌, ◌≤◌, ◌^◌, ◌↔◌, ℕ, IsTrue, false, true};
ghost use Rattle.std.specs.Prelude.{length, min, slice_get, slice_index, IfErr, IfOk, IsOkAnd, OnErr};
ghost use Rattle.std.specs.Option.{option_map};
ghost use Rattle.ceph_folding.specs.Folding.{AreHoursFolded, AreHoursLeft, AreHoursOf, AreUnitsLeft, HasLeft};
ghost use Rattle.ceph_folding.specs.Folding.{IsFolded, IsHome, IsPlain, StillKept};
ghost use Rattle.ceph_folding.specs.Folding.{all_heat, all_inodes, all_writes};
ghost use Rattle.ceph_folding.specs.Folding.{kept_below, put_together, with_amounts};
ghost use Rattle.ceph_folding.specs.TooMany.{AreTooMany, AreTooManyToUnits, IsTooMuch};
ghost use Rattle.ceph_snapshot.specs.Growth.{IsGrowthError};
ghost use Rattle.ceph_snapshot.specs.Holding.{AreParentsFirst, is_marked, parent_at};
ghost use Rattle.ceph_snapshot.specs.Policies.{KeepUnpinnable, StillKeepUnpinnable};

use crate::amounts::{Amount, brought_home};
use crate::coldest::{coldest, is_plain};
use crate::hours::folded_hours;
use ceph_snapshot::{Directory, SnapshotError};
use std::alloc::{AllocError, Global};

/// Whether the root names itself and each other directory comes after its parent.
fn are_parents_first(directories: &[Directory]) -> bool
    ensures { IsTrue result ↔ AreParentsFirst directories.now }
{
    for (at, directory) in directories.iter().enumerate() {
        if directory.parent as usize > at.saturating_sub(1) {
            return false;
        }
    }
    true
}

/// The nearest directory that is kept, at or above each.
fn homes(alloc: Global, directories: &[Directory], gone: &[bool]) -> Result<Vec<usize>, AllocError>
    requires first { AreParentsFirst directories.now }
    requires size { length gone.now ≡ length directories.now }
    requires root { is_marked gone.now 0 ≡ false }
    ensures size { IfOk result (λ homes. length homes.items ≡ length directories.now) }
    ensures inside { IfOk result (λ homes. (i : ℕ) → i < length directories.now
        → slice_index homes.items i < length directories.now) }
    ensures homes { IfOk result (λ homes. (i : ℕ) → i < length directories.now
        → IsHome directories.now (is_marked gone.now) i (slice_index homes.items i)) }
{
    let mut homes = Vec::with_capacity(alloc, directories.len())?;
    for (at, directory) in directories.iter().enumerate() {
        let home = if gone[at] {
            homes[directory.parent as usize]
        } else {
            at
        };
        homes.push(home)?;
    }
    Ok(homes)
}

/// How many directories before each are kept.
fn places(alloc: Global, gone: &[bool]) -> Result<Vec<u32>, AllocError>
    requires { length gone.now ≤ 2 ^ 32 }
    ensures size { IfOk result (λ places. length places.items ≡ length gone.now) }
    ensures places { IfOk result (λ places. (i : ℕ) → i < length gone.now
        → slice_index places.items i ≡ kept_below (is_marked gone.now) i) }
{
    let mut places = Vec::with_capacity(alloc, gone.len())?;
    let mut kept = 0u64;
    for is_gone in gone {
        places.push(kept as u32)?;
        if !*is_gone {
            kept += 1;
        }
    }
    Ok(places)
}

/// The new place of the home of each directory's parent.
fn new_parents(
    alloc: Global,
    directories: &[Directory],
    gone: &[bool],
    homes: &[usize],
) -> Result<Vec<u32>, AllocError>
    requires first { AreParentsFirst directories.now }
    requires few { length directories.now ≤ 2 ^ 32 }
    requires size { length gone.now ≡ length directories.now }
    requires homes { length homes.now ≡ length directories.now }
    requires inside { (i : ℕ) → i < length directories.now → slice_index homes.now i < length directories.now }
    ensures size { IfOk result (λ parents. length parents.items ≡ length directories.now) }
    ensures parents { IfOk result (λ parents. (i : ℕ) → i < length directories.now
        → slice_index parents.items i
        ≡ kept_below (is_marked gone.now) (slice_index homes.now (parent_at directories.now i))) }
{
    let places = places(alloc, gone)?;
    let mut parents = Vec::with_capacity(alloc, directories.len())?;
    for (at, directory) in directories.iter().enumerate() {
        let home = homes[directory.parent as usize];
        parents.push(places[home])?;
    }
    Ok(parents)
}

/// Puts a directory to an earlier place or leaves it at its own, with a new parent and this heat, writes and inodes.
fn put(directories: &mut [Directory], from: usize, to: usize, parent: u32, has: (u64, u64, u64))
    requires inside { from < length directories.old }
    requires earlier { to ≤ from }
    ensures size { length directories.new ≡ length directories.old }
    ensures there { slice_get directories.new to
        ≡ option_map (with_amounts parent has.0 has.1 has.2) (slice_get directories.old from) }
    ensures before { (i : ℕ) → i < to → slice_get directories.new i ≡ slice_get directories.old i }
    ensures behind { (i : ℕ) → from < i → slice_get directories.new i ≡ slice_get directories.old i }
{
    directories.swap(to, from);
    let directory = &mut directories[to];
    directory.parent = parent;
    directory.heat = has.0;
    directory.writes = has.1;
    directory.inodes = has.2;
}

/// Puts the kept directories one after another, each with its new parent and what came to it. Gives their number.
fn close_up(
    directories: &mut [Directory],
    gone: &[bool],
    parents: &[u32],
    heats: &[u64],
    writes: &[u64],
    inodes: &[u64],
) -> usize
    requires gone { length gone.now ≡ length directories.old }
    requires parents { length parents.now ≡ length directories.old }
    requires heats { length heats.now ≡ length directories.old }
    requires writes { length writes.now ≡ length directories.old }
    requires inodes { length inodes.now ≡ length directories.old }
    ensures size { length directories.new ≡ length directories.old }
    ensures count { result ≡ kept_below (is_marked gone.now) (length directories.old) }
    ensures kept { (i : ℕ) → i < length directories.old → is_marked gone.now i ≡ false
        → slice_get directories.new (kept_below (is_marked gone.now) i)
        ≡ put_together directories.old parents.now heats.now writes.now inodes.now i }
{
    let mut kept = 0;
    for at in 0..directories.len() {
        if !gone[at] {
            let has = (heats[at], writes[at], inodes[at]);
            put(directories, at, kept, parents[at], has);
            kept += 1;
        }
    }
    kept
}

/// The directories that are kept, with what those had that are gone. The heats of earlier hours go to the same homes.
fn folded(
    alloc: Global,
    mut directories: Vec<Directory>,
    gone: &[bool],
    hours: &mut Vec<Vec<u64>>,
) -> Result<Vec<Directory>, SnapshotError>
    requires first { AreParentsFirst directories.items }
    requires few { length directories.items ≤ 2 ^ 32 }
    requires size { length gone.now ≡ length directories.items }
    requires root { is_marked gone.now 0 ≡ false }
    requires hours { AreHoursOf (length directories.items) hours.old.items }
    ensures left { IfOk result (λ left. (home : ℕ → ℕ) × HasLeft directories.items left.items (is_marked gone.now) home
        × AreHoursLeft (is_marked gone.now) home hours.old.items hours.new.items) }
    ensures unchanged { OnErr result (hours.new.items ≡ hours.old.items) }
    ensures many { IfErr result (IsGrowthError (IsTooMuch directories.items hours.old.items (is_marked gone.now))) }
{
    let before = directories.as_slice();
    let homes = homes(alloc, before, gone)?;
    let at_home = homes.as_slice();
    let heats = brought_home(alloc, before, at_home, Amount::Heat)?;
    let writes = brought_home(alloc, before, at_home, Amount::Writes)?;
    let inodes = brought_home(alloc, before, at_home, Amount::Inodes)?;
    let parents = new_parents(alloc, before, gone, at_home)?;
    let then = folded_hours(alloc, hours, gone, at_home)?;
    let kept = close_up(&mut directories, gone, &parents, &heats, &writes, &inodes);
    directories.truncate(kept);
    *hours = then;
    Ok(directories)
}

/// Folds the coldest directories, each with all below it, until `limit` are left: their heat, writes and inodes go to
/// the nearest directory above them that is kept. Gives how many were folded. Directories that aren't plain stay. In
/// each earlier hour, `hours[h][i]` is the heat of directory i, which goes the same way.
pub fn fold(
    alloc: Global,
    directories: Vec<Directory>,
    limit: usize,
    hours: &mut Vec<Vec<u64>>,
) -> Result<(Vec<Directory>, usize), SnapshotError>
    requires hours { AreHoursOf (length directories.items) hours.old.items }
    ensures limit { IfOk result (λ found. length found.0.items ≡ min (length directories.items) limit) }
    ensures folded { IfOk result (λ found. IsFolded directories.items found.0.items) }
    ensures same { length directories.items ≤ limit → IsOkAnd result (λ found. found.0.items ≡ directories.items) }
    ensures hours { IfOk result (λ found.
        AreHoursFolded directories.items found.0.items hours.old.items hours.new.items) }
    ensures unchanged { OnErr result (hours.new.items ≡ hours.old.items) }
    ensures same_hours { length directories.items ≤ limit → hours.new.items ≡ hours.old.items }
    ensures heat { IfOk result (λ found. all_heat found.0.items ≡ all_heat directories.items) }
    ensures writes { IfOk result (λ found. all_writes found.0.items ≡ all_writes directories.items) }
    ensures inodes { IfOk result (λ found. all_inodes found.0.items ≡ all_inodes directories.items) }
    ensures unpinnable { KeepUnpinnable directories.items
        → IfOk result (λ found. StillKeepUnpinnable directories.items found.0.items) }
    ensures kept { IfOk result (λ found. StillKept directories.items found.0.items) }
    ensures count { IfOk result (λ found. length found.0.items + found.1 ≡ length directories.items) }
    ensures many { AreParentsFirst directories.items
        → IfErr result (IsGrowthError (AreTooMany directories.items limit hours.old.items)) }
{
    let count = directories.len();
    if count <= limit {
        return Ok((directories, 0));
    }
    if count > 1 << 32 || !are_parents_first(&directories) {
        return Err(SnapshotError::TooMany);
    }
    let gone = coldest(alloc, &directories, limit)?;
    let left = folded(alloc, directories, &gone, hours)?;
    let folded = count - left.len();
    Ok((left, folded))
}

/// Whether the directory at a place is folded: it is plain, and no unit.
fn is_other(directories: &[Directory], units: &[bool], at: usize) -> bool
    requires first { AreParentsFirst directories.now }
    requires size { length units.now ≡ length directories.now }
    requires inside { at < length directories.now }
    ensures plain { result ≡ true → IsPlain directories.now at }
    ensures other { result ≡ true → is_marked units.now at ≡ false }
    ensures all { IsPlain directories.now at → is_marked units.now at ≡ false → result ≡ true }
{
    if units[at] {
        return false;
    }
    is_plain(directories, at)
}

/// Which directories are gone where all plain ones are folded but those that are units.
fn others(alloc: Global, directories: &[Directory], units: &[bool]) -> Result<Vec<bool>, AllocError>
    requires first { AreParentsFirst directories.now }
    requires size { length units.now ≡ length directories.now }
    ensures size { IfOk result (λ gone. length gone.items ≡ length directories.now) }
    ensures plain { IfOk result (λ gone. (i : ℕ) → i < length directories.now → is_marked gone.items i ≡ true
        → IsPlain directories.now i) }
    ensures other { IfOk result (λ gone. (i : ℕ) → i < length directories.now → is_marked gone.items i ≡ true
        → is_marked units.now i ≡ false) }
    ensures all { IfOk result (λ gone. (i : ℕ) → i < length directories.now → IsPlain directories.now i
        → is_marked units.now i ≡ false → is_marked gone.items i ≡ true) }
{
    let mut gone = Vec::with_capacity(alloc, directories.len())?;
    for at in 0..directories.len() {
        gone.push(is_other(directories, units, at))?;
    }
    Ok(gone)
}

/// Folds each plain directory that is no unit: its heat, writes and inodes go to the nearest directory above it that is
/// kept. `units[i]` says whether directory i is a unit. Gives how many were folded. In each earlier hour, `hours[h][i]`
/// is the heat of directory i, which goes the same way.
pub fn fold_to_units(
    alloc: Global,
    directories: Vec<Directory>,
    units: &[bool],
    hours: &mut Vec<Vec<u64>>,
) -> Result<(Vec<Directory>, usize), SnapshotError>
    requires units { length units.now ≡ length directories.items }
    requires hours { AreHoursOf (length directories.items) hours.old.items }
    ensures units { IfOk result (λ found. AreUnitsLeft directories.items found.0.items (is_marked units.now)) }
    ensures hours { IfOk result (λ found.
        AreHoursFolded directories.items found.0.items hours.old.items hours.new.items) }
    ensures unchanged { OnErr result (hours.new.items ≡ hours.old.items) }
    ensures heat { IfOk result (λ found. all_heat found.0.items ≡ all_heat directories.items) }
    ensures writes { IfOk result (λ found. all_writes found.0.items ≡ all_writes directories.items) }
    ensures inodes { IfOk result (λ found. all_inodes found.0.items ≡ all_inodes directories.items) }
    ensures unpinnable { KeepUnpinnable directories.items
        → IfOk result (λ found. StillKeepUnpinnable directories.items found.0.items) }
    ensures kept { IfOk result (λ found. StillKept directories.items found.0.items) }
    ensures count { IfOk result (λ found. length found.0.items + found.1 ≡ length directories.items) }
    ensures first { IfOk result (λ found. AreParentsFirst found.0.items) }
    ensures many { AreParentsFirst directories.items → IfErr result (IsGrowthError
        (AreTooManyToUnits directories.items (is_marked units.now) hours.old.items)) }
{
    let count = directories.len();
    if count > 1 << 32 || !are_parents_first(&directories) {
        return Err(SnapshotError::TooMany);
    }
    let gone = others(alloc, &directories, units)?;
    let left = folded(alloc, directories, &gone, hours)?;
    let folded = count - left.len();
    Ok((left, folded))
}
