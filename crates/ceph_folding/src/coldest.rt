//! Which directories are folded where there are too many: the coldest, each with all that is below it.
//! A directory goes by the heat at and below it, so it never goes before what is below it; of two that are as cold
//! the last goes first. One that isn't plain stays, and so does all above it. What is below a spread one isn't plain.
ghost use Rattle.std.specs.Prelude.{◌≡◌, ◌<◌, ◌≤◌, ◌↔◌, ℕ, Bool, IsTrue, true, false, count_by};
ghost use Rattle.std.specs.Prelude.{length, slice_index, slice_set, IfErr, IfOk, IfSome, None};
ghost use Rattle.mds_types.specs.Sums.{count_below};
ghost use Rattle.ceph_folding.specs.Folding.{AreGone, HasToStay, IsHeatBelow, IsPlain, kept_below};
ghost use Rattle.ceph_snapshot.specs.Growth.{IsGrowthError};
ghost use Rattle.ceph_snapshot.specs.Holding.{AreParentsFirst, is_marked, parent_at};
ghost use Rattle.ceph_folding.specs.Keys.{goes, is_at_most, is_below, key_at, passes};
ghost use Rattle.ceph_folding.specs.TooMany.{HaveToStay};

use ceph_snapshot::{Directory, SnapshotError, own_heats};
use std::alloc::{AllocError, Global};

/// What a directory goes by. Those with the least go first: the coldest, and of two that are as cold the last.
#[derive(Clone, Copy, PartialEq, Eq, PartialOrd, Ord)]
struct Key {
    /// The heat at and below it, in thousandths.
    heat: u64,
    /// How many directories come after it.
    behind: usize,
}

/// Whether a directory may be folded.
pub(crate) fn is_plain(directories: &[Directory], at: usize) -> bool
    requires first { AreParentsFirst directories.now }
    requires inside { at < length directories.now }
    ensures { IsTrue result ↔ IsPlain directories.now at }
{
    let directory = &directories[at];
    let above = &directories[directory.parent as usize];
    at > 0
        && directory.pin.is_none()
        && directory.earlier.is_none()
        && !directory.is_fixed()
        && directory.now == above.now
        && !above.is_spread
}

/// Marks a directory that stays, and its parent.
fn mark(stays: &mut Vec<bool>, at: usize, above: usize)
    requires at { at < length stays.old.items }
    requires above { above < length stays.old.items }
    ensures { stays.new.items ≡ slice_set (slice_set stays.old.items at true) above true }
{
    stays[at] = true;
    stays[above] = true;
}

/// Which directories stay: those that aren't plain, and all above them.
fn staying(alloc: Global, directories: &[Directory]) -> Result<Vec<bool>, AllocError>
    requires { AreParentsFirst directories.now }
    ensures size { IfOk result (λ stays. length stays.items ≡ length directories.now) }
    ensures plain { IfOk result (λ stays. (i : ℕ) → i < length directories.now → is_marked stays.items i ≡ false
        → IsPlain directories.now i) }
    ensures above { IfOk result (λ stays. (i : ℕ) → 0 < i → i < length directories.now
        → is_marked stays.items i ≡ true → is_marked stays.items (parent_at directories.now i) ≡ true) }
    ensures needed { IfOk result (λ stays. (i : ℕ) → is_marked stays.items i ≡ true → HasToStay directories.now i) }
{
    let mut stays = vec![in alloc; false; directories.len()]?;
    for at in (0..directories.len()).rev() {
        if stays[at] || !is_plain(directories, at) {
            mark(&mut stays, at, directories[at].parent as usize);
        }
    }
    Ok(stays)
}

/// The heat at and below each directory, as far as 64 bits can count it.
fn heats_below(alloc: Global, directories: &[Directory]) -> Result<Vec<u64>, AllocError>
    requires { AreParentsFirst directories.now }
    ensures size { IfOk result (λ heats. length heats.items ≡ length directories.now) }
    ensures rise { IfOk result (λ heats. (i : ℕ) → 0 < i → i < length directories.now
        → slice_index heats.items i ≤ slice_index heats.items (parent_at directories.now i)) }
    ensures heats { IfOk result (λ heats. IsHeatBelow directories.now (slice_index heats.items)) }
{
    let mut heats = own_heats(alloc, directories)?;
    for at in (1..directories.len()).rev() {
        let above = directories[at].parent as usize;
        heats[above] = heats[above].saturating_add(heats[at]);
    }
    Ok(heats)
}

/// What the directory at a place goes by. `heats[i]` is the heat at and below directory i.
fn key_of(heats: &[u64], at: usize) -> Key
    requires { at < length heats.now }
    ensures { result ≡ key_at heats.now at }
{
    Key {
        heat: heats[at],
        behind: heats.len() - 1 - at,
    }
}

/// What those directories go by that don't stay.
fn keys(alloc: Global, heats: &[u64], stays: &[bool]) -> Result<Vec<Key>, AllocError>
    requires { length stays.now ≡ length heats.now }
    ensures { IfOk result (λ keys. (test : Key → Bool)
        → count_by test keys.items ≡ count_below (length heats.now) (passes heats.now stays.now test)) }
{
    let mut keys = Vec::new(alloc);
    for at in 0..heats.len() {
        if !stays[at] {
            keys.push(key_of(heats, at))?;
        }
    }
    Ok(keys)
}

/// The key of the last that goes where `count` go, if there are that many.
fn last_key(mut keys: Vec<Key>, count: usize) -> Result<Option<Key>, AllocError>
    requires { 0 < count }
    ensures enough { IfOk result (λ found. IfSome found (λ last.
        count ≤ count_by (λ key. is_at_most key last) keys.items)) }
    ensures needed { IfOk result (λ found. IfSome found (λ last.
        count_by (λ key. is_below key last) keys.items < count)) }
    ensures few { IfOk result (λ found. found ≡ None → length keys.items < count) }
{
    if keys.len() < count {
        return Ok(None);
    }
    keys.sort()?;
    Ok(Some(keys[count - 1]))
}

/// Whether a key is at most the last.
fn is_within(key: Key, last: Key) -> bool
    ensures { result ≡ is_at_most key last }
{
    key <= last
}

/// Which directories go: those that don't stay, with a key of at most `last`.
fn marks(alloc: Global, heats: &[u64], stays: &[bool], last: Key) -> Result<Vec<bool>, AllocError>
    requires { length stays.now ≡ length heats.now }
    ensures size { IfOk result (λ marks. length marks.items ≡ length heats.now) }
    ensures marks { IfOk result (λ marks. (i : ℕ) → i < length heats.now
        → is_marked marks.items i ≡ goes heats.now stays.now last i) }
{
    let mut marks = Vec::with_capacity(alloc, heats.len())?;
    for at in 0..heats.len() {
        marks.push(!stays[at] && is_within(key_of(heats, at), last))?;
    }
    Ok(marks)
}

/// Which directories are gone once the coldest are folded, so that `limit` are left, if that many can be folded.
pub fn coldest(
    alloc: Global,
    directories: &[Directory],
    limit: usize,
) -> Result<Vec<bool>, SnapshotError>
    requires first { AreParentsFirst directories.now }
    requires more { limit < length directories.now }
    ensures size { IfOk result (λ gone. length gone.items ≡ length directories.now) }
    ensures gone { IfOk result (λ gone. AreGone directories.now (is_marked gone.items)) }
    ensures left { IfOk result (λ gone. kept_below (is_marked gone.items) (length directories.now) ≡ limit) }
    ensures many { IfErr result (IsGrowthError (HaveToStay directories.now limit)) }
{
    let stays = staying(alloc, directories)?;
    let heats = heats_below(alloc, directories)?;
    let keys = keys(alloc, &heats, &stays)?;
    let Some(last) = last_key(keys, directories.len() - limit)? else {
        return Err(SnapshotError::TooMany);
    };
    Ok(marks(alloc, &heats, &stays, last)?)
}
