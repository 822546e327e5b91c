//! The inode numbers of directories: the file `inodes` of the collector, as `find` prints it over a mount.
//!
//! It has a record for each directory, `NUMBER PATH` with a NUL after it. The path begins below the root of the file
//! system, without a slash in front; that of the root is empty.
ghost use Rattle.std.specs.Prelude.{◌≡◌, ◌≤◌, ◌++◌, [], ◌<◌, ℕ, List, None, false, length, slice_index, take};
ghost use Rattle.std.specs.Prelude.{IfOk, IfSome, IsErrOf, MatchOption};
ghost use Rattle.ceph_dumps.specs.Inodes.{AreInodesBefore, IsBrokenRecord, IsInodeRecord, has_nul, rooted, with_nul};
ghost use Rattle.ceph_dumps.specs.Inodes.{IsInodeNumber, IsNumberAndName};
ghost use Rattle.ceph_dumps.specs.declared.listing.ListedDir.{ListedDir};

use crate::dump_error::DumpError;
use crate::listing::{ListedDir, ListedValue, after};
use crate::own_list::digit_count;
use crate::paths::is_clean_path;
use std::alloc::{AllocError, Global};

/// The number of 1 to 20 decimal digits, if it is at least 1 and fits.
fn inode_number(digits: &[u8]) -> Option<u64>
    ensures { MatchOption result ((number : ℕ) → IsInodeNumber digits.now number → ⊥)
        (IsInodeNumber digits.now) }
{
    if digits.is_empty() || digits.len() > 20 || digits[0] == b'+' {
        return None;
    }
    let Ok(text) = str::from_utf8(digits) else {
        return None;
    };
    match text.parse() {
        Ok(number) if number > 0 => Some(number),
        _ => None,
    }
}

/// The number and the name that a record has on both sides of its first blank, if it has.
fn words_of(text: &[u8]) -> Option<(u64, &[u8])>
    ensures { MatchOption result ((number : ℕ) (name : List ℕ) → IsNumberAndName text.now number name → ⊥)
        (λ words. IsNumberAndName text.now words.0 words.1.now) }
{
    let (digits, rest) = text.split_at(digit_count(text));
    let Some(number) = inode_number(digits) else {
        return None;
    };
    match after(rest, b" ") {
        Some(name) => Some((number, name)),
        None => None,
    }
}

/// The path of a name below the root.
fn path_of(alloc: Global, name: &[u8]) -> Result<Vec<u8>, AllocError>
    ensures { IfOk result (λ path. path.items ≡ rooted name.now) }
{
    let mut path = Vec::new(alloc);
    if !name.is_empty() {
        path.reserve(name.len() + 1)?;
        path.push(b'/')?;
        path.extend_from_slice(name)?;
    }
    Ok(path)
}

/// The place of the first NUL, or the end.
fn nul_place(text: &[u8]) -> usize
    ensures inside { result ≤ length text.now }
    ensures before { has_nul (take result text.now) ≡ false }
    ensures there { result < length text.now → slice_index text.now result ≡ 0 }
{
    for (at, byte) in text.iter().enumerate() {
        if *byte == 0 {
            return at;
        }
    }
    text.len()
}

/// The first record, which ends before the first NUL, and what comes after that NUL.
fn split_record(rest: &[u8]) -> Option<(&[u8], &[u8])>
    ensures whole { IfSome result (λ parts. rest.now ≡ with_nul parts.0.now ++ parts.1.now) }
    ensures single { IfSome result (λ parts. has_nul parts.0.now ≡ false) }
    ensures none { result ≡ None → has_nul rest.now ≡ false }
{
    let end = nul_place(rest);
    if end == rest.len() {
        return None;
    }
    Some((&rest[..end], &rest[end + 1..]))
}

/// The directory of the record of this number.
fn read_record(alloc: Global, text: &[u8], number: usize) -> Result<ListedDir, DumpError>
    ensures is { IfOk result (IsInodeRecord text.now) }
    ensures refused { (other : ℕ) → IsErrOf result (DumpError.Record other)
        → (other ≡ number) × ((dir : ListedDir) → IsInodeRecord text.now dir → ⊥) }
{
    let Some((inode, name)) = words_of(text) else {
        return Err(DumpError::Record(number));
    };
    let path = path_of(alloc, name)?;
    if !is_clean_path(path.as_slice()) {
        return Err(DumpError::Record(number));
    }
    let value = ListedValue::Inode(inode);
    Ok(ListedDir { path, value })
}

/// The inode numbers of directories, one for each record, in their order.
pub fn read_inodes(alloc: Global, bytes: &[u8]) -> Result<Vec<ListedDir>, DumpError>
    ensures each { IfOk result (λ found. AreInodesBefore bytes.now [] found.items) }
    ensures refused { (number : ℕ) → IsErrOf result (DumpError.Record number) → IsBrokenRecord bytes.now number }
{
    let mut found = Vec::new(alloc);
    let mut rest = bytes;
    while !rest.is_empty() {
        let number = found.len() + 1;
        let Some((text, behind)) = split_record(rest) else {
            return Err(DumpError::Record(number));
        };
        found.push(read_record(alloc, text, number)?)?;
        rest = behind;
    }
    Ok(found)
}
