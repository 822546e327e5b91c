//! Entries, export pins and ephemeral pins of directories, as `getfattr` lists them.
//!
//! A directory has a line `# file: NAME`, a line `ATTRIBUTE="VALUE"` and a blank one. In a name `\134`, `\012` and
//! `\015` are a backslash, a newline and a return, and all else is raw. The root is
//! `.`, and other names have no slash in front; from attr 2.6 on they begin with `./`.

ghost use Rattle.std.specs.Prelude.{◌≡◌, ◌≢◌, ◌≤◌, ◌++◌, ℕ, List, None, Option, Some, codes, length, true};
ghost use Rattle.std.specs.Prelude.{IfErr, IfOk, IfSome, MatchOption, OnOk, option_map, if◌then◌else◌};
ghost use Rattle.ceph_dumps.specs.Listing.{AreValuesListed, IsLineError, IsListedAs, IsListingError, IsNumberTextOf};
ghost use Rattle.ceph_dumps.specs.Listing.{IsPinOf, IsShareText, IsValueOf, NamedLine, is_said, is_zero};
ghost use Rattle.ceph_dumps.specs.Listing.{line_below, listed_path, name_after};
ghost use Rattle.ceph_dumps.specs.OneForOne.{AreOneForOne};
ghost use Rattle.ceph_dumps.specs.OwnList.{IsNumberText, named_bytes, octal_byte};
ghost use Rattle.ceph_dumps.specs.declared.listing.ListedValue.{ListedValue};

use crate::dump_error::DumpError;
use crate::paths::is_clean_path;
use std::alloc::{AllocError, Global};

/// How Ceph itself pins what is below a directory (`ceph.dir.pin.distributed`, `ceph.dir.pin.random`).
#[derive(Clone, Copy, Debug, PartialEq, Eq)]
pub enum EphemeralPin {
    /// It spreads the directory's children over the ranks.
    Distributed,
    /// It pins directories below to random ranks.
    Random,
    /// It is one of these, and which one isn't known.
    Unknown,
}

/// One value of a directory.
#[derive(Clone, Copy)]
pub enum ListedValue {
    /// How many files and directories it has.
    Entries(u64),
    /// Its own export pin, if it has one.
    Pin(Option<u64>),
    /// Its own policy for what is below it, if this one is set.
    Policy(Option<EphemeralPin>),
    /// Its inode number. It isn't listed with the others, but in a file of its own.
    Inode(u64),
}

/// What a listing says of a directory.
#[derive(Drop)]
pub struct ListedDir {
    /// Its path: empty for the root, else it begins with a slash.
    pub path: Vec<u8>,
    /// The value.
    pub value: ListedValue,
}

/// The byte that three octal digits after a backslash mean.
fn octal(text: &[u8]) -> Option<u8>
    ensures byte { result ≡ octal_byte text.now }
    ensures long { IfSome result (λ _. 4 ≤ length text.now) }
{
    match text {
        [b'\\', a @ b'0'..=b'3', b @ b'0'..=b'7', c @ b'0'..=b'7', ..] => {
            Some((*a - b'0') * 64 + (*b - b'0') * 8 + (*c - b'0'))
        }
        _ => None,
    }
}

/// Adds the bytes that a listed name means.
pub(crate) fn push_name(path: &mut Vec<u8>, name: &[u8]) -> Result<(), AllocError>
    ensures { OnOk result (path.new.items ≡ path.old.items ++ named_bytes 0 name.now) }
{
    let mut rest = name;
    while !rest.is_empty() {
        let read = octal(rest);
        path.push(read.unwrap_or(rest[0]))?;
        rest = &rest[if read.is_some() { 4 } else { 1 }..];
    }
    Ok(())
}

/// The path of a listed name.
fn path_of(alloc: Global, name: &[u8]) -> Result<Vec<u8>, AllocError>
    ensures { IfOk result (λ path. path.items ≡ listed_path name.now) }
{
    let mut path = Vec::with_capacity(alloc, name.len() + 1)?;
    if name != b".".as_slice() {
        path.push(b'/')?;
        push_name(&mut path, name.strip_prefix(b"./").unwrap_or(name))?;
    }
    Ok(path)
}

/// The number of decimal digits, if it fits.
pub(crate) fn number_of(digits: &[u8]) -> Option<u64>
    ensures { MatchOption result (¬ IsNumberText digits.now) (IsNumberTextOf digits.now) }
{
    let Ok(text) = str::from_utf8(digits) else {
        return None;
    };
    text.parse().ok()
}

/// The policy that a number sets: none if the number is zero, as `0` and `0.000000` are.
fn policy_of(number: &[u8], policy: EphemeralPin) -> Option<ListedValue>
    ensures { MatchOption result (¬ IsShareText number.now) (λ value. IsShareText number.now
        × (value ≡ ListedValue.Policy (if is_zero number.now then None else Some policy))) }
{
    if !matches!(number, [b'0'..=b'9', ..]) {
        return None;
    }
    let is_zero = number.iter().all(|byte| *byte == b'0' || *byte == b'.');
    Some(ListedValue::Policy(if is_zero { None } else { Some(policy) }))
}

/// The pin that a number sets: none if it is negative.
fn pin_of(number: &[u8]) -> Option<ListedValue>
    ensures { MatchOption result ((value : ListedValue) → IsPinOf number.now value → ⊥) (IsPinOf number.now) }
{
    if after(number, b"-").is_some() {
        return Some(ListedValue::Pin(None));
    }
    match number_of(number) {
        Some(rank) => Some(ListedValue::Pin(Some(rank))),
        None => None,
    }
}

/// What comes after this front of a text, if it begins with that.
pub(crate) fn after<'a>(text: &'a [u8], front: &[u8]) -> Option<&'a [u8]>
    ensures { MatchOption result ((rest : List ℕ) → text.entry.now ≢ front.now ++ rest)
        (λ rest. text.entry.now ≡ front.now ++ rest.now) }
{
    text.strip_prefix(front)
}

/// What comes before the quote at the end of a text, if it ends with one.
fn unquoted(text: &[u8]) -> Option<&[u8]>
    ensures { MatchOption result ((rest : List ℕ) → text.now ≢ rest ++ codes "\"")
        (λ rest. text.now ≡ rest.now ++ codes "\"") }
{
    text.strip_suffix(b"\"")
}

/// The value that an attribute's line says.
fn value_of(line: &[u8]) -> Option<ListedValue>
    ensures { MatchOption result ((value : ListedValue) → IsValueOf line.now value → ⊥) (IsValueOf line.now) }
{
    let Some(value) = unquoted(line) else {
        return None;
    };
    if let Some(number) = after(value, b"ceph.dir.entries=\"") {
        return Some(ListedValue::Entries(number_of(number)?));
    }
    if let Some(number) = after(value, b"ceph.dir.pin.distributed=\"") {
        return policy_of(number, EphemeralPin::Distributed);
    }
    if let Some(number) = after(value, b"ceph.dir.pin.random=\"") {
        return policy_of(number, EphemeralPin::Random);
    }
    match after(value, b"ceph.dir.pin=\"") {
        Some(number) => pin_of(number),
        None => None,
    }
}

/// What a line of this number says of the directory that was named before.
fn listed(
    alloc: Global,
    name: Option<&[u8]>,
    line: &[u8],
    number: usize,
) -> Result<ListedDir, DumpError>
    ensures is { IfOk result (IsListedAs (option_map (λ here. here.now) name.entry, line.now)) }
    ensures refused { IfErr result (IsLineError (option_map (λ here. here.now) name.entry, line.now) number) }
{
    let Some(name) = name else {
        return Err(DumpError::Listing(number));
    };
    let Some(value) = value_of(line) else {
        return Err(DumpError::Value(number));
    };
    let path = path_of(alloc, name)?;
    if !is_clean_path(path.as_slice()) {
        return Err(DumpError::Component(number));
    }
    Ok(ListedDir { path, value })
}

/// Adds what the line of this number says, where a directory may have been named for it. Gives the one that is named
/// for the next line.
fn add_line<'a>(
    alloc: Global,
    found: &mut Vec<ListedDir>,
    name: Option<&'a [u8]>,
    line: &'a [u8],
    number: usize,
) -> Result<Option<&'a [u8]>, DumpError>
    ensures lines { (lines : List NamedLine) → AreOneForOne IsListedAs lines found.old.items
        → OnOk result (AreOneForOne IsListedAs
        (lines ++ line_below (option_map (λ here. here.now) name.entry) line.entry.now) found.new.items) }
    ensures name { IfOk result (λ next. option_map (λ here. here.now) next
        ≡ name_after (option_map (λ here. here.now) name.entry) line.entry.now) }
    ensures said { IfErr result (λ _. is_said line.entry.now ≡ true) }
    ensures refused { IfErr result (IsLineError (option_map (λ here. here.now) name.entry, line.entry.now) number) }
{
    if let Some(here) = after(line, b"# file: ") {
        return Ok(Some(here));
    }
    if line.is_empty() || line == b"--".as_slice() {
        return Ok(name);
    }
    found.push(listed(alloc, name, line, number)?)?;
    Ok(None)
}

/// What a listing says, in its order.
pub fn read_listing(alloc: Global, bytes: &[u8]) -> Result<Vec<ListedDir>, DumpError>
    ensures values { IfOk result (λ found. AreValuesListed bytes.now found.items) }
    ensures refused { IfErr result (IsListingError bytes.now) }
{
    let mut found = Vec::new(alloc);
    let mut name = None;
    for (at, line) in bytes.split(|byte| *byte == b'\n').enumerate() {
        name = add_line(alloc, &mut found, name, line, at + 1)?;
    }
    Ok(found)
}
