//! The list of the pins that a plan set before: a line `RANK NAME` each, with names as `getfattr` writes them.
ghost use Rattle.std.specs.Prelude.{◌≡◌, ◌≤◌, ◌⊎◌, ◌++◌, ◌∷◌, IfErr, IfOk, MatchOption, OnOk, length, map};
ghost use Rattle.std.specs.List.{flat_map};
ghost use Rattle.ceph_dumps.specs.OwnList.{ArePinParts, ArePinsOfList, IsPinLine, IsPinListError, digit_count};
ghost use Rattle.ceph_dumps.specs.OwnList.{line_pins, line_rank_path, list_lines, name_byte, named_bytes, rank_path};

use crate::dump_error::DumpError;
use crate::listing::{after, number_of, push_name};
use std::alloc::{AllocError, Global};

/// A pin that a plan set before.
#[derive(Drop)]
pub struct OwnPin {
    /// The rank that it pinned to.
    pub rank: u64,
    /// The path of the directory.
    pub path: Vec<u8>,
}

/// Adds a byte of a name: backslash, newline and return as three octal digits, all else as it is.
fn push_byte(list: &mut Vec<u8>, byte: u8) -> Result<(), AllocError>
    ensures { OnOk result (list.new.items ≡ list.old.items ++ name_byte byte) }
{
    match byte {
        b'\\' => list.extend_from_slice(b"\\134"),
        b'\n' => list.extend_from_slice(b"\\012"),
        b'\r' => list.extend_from_slice(b"\\015"),
        other => Ok(list.push(other)?),
    }
}

/// Adds a name, as it stands in a line of a list.
pub fn write_name(list: &mut Vec<u8>, path: &[u8]) -> Result<(), AllocError>
    ensures { OnOk result (list.new.items ≡ list.old.items ++ flat_map name_byte path.now) }
{
    for byte in path {
        push_byte(list, *byte)?;
    }
    Ok(())
}

/// How many digits a line begins with.
pub(crate) fn digit_count(line: &[u8]) -> usize
    ensures inside { result ≤ length line.now }
    ensures count { result ≡ digit_count line.now }
{
    for (at, byte) in line.iter().enumerate() {
        if !byte.is_ascii_digit() {
            return at;
        }
    }
    line.len()
}

/// The rank and the name, without its slash, that a line has on both sides of its first blank, if it has.
fn words_of(line: &[u8]) -> Option<(u64, &[u8])>
    ensures { MatchOption result (¬ ArePinParts line.now) (λ words. ArePinParts line.now
        × ((words.0, 47 ∷ named_bytes 0 words.1.now) ≡ line_rank_path line.now)) }
{
    let (digits, rest) = line.split_at(digit_count(line));
    let Some(rank) = number_of(digits) else {
        return None;
    };
    match after(rest, b" /") {
        Some(name) => Some((rank, name)),
        None => None,
    }
}

/// The path of a name that lacks its slash.
pub(crate) fn path_of(alloc: Global, name: &[u8]) -> Result<Vec<u8>, AllocError>
    ensures { IfOk result (λ path. path.items ≡ 47 ∷ named_bytes 0 name.now) }
{
    let mut path = Vec::with_capacity(alloc, name.len() + 1)?;
    path.push(b'/')?;
    push_name(&mut path, name)?;
    Ok(path)
}

/// Adds the pin of the line of this number, unless the line is empty.
fn push_pin(
    alloc: Global,
    found: &mut Vec<OwnPin>,
    line: &[u8],
    number: usize,
) -> Result<(), DumpError>
    ensures pins { OnOk result (map rank_path found.new.items ≡ map rank_path found.old.items ++ line_pins line.now) }
    ensures line { OnOk result (IsPinLine line.now) }
    ensures refused { IfErr result (λ error. (error ≡ DumpError.Memory)
        ⊎ ((error ≡ DumpError.Own number) × ¬ IsPinLine line.now)) }
{
    if line.is_empty() {
        return Ok(());
    }
    let Some((rank, name)) = words_of(line) else {
        return Err(DumpError::Own(number));
    };
    let path = path_of(alloc, name)?;
    found.push(OwnPin { rank, path })?;
    Ok(())
}

/// The lines of a list.
pub(crate) fn lines_of(alloc: Global, bytes: &[u8]) -> Result<Vec<&[u8]>, AllocError>
    ensures { IfOk result (λ lines. map (λ line. line.now) lines.items ≡ list_lines bytes.now) }
{
    bytes.split(|byte| *byte == b'\n').collect(alloc)
}

/// The pins of a list, in its order.
pub fn read_own_list(alloc: Global, bytes: &[u8]) -> Result<Vec<OwnPin>, DumpError>
    ensures pins { IfOk result (λ found. ArePinsOfList bytes.now found.items) }
    ensures refused { IfErr result (IsPinListError bytes.now) }
{
    let lines = lines_of(alloc, bytes)?;
    let mut found = Vec::new(alloc);
    for at in 0..lines.len() {
        push_pin(alloc, &mut found, lines[at], at + 1)?;
    }
    Ok(found)
}
