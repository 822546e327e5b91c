//! The record of an hour: a text that keeps what counts of an earlier hour, in place of a folder of dumps.
//!
//! Its first line is `mdbal-hour 1`, and its second that of the file `complete`, `NAME FSID`. The third has 64 numbers
//! with a blank between each two: the heat of what is spread, by rank. Each line after them is one of a directory that
//! had heat: its heat, a blank and its path, with names as `getfattr` writes them; the root's path is empty. Heat is in
//! thousandths. Each line has a newline after it; what has none was cut off.
ghost use Rattle.std.specs.Prelude.{◌≡◌, ◌==◌, ◌++◌, ◌+◌, ◌-◌, ℕ, List, All, IfErr, IfOk, IsErrOf, OnOk};
ghost use Rattle.std.specs.Prelude.{MatchOption, decimal, map, string_bytes};
ghost use Rattle.std.specs.List.{flat_map, list_any};
ghost use Rattle.std.specs.Str.Parse.{digits_value};
ghost use Rattle.ceph_dumps.specs.Complete.{AreTwoWords, line_of};
ghost use Rattle.ceph_dumps.specs.HourRecord.{AreHeatParts, AreLinesOf, IsBrokenHour, IsHeatLine, IsHeatText};
ghost use Rattle.ceph_dumps.specs.HourRecord.{IsHourError, IsHourLine, IsHourOf, IsSpreadLine, blank_words, heat_line};
ghost use Rattle.ceph_dumps.specs.HourRecord.{heat_path, hour_data, hour_text, line_at, line_heat, line_heats};
ghost use Rattle.ceph_dumps.specs.HourRecord.{next_number, numbers_text, spread_of};
ghost use Rattle.ceph_dumps.specs.OwnList.{named_bytes};

use crate::dump_error::DumpError;
use crate::file_system::{FileSystem, named_in, unended};
use crate::listing::{after, push_name};
use crate::own_list::{digit_count, lines_of, write_name};
use mds_types::limits::RANK_LIMIT;
use std::alloc::{AllocError, Global};

/// The heat that a directory had in an hour.
#[derive(Drop)]
pub struct PastHeat {
    /// The path of the directory: empty for the root, else it begins with a slash.
    pub path: Vec<u8>,
    /// Its own heat, without what is below, in thousandths.
    pub heat: u64,
}

/// What is kept of an hour.
#[derive(Drop)]
pub struct HourRecord {
    /// The file system that it is of.
    pub file_system: FileSystem,
    /// By rank the heat of what is spread, in thousandths.
    pub spread: Vec<u64>,
    /// The heat of the directories that had some.
    pub heats: Vec<PastHeat>,
}

/// The number of 1 to 20 decimal digits, if it fits.
fn heat_of(digits: &[u8]) -> Option<u64>
    ensures { MatchOption result (¬ IsHeatText digits.now)
        (λ heat. IsHeatText digits.now × (heat ≡ digits_value 10 digits.now)) }
{
    if digits.is_empty() || digits.len() > 20 || digits[0] == b'+' {
        return None;
    }
    let Ok(text) = str::from_utf8(digits) else {
        return None;
    };
    text.parse().ok()
}

/// The line at a place; past the last one, an empty one.
fn line_at<'a>(lines: &[&'a [u8]], at: usize) -> &'a [u8]
    ensures { result.now ≡ line_at (map (λ line. line.now) lines.now) at }
{
    match lines.get(at) {
        Some(line) => *line,
        None => b"",
    }
}

/// What is between the blanks of a line.
fn words_of(alloc: Global, line: &[u8]) -> Result<Vec<&[u8]>, AllocError>
    ensures { IfOk result (λ words. map (λ word. word.now) words.items ≡ blank_words line.now) }
{
    line.split(|byte| *byte == b' ').collect(alloc)
}

/// The heat of what is spread, as the third line says.
fn read_spread(alloc: Global, line: &[u8]) -> Result<Vec<u64>, DumpError>
    ensures line { IfOk result (λ _. IsSpreadLine line.now) }
    ensures heats { IfOk result (λ heats. heats.items ≡ spread_of line.now) }
    ensures refused { (number : ℕ) → IsErrOf result (DumpError.Hour number)
        → (number ≡ 3) × ¬ IsSpreadLine line.now }
    ensures errors { IfErr result IsHourError }
{
    let words = words_of(alloc, line)?;
    if words.len() != usize::from(RANK_LIMIT) {
        return Err(DumpError::Hour(3));
    }
    let mut heats = Vec::with_capacity(alloc, words.len())?;
    for at in 0..words.len() {
        let Some(heat) = heat_of(words[at]) else {
            return Err(DumpError::Hour(3));
        };
        heats.push(heat)?;
    }
    Ok(heats)
}

/// The heat and the name that a line has on both sides of its first blank, if it has.
fn parts_of(line: &[u8]) -> Option<(u64, &[u8])>
    ensures { MatchOption result (¬ AreHeatParts line.now) (λ parts. AreHeatParts line.now
        × ((parts.0, named_bytes 0 parts.1.now) ≡ line_heat line.now)) }
{
    let (digits, rest) = line.split_at(digit_count(line));
    let Some(heat) = heat_of(digits) else {
        return None;
    };
    match after(rest, b" ") {
        Some(name) => Some((heat, name)),
        None => None,
    }
}

/// Whether a name has a backslash. Few have one.
fn has_backslash(name: &[u8]) -> bool
    ensures { result ≡ list_any (λ byte. byte == 92) name.now }
{
    name.iter().any(|byte| *byte == b'\\')
}

/// The path of a name.
fn path_of(alloc: Global, name: &[u8]) -> Result<Vec<u8>, AllocError>
    ensures { IfOk result (λ path. path.items ≡ named_bytes 0 name.now) }
{
    if !has_backslash(name) {
        return Vec::from_slice(alloc, name);
    }
    let mut path = Vec::with_capacity(alloc, name.len())?;
    push_name(&mut path, name)?;
    Ok(path)
}

/// Adds the heat of the line of this number, unless the line is empty.
fn push_heat(
    alloc: Global,
    found: &mut Vec<PastHeat>,
    line: &[u8],
    number: usize,
) -> Result<(), DumpError>
    ensures heats { OnOk result (map heat_path found.new.items
        ≡ map heat_path found.old.items ++ line_heats line.now) }
    ensures line { OnOk result (IsHeatLine line.now) }
    ensures refused { (other : ℕ) → IsErrOf result (DumpError.Hour other)
        → (other ≡ number) × ¬ IsHeatLine line.now }
    ensures errors { IfErr result IsHourError }
{
    if line.is_empty() {
        return Ok(());
    }
    let Some((heat, name)) = parts_of(line) else {
        return Err(DumpError::Hour(number));
    };
    let path = path_of(alloc, name)?;
    found.push(PastHeat { path, heat })?;
    Ok(())
}

/// The heats of the lines from the fourth on, which these are.
fn read_heats(alloc: Global, lines: &[&[u8]]) -> Result<Vec<PastHeat>, DumpError>
    ensures lines { IfOk result (λ _. All IsHeatLine (map (λ line. line.now) lines.now)) }
    ensures heats { IfOk result (λ heats. map heat_path heats.items
        ≡ flat_map line_heats (map (λ line. line.now) lines.now)) }
    ensures refused { (number : ℕ) → IsErrOf result (DumpError.Hour number)
        → (at : ℕ) × (number ≡ at + 4) × ¬ IsHeatLine (line_at (map (λ line. line.now) lines.now) at) }
    ensures errors { IfErr result IsHourError }
{
    let mut found = Vec::new(alloc);
    for at in 0..lines.len() {
        push_heat(alloc, &mut found, line_at(lines, at), at + 4)?;
    }
    Ok(found)
}

/// The file system that the second line names.
fn read_file_system(alloc: Global, line: &[u8]) -> Result<FileSystem, DumpError>
    ensures words { IfOk result (λ found. AreTwoWords line.now (string_bytes found.name) (string_bytes found.fsid)) }
    ensures refused { (number : ℕ) → IsErrOf result (DumpError.Hour number)
        → (number ≡ 2) × ((name fsid : List ℕ) → AreTwoWords line.now name fsid → ⊥) }
    ensures errors { IfErr result IsHourError }
{
    match named_in(alloc, line)? {
        Some(found) => Ok(found),
        None => Err(DumpError::Hour(2)),
    }
}

/// What the lines say.
fn read_lines(alloc: Global, lines: &[&[u8]]) -> Result<HourRecord, DumpError>
    ensures hour { IfOk result (AreLinesOf (map (λ line. line.now) lines.now)) }
    ensures refused { (number : ℕ) → IsErrOf result (DumpError.Hour number)
        → ¬ IsHourLine (number - 1) (line_at (map (λ line. line.now) lines.now) (number - 1)) }
    ensures errors { IfErr result IsHourError }
{
    if line_at(lines, 0) != b"mdbal-hour 1".as_slice() {
        return Err(DumpError::Hour(1));
    }
    Ok(HourRecord {
        file_system: read_file_system(alloc, line_at(lines, 1))?,
        spread: read_spread(alloc, line_at(lines, 2))?,
        heats: read_heats(alloc, lines.split_at(3usize.min(lines.len())).1)?,
    })
}

/// The hour that a record is of.
pub fn read_hour(alloc: Global, bytes: &[u8]) -> Result<HourRecord, DumpError>
    ensures hour { IfOk result (IsHourOf bytes.now) }
    ensures refused { (number : ℕ) → IsErrOf result (DumpError.Hour number) → IsBrokenHour bytes.now number }
    ensures errors { IfErr result IsHourError }
{
    let lines = lines_of(alloc, bytes)?;
    if unended(bytes).is_none() {
        return Err(DumpError::Hour(lines.len()));
    }
    read_lines(alloc, &lines)
}

/// Adds a number.
fn push_number(alloc: Global, text: &mut Vec<u8>, number: u64) -> Result<(), AllocError>
    ensures { OnOk result (text.new.items ≡ text.old.items ++ decimal number) }
{
    let digits = format!(in alloc; "{number}")?;
    text.extend_from_slice(digits.as_bytes())
}

/// Adds the number at a place, with a blank before it unless it is the first.
fn push_next(alloc: Global, text: &mut Vec<u8>, at: usize, number: u64) -> Result<(), AllocError>
    ensures { OnOk result (text.new.items ≡ text.old.items ++ next_number at number) }
{
    if at > 0 {
        text.push(b' ')?;
    }
    push_number(alloc, text, number)
}

/// Adds numbers, with a blank between each two.
fn push_spread(alloc: Global, text: &mut Vec<u8>, spread: &[u64]) -> Result<(), AllocError>
    ensures { OnOk result (text.new.items ≡ text.old.items ++ numbers_text spread.now) }
{
    for (at, heat) in spread.iter().enumerate() {
        push_next(alloc, text, at, *heat)?;
    }
    Ok(())
}

/// Adds the line of a directory.
fn push_line(alloc: Global, text: &mut Vec<u8>, past: &PastHeat) -> Result<(), AllocError>
    ensures { OnOk result (text.new.items ≡ text.old.items ++ heat_line (heat_path past.entry.now)) }
{
    push_number(alloc, text, past.heat)?;
    text.push(b' ')?;
    write_name(text, &past.path)?;
    text.push(b'\n')?;
    Ok(())
}

/// Adds the lines of directories.
fn push_lines(alloc: Global, text: &mut Vec<u8>, heats: &[PastHeat]) -> Result<(), AllocError>
    ensures { OnOk result (text.new.items ≡ text.old.items ++ flat_map heat_line (map heat_path heats.now)) }
{
    for past in heats {
        push_line(alloc, text, past)?;
    }
    Ok(())
}

/// Adds the line of a file system.
fn push_file_system(text: &mut Vec<u8>, system: &FileSystem) -> Result<(), AllocError>
    ensures { OnOk result (text.new.items
        ≡ text.old.items ++ line_of (string_bytes system.entry.now.name) (string_bytes system.entry.now.fsid)) }
{
    text.extend_from_slice(system.name.as_bytes())?;
    text.push(b' ')?;
    text.extend_from_slice(system.fsid.as_bytes())?;
    text.push(b'\n')?;
    Ok(())
}

/// The record of an hour.
pub fn write_hour(alloc: Global, hour: &HourRecord) -> Result<Vec<u8>, AllocError>
    ensures { IfOk result (λ text. text.items ≡ hour_text (hour_data hour.now)) }
{
    let mut text = Vec::from_slice(alloc, b"mdbal-hour 1\n")?;
    push_file_system(&mut text, &hour.file_system)?;
    push_spread(alloc, &mut text, &hour.spread)?;
    text.push(b'\n')?;
    push_lines(alloc, &mut text, &hour.heats)?;
    Ok(text)
}
