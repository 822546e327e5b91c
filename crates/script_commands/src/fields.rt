//! The fields of a line: the parts between spaces, tabs and carriage returns.
ghost use Rattle.std.specs.Prelude.{◌≡◌, ◌≢◌, ◌↔◌, ◌≤◌, ℕ, List, [], ◌∷◌, length, not, map, IfOk, IsTrue};
ghost use Rattle.std.specs.Prelude.{MatchOption, slice_index, true};
ghost use Rattle.std.specs.List.{list_all, position_or_len};
ghost use Rattle.script_commands.specs.Commands.{is_blank, is_empty, is_plain, fields};

use memchr::memchr3;
use std::alloc::{AllocError, Global};

/// Whether a byte separates fields.
pub fn is_blank(byte: u8) -> bool
    ensures { result ≡ is_blank byte }
{
    byte == b' ' || byte == b'\t' || byte == b'\r'
}

fn is_plain(byte: u8) -> bool
    ensures { result ≡ is_plain byte }
{
    (byte >= b' ' && byte < 0x7f) || byte == b'\t' || byte == b'\r'
}

/// Whether a line holds only bytes that are seen in print and bytes that separate fields.
///
/// The loop doesn't end at the first other byte, so that many bytes can be looked at in one step, and it leaves tabs
/// and carriage returns, which few lines have, to a second look.
pub fn is_plain_line(line: &[u8]) -> bool
    ensures { result ≡ list_all is_plain line.now }
{
    let mut printed = true;
    for byte in line {
        printed = printed & (*byte >= b' ' && *byte < 0x7f);
    }
    printed || line.iter().all(|byte| is_plain(*byte))
}

/// Whether a part between blanks is a field.
pub fn is_field(part: &[u8]) -> bool
    ensures { result ≡ not (is_empty part.now) }
{
    match part {
        [] => false,
        _ => true,
    }
}

/// The parts between blanks that aren't empty.
pub fn fields(alloc: Global, line: &[u8]) -> Result<Vec<&[u8]>, AllocError>
    ensures { IfOk result (λ parts. map (λ part. part.now) parts.items ≡ fields line.now) }
{
    line.split(|byte| is_blank(*byte))
        .filter(|part| is_field(part))
        .collect(alloc)
}

// How many blanks a line begins with.
fn blank_count(line: &[u8]) -> usize
    ensures value { result ≡ position_or_len (λ byte. not (is_blank byte)) line.now }
    ensures within { result ≤ length line.now }
{
    for (i, byte) in line.iter().enumerate() {
        if !is_blank(*byte) {
            return i;
        }
    }
    line.len()
}

// How many bytes come before a line's first blank. Not inlined: its callers take more instructions with it.
#[inline(never)]
fn field_length(line: &[u8]) -> usize
    ensures value { result ≡ position_or_len is_blank line.now }
    ensures within { result ≤ length line.now }
{
    match memchr3(b' ', b'\t', b'\r', line) {
        Some(end) => end,
        None => line.len(),
    }
}

/// The first field of a line, and what comes after it.
pub fn split_field(line: &[u8]) -> Option<(&[u8], &[u8])>
    ensures { MatchOption result (fields line.now ≡ [])
        (λ split. fields line.now ≡ split.0.now ∷ fields split.1.now) }
{
    let rest = &line[blank_count(line)..];
    let length = field_length(rest);
    if length == 0 {
        return None;
    }
    Some((&rest[..length], &rest[length..]))
}

/// Whether a line has no fields.
pub fn is_blank_line(line: &[u8]) -> bool
    ensures { IsTrue result ↔ (fields line.now ≡ []) }
{
    blank_count(line) == line.len()
}

/// A line's field, where it has just one.
pub fn one_field(line: &[u8]) -> Option<&[u8]>
    ensures { MatchOption result ((field : List ℕ) → fields line.now ≢ field ∷ [])
        (λ field. fields line.now ≡ field.now ∷ []) }
{
    let (field, rest) = split_field(line)?;
    if is_blank_line(rest) {
        Some(field)
    } else {
        None
    }
}

/// A line's fields, where it has just two.
pub fn two_fields(line: &[u8]) -> Option<(&[u8], &[u8])>
    ensures { MatchOption result ((first second : List ℕ) → fields line.now ≢ first ∷ second ∷ [])
        (λ pair. fields line.now ≡ pair.0.now ∷ pair.1.now ∷ []) }
{
    let (first, rest) = split_field(line)?;
    let second = one_field(rest)?;
    Some((first, second))
}

/// Whether a word begins a comment.
pub fn begins_with_hash(word: &[u8]) -> bool
    ensures { IsTrue result ↔ (slice_index word.now 0 ≡ 35) }
{
    !word.is_empty() && word[0] == b'#'
}

/// A field of a plain line, as text.
pub fn text(field: &[u8]) -> &str
    requires { list_all is_plain field.now ≡ true }
    ensures { result.now ≡ field.now }
{
    // what is plain is ASCII, so this call's condition, that the bytes are UTF-8, is proved
    unsafe { str::from_utf8_unchecked(field) }
}
