//! What a line of a host means.
ghost use Rattle.std.specs.Prelude.{◌≡◌, ◌<◌, ◌∷◌, ◌++◌, ◌==◌, [], IfOk, IfSome, None, OnOk, codes, length, true};
ghost use Rattle.std.specs.List.{slice_split};
ghost use Rattle.pin_driver.specs.StoredReading.{field_number, field_rank, next_digit};
ghost use Rattle.drive_lines.specs.HostLines.{Means, MeansFields, answered_number, answered_pin, answered_rank};
ghost use Rattle.drive_lines.specs.HostLines.{found_directory, found_with, is_cluster_line, line_fields, word_answer};

use mds_types::Rank;
use pin_driver::{Bytes, ClusterState, FoundPin, HostAnswer};
use std::alloc::{AllocError, Global};

/// What comes before the first blank, and what comes after it.
fn cut(line: &[u8]) -> Option<(&[u8], &[u8])>
    ensures none { result ≡ None → slice_split (λ c. c == 32) line.now ≡ line.now ∷ [] }
    ensures some { IfSome result (λ parts. slice_split (λ c. c == 32) line.now
        ≡ parts.0.now ∷ slice_split (λ c. c == 32) parts.1.now) }
    ensures shorter { IfSome result (λ parts. length parts.1.now < length line.now) }
{
    for (at, byte) in line.iter().enumerate() {
        if *byte == b' ' {
            return Some((&line[..at], &line[at + 1..]));
        }
    }
    None
}

/// Adds a field.
fn push_field(alloc: Global, fields: &mut Vec<Bytes>, field: &[u8]) -> Result<(), AllocError>
    ensures { OnOk result (fields.new.items ≡ fields.old.items ++ field.now ∷ []) }
{
    let mut bytes = Vec::new(alloc);
    bytes.extend_from_slice(field)?;
    fields.push(Bytes::new(bytes))?;
    Ok(())
}

/// The fields of a line.
fn line_fields(alloc: Global, line: &[u8]) -> Result<Vec<Bytes>, AllocError>
    ensures { IfOk result (λ fields. fields.items ≡ line_fields line.now) }
{
    let mut fields = Vec::new(alloc);
    let mut rest = line;
    while let Some((field, more)) = cut(rest) {
        push_field(alloc, &mut fields, field)?;
        rest = more;
    }
    push_field(alloc, &mut fields, rest)?;
    Ok(fields)
}

/// The answer of a line that is one word.
fn word_answer(line: &[u8]) -> Option<HostAnswer>
    ensures { result ≡ word_answer line.now }
{
    if line == b"waited".as_slice() {
        Some(HostAnswer::Waited)
    } else if line == b"stored".as_slice() {
        Some(HostAnswer::Stored)
    } else if line == b"done".as_slice() {
        Some(HostAnswer::Done)
    } else if line == b"in-place".as_slice() {
        Some(HostAnswer::InPlace(true))
    } else if line == b"moving".as_slice() {
        Some(HostAnswer::InPlace(false))
    } else if line == b"gone".as_slice() {
        Some(HostAnswer::Gone)
    } else if line == b"refused".as_slice() {
        Some(HostAnswer::Refused)
    } else if line == b"no-answer".as_slice() {
        Some(HostAnswer::NoAnswer)
    } else {
        None
    }
}

/// A number with one more digit.
fn next_digit(number: u64, byte: u8) -> Option<u64>
    ensures { result ≡ next_digit number byte }
{
    if byte < b'0' || byte > b'9' {
        return None;
    }
    number.checked_mul(10)?.checked_add(u64::from(byte - b'0'))
}

/// The number of the digits of a field.
fn digits_of(field: &[u8]) -> Option<u64>
    ensures { result ≡ field_number field.now }
{
    let mut number = 0;
    for byte in field {
        number = next_digit(number, *byte)?;
    }
    Some(number)
}

/// The number of a field, which has a digit.
pub(crate) fn answered_number(field: &[u8]) -> Option<u64>
    ensures { result ≡ answered_number field.now }
{
    if field.is_empty() {
        return None;
    }
    digits_of(field)
}

/// The rank of a field, which has a digit.
fn answered_rank(field: &[u8]) -> Option<Rank>
    ensures { result ≡ answered_rank field.now }
{
    let number = answered_number(field)?;
    if number < 64 {
        Rank::new(number as u8)
    } else {
        None
    }
}

/// The pin of a field, where -1 says that there is none.
fn answered_pin(field: &[u8]) -> Option<Option<Rank>>
    ensures { result ≡ answered_pin field.now }
{
    if field == b"-1".as_slice() {
        return Some(None);
    }
    let rank = answered_rank(field)?;
    Some(Some(rank))
}

/// A directory with this inode number and this pin.
fn found_with(inode: Option<u64>, pin: Option<Option<Rank>>) -> Option<FoundPin>
    ensures { result ≡ found_with inode pin }
{
    let inode = inode?;
    let pin = pin?;
    Some(FoundPin { inode, pin })
}

/// The directory of a line `found INODE PIN`.
fn found_directory(fields: &[Bytes]) -> Option<FoundPin>
    ensures { result ≡ found_directory fields.now }
{
    match fields {
        [word, inode, pin] => {
            if word.as_slice() == b"found".as_slice() {
                found_with(
                    answered_number(inode.as_slice()),
                    answered_pin(pin.as_slice()),
                )
            } else {
                None
            }
        }
        _ => None,
    }
}

/// Whether the line is `cluster RANKS`, with any number of warnings after it.
fn is_cluster_line(fields: &[Bytes]) -> bool
    ensures { result ≡ is_cluster_line fields.now }
{
    match fields {
        [word, _, ..] => word.as_slice() == b"cluster".as_slice(),
        _ => false,
    }
}

/// The state of the cluster that the fields of such a line name.
fn cluster_of(fields: Vec<Bytes>) -> ClusterState
    requires { is_cluster_line fields.items ≡ true }
    ensures { fields.items ≡ codes "cluster" ∷ result.ranks ∷ result.warnings.items }
{
    let mut fields = fields;
    let _word = fields.remove(0);
    let ranks = fields.remove(0);
    ClusterState {
        ranks,
        warnings: fields,
    }
}

/// The answer of a line with these fields that is not one word.
fn fields_answer(fields: Vec<Bytes>) -> HostAnswer
    ensures { MeansFields fields.items result }
{
    if is_cluster_line(fields.as_slice()) {
        return HostAnswer::Cluster(cluster_of(fields));
    }
    match found_directory(fields.as_slice()) {
        Some(found) => HostAnswer::Found(found),
        None => HostAnswer::Nonsense,
    }
}

/// The answer that a line means. The line has no newline.
pub(crate) fn answer_of(alloc: Global, line: &[u8]) -> Result<HostAnswer, AllocError>
    ensures { IfOk result (Means line.now) }
{
    if let Some(answer) = word_answer(line) {
        return Ok(answer);
    }
    let fields = line_fields(alloc, line)?;
    Ok(fields_answer(fields))
}
