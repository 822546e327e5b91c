//! The fields of a stored text, one after another, and what they say.
ghost use Rattle.std.specs.Prelude.{◌≡◌, ◌≤◌, ◌++◌, IfSome, OnOk, Some, length, option_map};
ghost use Rattle.std.specs.List.{after_first, before_first, position_or_len};
ghost use Rattle.pin_driver.specs.StoredReading.{escape_value, field_bytes, field_number, field_rank, found_view};
ghost use Rattle.pin_driver.specs.StoredReading.{closes_field};
ghost use Rattle.pin_driver.specs.StoredReading.{FindsAs, meant_bytes, next_digit, or_dash, read_field, skip_word};

use crate::bytes::Bytes;
use crate::text_error::TextError;
use mds_types::Rank;
use std::alloc::{AllocError, Global};

/// Whether a byte ends a field.
fn closes_field(byte: u8) -> bool
    ensures { result ≡ closes_field byte }
{
    byte == b' ' || byte == b'\n'
}

/// How many bytes the first field has.
fn field_length(text: &[u8]) -> usize
    ensures value { result ≡ position_or_len closes_field text.now }
    ensures within { result ≤ length text.now }
{
    for (i, byte) in text.iter().enumerate() {
        if closes_field(*byte) {
            return i;
        }
    }
    text.len()
}

/// The first field, and what comes after the byte that ends it.
fn field(text: &[u8]) -> (&[u8], &[u8])
    ensures first { result.0.now ≡ before_first closes_field text.now }
    ensures rest { result.1.now ≡ after_first closes_field text.now }
{
    let length = field_length(text);
    if length < text.len() {
        (&text[..length], &text[length + 1..])
    } else {
        (text, &text[length..])
    }
}

/// What comes after a word.
pub(crate) fn word<'a>(text: &'a [u8], name: &[u8]) -> Option<&'a [u8]>
    ensures { option_map (λ rest. rest.now) result ≡ skip_word name.now text.now }
{
    let (first, rest) = field(text);
    if first == name { Some(rest) } else { None }
}

/// A number with one more digit.
fn next_digit(number: u64, byte: u8) -> Option<u64>
    ensures { result ≡ next_digit number byte }
{
    if byte < b'0' || byte > b'9' {
        return None;
    }
    number.checked_mul(10)?.checked_add(u64::from(byte - b'0'))
}

/// The number that a field writes.
fn number_of(field: &[u8]) -> Option<u64>
    ensures { result ≡ field_number field.now }
{
    let mut number = 0;
    for byte in field {
        number = next_digit(number, *byte)?;
    }
    Some(number)
}

/// The rank that a field writes.
fn rank_of(field: &[u8]) -> Option<Rank>
    ensures { result ≡ field_rank field.now }
{
    let number = number_of(field)?;
    if number < 64 {
        Rank::new(number as u8)
    } else {
        None
    }
}

/// The number that the first field writes.
pub(crate) fn number(text: &[u8]) -> Option<(u64, &[u8])>
    ensures { found_view (λ n. n) result ≡ read_field field_number text.now }
{
    let (first, rest) = field(text);
    let number = number_of(first)?;
    Some((number, rest))
}

/// The number that the first field writes, or none where it is a dash.
pub(crate) fn optional_number(text: &[u8]) -> Option<(Option<u64>, &[u8])>
    ensures { found_view (λ n. n) result ≡ read_field (or_dash field_number) text.now }
{
    let (first, rest) = field(text);
    if first == b"-".as_slice() {
        return Some((None, rest));
    }
    let number = number_of(first)?;
    Some((Some(number), rest))
}

/// The rank that the first field writes.
pub(crate) fn rank(text: &[u8]) -> Option<(Rank, &[u8])>
    ensures { found_view (λ n. n) result ≡ read_field field_rank text.now }
{
    let (first, rest) = field(text);
    let rank = rank_of(first)?;
    Some((rank, rest))
}

/// The rank that the first field writes, or none where it is a dash.
pub(crate) fn optional_rank(text: &[u8]) -> Option<(Option<Rank>, &[u8])>
    ensures { found_view (λ n. n) result ≡ read_field (or_dash field_rank) text.now }
{
    let (first, rest) = field(text);
    if first == b"-".as_slice() {
        return Some((None, rest));
    }
    let rank = rank_of(first)?;
    Some((Some(rank), rest))
}

/// The byte that a backslash and three octal digits mean.
fn octal(text: &[u8]) -> Option<u8>
    ensures byte { result ≡ escape_value text.now }
    ensures long { IfSome result (λ _. 4 ≤ length text.now) }
{
    match text {
        [b'\\', a @ b'0'..=b'3', b @ b'0'..=b'7', c @ b'0'..=b'7', ..] => {
            Some((*a - b'0') * 64 + (*b - b'0') * 8 + (*c - b'0'))
        }
        _ => None,
    }
}

/// Adds the bytes that a field means.
fn push_meant(bytes: &mut Vec<u8>, field: &[u8]) -> Result<(), AllocError>
    ensures { OnOk result (bytes.new.items ≡ bytes.old.items ++ meant_bytes 0 field.now) }
{
    let mut rest = field;
    while !rest.is_empty() {
        let read = octal(rest);
        bytes.push(read.unwrap_or(rest[0]))?;
        rest = &rest[if read.is_some() { 4 } else { 1 }..];
    }
    Ok(())
}

/// The bytes that the first field means.
pub(crate) fn bytes(alloc: Global, text: &[u8]) -> Result<(Bytes, &[u8]), TextError>
    ensures { FindsAs (λ b. b) result (read_field field_bytes text.now) }
{
    let (first, rest) = field(text);
    let mut bytes = Vec::new(alloc);
    push_meant(&mut bytes, first)?;
    Ok((Bytes::new(bytes), rest))
}
