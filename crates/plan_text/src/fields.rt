//! The fields of a text, one after another, and the numbers that they write.
ghost use Rattle.std.specs.Prelude.{◌≡◌, ◌≤◌, ◌^◌, length, neg_ℤ, pos, IfSome, option_map};
ghost use Rattle.std.specs.List.{after_first, before_first, position_or_len};
ghost use Rattle.std.specs.Str.Parse.{starts_with_minus};
ghost use Rattle.plan_text.specs.Fields.{ends_field, number_in, number_within, read_view, signed_in, read_value};
ghost use Rattle.plan_text.specs.Fields.{behind_word, checked_name, name_in};
ghost use Rattle.plan_text.specs.RowNames.{IsRowName};

use crate::row_names::is_row_name;

/// Whether a byte ends a field.
fn ends_field(byte: u8) -> bool
    ensures { result ≡ ends_field byte }
{
    byte == b' ' || byte == b'\n'
}

/// How many bytes the first field has.
fn field_length(text: &[u8]) -> usize
    ensures value { result ≡ position_or_len ends_field text.now }
    ensures within { result ≤ length text.now }
{
    for (i, byte) in text.iter().enumerate() {
        if ends_field(*byte) {
            return i;
        }
    }
    text.len()
}

/// The first field, and what comes after the byte that ends it.
pub(crate) fn field(text: &[u8]) -> (&[u8], &[u8])
    ensures first { result.0.now ≡ before_first ends_field text.now }
    ensures rest { result.1.now ≡ after_first ends_field text.now }
{
    let length = field_length(text);
    if length < text.len() {
        (&text[..length], &text[length + 1..])
    } else {
        (text, &text[length..])
    }
}

/// What comes after a word.
pub(crate) fn word<'a>(text: &'a [u8], name: &[u8]) -> Option<&'a [u8]>
    ensures { option_map (λ rest. rest.now) result ≡ behind_word name.now text.now }
{
    let (first, rest) = field(text);
    if first == name { Some(rest) } else { None }
}

/// The number that a text writes, where it is at most `limit`.
fn number_within(text: &str, limit: u64) -> Option<u64>
    ensures value { result ≡ number_within limit text.now }
    ensures small { IfSome result (λ n. n ≤ limit) }
{
    match text.parse::<u64>() {
        Ok(number) if number <= limit => Some(number),
        _ => None,
    }
}

/// The number that a field writes, where it is at most `limit`.
pub(crate) fn number_in(field: &[u8], limit: u64) -> Option<u64>
    ensures value { result ≡ number_in limit field.now }
    ensures small { IfSome result (λ n. n ≤ limit) }
{
    match str::from_utf8(field) {
        Ok(text) => number_within(text, limit),
        Err(_) => None,
    }
}

/// The number that the first field writes, where it is at most `limit`.
pub(crate) fn number(text: &[u8], limit: u64) -> Option<(u64, &[u8])>
    ensures value { read_view (λ n. n) result ≡ read_value (number_in limit) text.now }
    ensures small { IfSome result (λ found. found.0 ≤ limit) }
{
    let (first, rest) = field(text);
    let number = number_in(first, limit)?;
    Some((number, rest))
}

/// The number below 0 of this size.
fn negated(number: u64) -> i64
    requires { number ≤ 2 ^ 63 }
    ensures { result ≡ neg_ℤ (pos number) }
{
    (-i128::from(number)) as i64
}

fn begins_with_minus(field: &[u8]) -> bool
    ensures { result ≡ starts_with_minus field.now }
{
    !field.is_empty() && field[0] == b'-'
}

/// The signed number that a field writes.
#[tactic(auto, unfolding(crate::specs::Fields::signed_in))]
fn signed_in(field: &[u8]) -> Option<i64>
    ensures { result ≡ signed_in field.now }
{
    if begins_with_minus(field) {
        let number = number_in(&field[1..], 1 << 63)?;
        Some(negated(number))
    } else {
        let number = number_in(field, i64::MAX as u64)?;
        Some(number as i64)
    }
}

/// The signed number that the first field writes.
pub(crate) fn signed(text: &[u8]) -> Option<(i64, &[u8])>
    ensures { read_view (λ z. z) result ≡ read_value signed_in text.now }
{
    let (first, rest) = field(text);
    let number = signed_in(first)?;
    Some((number, rest))
}

/// The text, where it may name the directory of a row.
fn checked_name(text: &str) -> Option<&str>
    ensures value { option_map (λ name. name.now) result ≡ checked_name text.now }
    ensures name { IfSome result (λ name. IsRowName name.now) }
{
    if is_row_name(text) { Some(text) } else { None }
}

/// The name of a row's directory that a field writes.
fn name_in(field: &[u8]) -> Option<&str>
    ensures value { option_map (λ name. name.now) result ≡ name_in field.now }
    ensures name { IfSome result (λ name. IsRowName name.now) }
{
    match str::from_utf8(field) {
        Ok(text) => checked_name(text),
        Err(_) => None,
    }
}

/// The name of a row's directory that the first field writes.
pub(crate) fn name(text: &[u8]) -> Option<(&str, &[u8])>
    ensures value { read_view (λ name. name.now) result ≡ read_value name_in text.now }
    ensures name { IfSome result (λ found. IsRowName found.0.now) }
{
    let (first, rest) = field(text);
    let name = name_in(first)?;
    Some((name, rest))
}
