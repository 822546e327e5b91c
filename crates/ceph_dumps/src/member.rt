//! Looks into a value of a dump.
ghost use Rattle.std.specs.Prelude.{◌≡◌, option_map};
ghost use Rattle.json.specs.Find.{as_array, as_object};
ghost use Rattle.json.specs.Value.{items_view, members_view, value_view};
ghost use Rattle.ceph_dumps.specs.Members.{optional, required, text_in, truth_in, the_only, values_named};
ghost use Rattle.ceph_dumps.specs.Numbers.{unsigned_in, whole_in};
ghost use Rattle.std.specs.Borrow.{Bor};
ghost use Rattle.std.specs.Prelude.{◌^◌, IfOk, List, None, Some, nat_lt, string_bytes, if◌then◌else◌, ℕ};

use json::Value;
use std::alloc::{AllocError, Global};

/// The items of a list.
pub(crate) fn items_of<'v, 'a>(value: &'v Value<'a>) -> Option<&'v [Value<'a>]>
    ensures { option_map (λ items. items_view items.now) result ≡ as_array (value_view value.now) }
{
    match value {
        Value::Array(items) => Some(items.as_slice()),
        _ => None,
    }
}

/// The members of an object.
pub(crate) fn members_of<'v, 'a>(value: &'v Value<'a>) -> Option<&'v [(&'a str, Value<'a>)]>
    ensures { option_map (λ members. members_view members.now) result ≡ as_object (value_view value.now) }
{
    match value {
        Value::Object(members) => Some(members.as_slice()),
        _ => None,
    }
}

/// The value of the member of this name, if there is one; nothing where there are two.
fn the_only<'v, 'a>(
    members: &'v [(&'a str, Value<'a>)],
    name: &str,
) -> Option<Option<&'v Value<'a>>>
    ensures { option_map (option_map (λ value. value_view value.now)) result
        ≡ the_only (values_named name.now (members_view members.now)) }
{
    let mut found = None;
    for member in members {
        if member.0 == name {
            if found.is_some() {
                return None;
            }
            found = Some(&member.1);
        }
    }
    Some(found)
}

/// What an object has in its member of this name, if it has one; nothing where it has two, or is no object.
pub(crate) fn optional<'v, 'a>(value: &'v Value<'a>, name: &str) -> Option<Option<&'v Value<'a>>>
    ensures { option_map (option_map (λ value. value_view value.now)) result
        ≡ optional name.now (value_view value.now) }
{
    the_only(members_of(value)?, name)
}

/// What an object has in its one member of this name.
pub(crate) fn required<'v, 'a>(value: &'v Value<'a>, name: &str) -> Option<&'v Value<'a>>
    ensures { option_map (λ value. value_view value.now) result ≡ required name.now (value_view value.now) }
{
    optional(value, name)?
}

/// The string in the one member of this name.
pub(crate) fn text_in<'a>(value: &Value<'a>, name: &str) -> Option<&'a str>
    ensures { option_map (λ text. text.now) result ≡ text_in name.now (value_view value.now) }
{
    required(value, name)?.as_str()
}

/// The truth value in the one member of this name.
pub(crate) fn truth_in(value: &Value<'_>, name: &str) -> Option<bool>
    ensures { result ≡ truth_in name.now (value_view value.now) }
{
    required(value, name)?.as_bool()
}

/// A copy of a string.
pub(crate) fn copied(alloc: Global, text: Option<&str>) -> Result<Option<String>, AllocError>
    ensures { IfOk result (λ copy. option_map string_bytes copy ≡ option_map (λ (bytes : Bor (List ℕ)). bytes.now)
        text.entry) }
{
    match text {
        Some(text) => Ok(Some(String::from_str(alloc, text)?)),
        None => Ok(None),
    }
}

/// A whole number.
pub(crate) fn whole_of(value: &Value<'_>) -> Option<i64>
    ensures { result ≡ whole_in (value_view value.now) }
{
    value.as_i64()
}

/// A number that is no less than 0.
pub(crate) fn unsigned_of(value: &Value<'_>) -> Option<u32>
    ensures { result ≡ unsigned_in (value_view value.now) }
{
    match value.as_u64() {
        Some(number) => within_32(number),
        None => None,
    }
}

/// A number that 32 bits hold, if they do.
fn within_32(number: u64) -> Option<u32>
    ensures { result ≡ (if nat_lt number (2 ^ 32) then Some number else None) }
{
    u32::try_from(number).ok()
}
