//! Reads the items of a list one by one, so that one of them is in memory at a time.
ghost use Rattle.std.specs.Prelude.{◌≡◌, ◌≢◌, ◌∷◌, ◌<◌, length, map, None, Some, option_map, true, IfErr, IfOk, OnOk};
ghost use Rattle.std.specs.Bool.{MatchBool};
ghost use Rattle.json.specs.Json.{items, members, parse_map, read_key, skip_value, value};
ghost use Rattle.json.specs.Value.{members_view, value_view};
ghost use Rattle.ceph_dumps.specs.Kept.{members_kept, slim};
ghost use Rattle.ceph_dumps.specs.Members.{each, list_in, list_of};
ghost use Rattle.ceph_dumps.specs.Reading.{after_open_array, after_open_object, list_named, said_of};
ghost use Rattle.ceph_dumps.specs.declared.unread.Unread.TheVariants.{Memory};

use crate::unread::{Unfit, Unread};
use json::{Error, Reader, Token, Value};
use std::alloc::Global;

/// What is read of an item of a list.
pub(crate) trait Item: Drop {
    ghost use Rattle.std.specs.Prelude.{◌≡◌, ◌≢◌, Bool, List, ℕ, Option, Some, None, option_and_then, IfErr, IfOk};
    ghost use Rattle.json.specs.Json.{Json};
    ghost use Rattle.json.specs.Value.{value_view};
    ghost use Rattle.ceph_dumps.specs.Kept.{slim};
    ghost use Rattle.ceph_dumps.specs.declared.unread.Unfit.TheVariants.{Memory};

    // What an item says, what a value says as one, if it does.
    ghost Said: { Type 0 };

    ghost shown: { Self → Said };

    ghost said: { Json → Option Said };

    // The names of its members that are read.
    ghost kept: { List ℕ → Bool };

    /// Whether the member of this name is read.
    fn keeps(name: &str) -> bool
        ensures { result ≡ kept name.now };

    /// What a value says.
    fn of(alloc: Global, value: &Value<'_>) -> Result<Self, Unfit>
        ensures is { IfOk result (λ item. said (value_view value.now) ≡ Some (shown item)) }
        ensures none { IfErr result (λ error. error ≢ Memory → said (value_view value.now) ≡ None) };

    // The others say nothing.
    ghost law: { (value : Json) → option_and_then said (slim kept value) ≡ said value };
}

/// The value that comes next. Objects and lists may nest `depth` deep.
pub(crate) fn read_value<'a>(
    alloc: Global,
    reader: &mut Reader<'a>,
    depth: usize,
) -> Result<Value<'a>, Unread>
    ensures is { IfOk result (λ found. value depth reader.old ≡ Some (value_view found, reader.new)) }
    ensures less { OnOk result (length reader.new < length reader.old) }
    ensures none { IfErr result (λ error. error ≢ Memory → value depth reader.old ≡ None) }
{
    match Value::read(alloc, reader, depth) {
        Ok(value) => Ok(value),
        Err(Error::OutOfMemory) => Err(Unread::Memory),
        Err(_) => Err(Unread::no_json(reader)),
    }
}

/// Passes the bracket that opens an object, if it comes.
fn open_object(reader: &mut Reader<'_>) -> bool
    ensures is { MatchBool result (after_open_object reader.old ≡ Some reader.new)
        (after_open_object reader.old ≡ None) }
    ensures less { result ≡ true → length reader.new < length reader.old }
{
    match reader.next() {
        Some(Token::BeginObject) => true,
        _ => false,
    }
}

/// The name of the next member, if one comes.
fn next_key<'a>(reader: &mut Reader<'a>) -> Result<Option<&'a str>, Unread>
    ensures is { IfOk result (λ name. read_key reader.old ≡ Some (option_map (λ text. text.now) name, reader.new)) }
    ensures none { IfErr result (λ error. error ≢ Memory → read_key reader.old ≡ None) }
{
    match reader.next_key() {
        Ok(key) => Ok(key),
        Err(_) => Err(Unread::no_json(reader)),
    }
}

/// Passes over a value.
fn skip(reader: &mut Reader<'_>, depth: usize) -> Result<(), Unread>
    ensures is { OnOk result (skip_value depth reader.old ≡ Some reader.new) }
    ensures less { OnOk result (length reader.new < length reader.old) }
    ensures none { IfErr result (λ error. error ≢ Memory → skip_value depth reader.old ≡ None) }
{
    match reader.skip_value(depth) {
        Ok(()) => Ok(()),
        Err(_) => Err(Unread::no_json(reader)),
    }
}

/// The members that come next which are read of an item, up to the end of the object.
fn read_kept<'a, T: Item>(
    alloc: Global,
    reader: &mut Reader<'a>,
    depth: usize,
) -> Result<Vec<(&'a str, Value<'a>)>, Unread>
    ensures is { IfOk result (λ found. parse_map (members_kept T.kept)
        (members (value depth) (length reader.old) reader.old) ≡ Some (members_view found.items, reader.new)) }
    ensures less { OnOk result (length reader.new < length reader.old) }
    ensures none { IfErr result (λ error. error ≢ Memory → parse_map (members_kept T.kept)
        (members (value depth) (length reader.old) reader.old) ≡ None) }
{
    let mut found = Vec::new(alloc);
    while let Some(key) = next_key(reader)? {
        if T::keeps(key) {
            let value = read_value(alloc, reader, depth)?;
            found.push((key, value))?;
        } else {
            skip(reader, depth)?;
        }
    }
    Ok(found)
}

/// The object that comes next, without the members that are not read of an item.
fn read_slim<'a, T: Item>(
    alloc: Global,
    reader: &mut Reader<'a>,
    depth: usize,
) -> Result<Value<'a>, Unread>
    requires { 0 < depth }
    ensures is { IfOk result (λ found. said_of (slim T.kept) (value depth reader.old)
        ≡ Some (value_view found, reader.new)) }
    ensures less { OnOk result (length reader.new < length reader.old) }
    ensures none { IfErr result (λ error. error ≢ Memory → said_of (slim T.kept) (value depth reader.old) ≡ None) }
{
    let at = reader.offset();
    if !open_object(reader) {
        return Err(Unread::misfit(at, "expected an object"));
    }
    let found = read_kept::<T>(alloc, reader, depth - 1)?;
    Ok(Value::Object(found))
}

/// The item that comes next.
fn read_item<T: Item>(alloc: Global, reader: &mut Reader<'_>, depth: usize) -> Result<T, Unread>
    requires { 0 < depth }
    ensures is { IfOk result (λ item. said_of T.said (value depth reader.old) ≡ Some (T.shown item, reader.new)) }
    ensures less { OnOk result (length reader.new < length reader.old) }
    ensures none { IfErr result (λ error. error ≢ Memory → said_of T.said (value depth reader.old) ≡ None) }
{
    let at = reader.offset();
    let value = read_slim::<T>(alloc, reader, depth)?;
    match T::of(alloc, &value) {
        Ok(item) => Ok(item),
        Err(unfit) => Err(unfit.at(at)),
    }
}

/// The items up to the end of the list.
fn read_items<T: Item>(
    alloc: Global,
    reader: &mut Reader<'_>,
    depth: usize,
) -> Result<Vec<T>, Unread>
    requires { 0 < depth }
    ensures is { IfOk result (λ found. said_of (each T.said) (items (value depth) (length reader.old) reader.old)
        ≡ Some (map T.shown found.items, reader.new)) }
    ensures less { OnOk result (length reader.new < length reader.old) }
    ensures none { IfErr result (λ error. error ≢ Memory
        → said_of (each T.said) (items (value depth) (length reader.old) reader.old) ≡ None) }
{
    let mut found = Vec::new(alloc);
    while !reader.take_end_array() {
        let item = read_item(alloc, reader, depth)?;
        found.push(item)?;
    }
    Ok(found)
}

/// Passes the bracket that opens a list, if it comes.
fn open_list(reader: &mut Reader<'_>) -> bool
    ensures { MatchBool result (after_open_array reader.old ≡ Some reader.new) (after_open_array reader.old ≡ None) }
{
    match reader.next() {
        Some(Token::BeginArray) => true,
        _ => false,
    }
}

/// The list that comes next.
pub(crate) fn read_list<T: Item>(
    alloc: Global,
    reader: &mut Reader<'_>,
    depth: usize,
) -> Result<Vec<T>, Unread>
    requires { 1 < depth }
    ensures is { IfOk result (λ found. said_of (list_of T.said) (value depth reader.old)
        ≡ Some (map T.shown found.items, reader.new)) }
    ensures less { OnOk result (length reader.new < length reader.old) }
    ensures none { IfErr result (λ error. error ≢ Memory → said_of (list_of T.said) (value depth reader.old) ≡ None) }
{
    let at = reader.offset();
    if open_list(reader) {
        read_items(alloc, reader, depth - 1)
    } else {
        Err(Unread::misfit(at, "expected a list"))
    }
}

/// The list in the member of this name of the object whose members come next, where there is one.
fn read_members<T: Item>(
    alloc: Global,
    reader: &mut Reader<'_>,
    name: &str,
    depth: usize,
) -> Result<Option<Vec<T>>, Unread>
    requires { 1 < depth }
    ensures is { IfOk result (λ found. said_of (list_named T.said name.now)
        (members (value depth) (length reader.old) reader.old)
        ≡ Some (option_map (λ list. map T.shown list.items) found, reader.new)) }
    ensures none { IfErr result (λ error. error ≢ Memory → said_of (list_named T.said name.now)
        (members (value depth) (length reader.old) reader.old) ≡ None) }
{
    let mut found = None;
    while let Some(key) = next_key(reader)? {
        if key != name {
            skip(reader, depth)?;
        } else if found.is_some() {
            return Err(Unread::misfit(reader.offset(), "the member comes twice"));
        } else {
            found = Some(read_list(alloc, reader, depth)?);
        }
    }
    Ok(found)
}

/// The list in the one member of this name of the object that comes next.
pub(crate) fn read_list_in<T: Item>(
    alloc: Global,
    reader: &mut Reader<'_>,
    name: &str,
    depth: usize,
) -> Result<Vec<T>, Unread>
    requires { 2 < depth }
    ensures is { IfOk result (λ found. said_of (list_in T.said name.now) (value depth reader.old)
        ≡ Some (map T.shown found.items, reader.new)) }
    ensures none { IfErr result (λ error. error ≢ Memory
        → said_of (list_in T.said name.now) (value depth reader.old) ≡ None) }
{
    let at = reader.offset();
    if !open_object(reader) {
        return Err(Unread::misfit(at, "expected an object"));
    }
    match read_members(alloc, reader, name, depth - 1)? {
        Some(found) => Ok(found),
        None => Err(Unread::misfit(at, "a list is missing")),
    }
}
