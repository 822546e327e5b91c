//! Lists of inode numbers, names with `./` in front, and paths that would name a directory in a second way.

use crate::same::{Row, Sure, same_in, same_rows};
use ceph_dumps::{
    DumpError, ListedDir, ListedValue, read_inodes, read_listing, read_loads, read_subtrees,
};
use std::alloc::Global;
use std::process::Abort;

impl<'a> Row<(&'a [u8], u64)> for ListedDir {
    fn is_as(&self, row: &(&'a [u8], u64)) -> bool {
        let number = match self.value {
            ListedValue::Inode(number) => number,
            _ => 0,
        };
        (self.path.as_slice(), number) == *row
    }
}

/// A list of inode numbers: the root's, the greatest, one with zeros in front, and names with a newline and blanks.
const NUMBERS: &[u8] =
    b"1 \018446744073709551615 a\00000000000000000012 a/b\n\xff\01099511642800  c d\0";

const NUMBERED: &[(&[u8], u64)] = &[
    (b"", 1),
    (b"/a", u64::MAX),
    (b"/a/b\n\xff", 12),
    (b"/ c d", 1_099_511_642_800),
];

#[test]
fn reads_inode_numbers_of_a_mount(rt: HostRuntime) {
    let found = read_inodes(rt.alloc(), NUMBERS).sure(&rt);
    same_rows(&rt, &found, NUMBERED, "numbers");
    let none = read_inodes(rt.alloc(), b"").sure(&rt);
    same_in(&rt, &none.len(), &0, &"no numbers");
}

/// Why a list of inode numbers is refused.
const BROKEN_NUMBERS: &[(&[u8], usize)] = &[
    (b"1", 1),
    (b"1 ", 1),
    (b"\0", 1),
    (b" \0", 1),
    (b"1\0", 1),
    (b"1 \02 a", 2),
    (b"1 \00 a\0", 2),
    (b"1 \0+2 a\0", 2),
    (b"1 \0-2 a\0", 2),
    (b"1 \0 2 a\0", 2),
    (b"1 \02\ta\0", 2),
    (b"1 \00x2 a\0", 2),
    (b"1 \018446744073709551616 a\0", 2),
    (b"1 \0000000000000000000002 a\0", 2),
    (b"1 \02 a\03 /b\0", 3),
    (b"1 \02 a\03 b/\0", 3),
    (b"1 \02 a\03 .\0", 3),
    (b"1 \02 a\03 ./b\0", 3),
    (b"1 \02 a\03 a/../b\0", 3),
    (b"1 \02 a\03 a//b\0", 3),
];

/// The record that a refusal names; 0 where there is none.
fn record_of(answer: Result<Vec<ListedDir>, DumpError>) -> usize {
    match answer {
        Err(DumpError::Record(number)) => number,
        _ => 0,
    }
}

#[test]
fn refuses_broken_inode_numbers(rt: HostRuntime) {
    for (text, record) in BROKEN_NUMBERS {
        same_in(&rt, &record_of(read_inodes(rt.alloc(), text)), record, text);
    }
}

/// A name in a listing, and the path that it gives; nothing where it is refused.
const NAMES: &[(&[u8], Option<&[u8]>)] = &[
    (b".", Some(b"")),
    (b"w/p05", Some(b"/w/p05")),
    (b"./w/p05", Some(b"/w/p05")),
    (b".w", Some(b"/.w")),
    (b"./.w", Some(b"/.w")),
    (b"./...", Some(b"/...")),
    (b"./w\\134\\012", Some(b"/w\\\n")),
    (b"", None),
    (b"./", None),
    (b"././w", None),
    (b"..", None),
    (b"./..", None),
    (b"w/..", None),
    (b"w/./x", None),
    (b"w//x", None),
    (b"/w", None),
    (b"w/", None),
    (b"\\056\\056/x", None),
];

/// The path of a listed name. One that isn't plain is refused with its line.
fn path_listed(rt: &impl Abort, alloc: Global, name: &[u8]) -> Option<Vec<u8>> {
    let mut text = Vec::from_slice(alloc, b"# file: ").sure(rt);
    text.extend_from_slice(name).sure(rt);
    text.extend_from_slice(b"\nceph.dir.pin=\"12\"\n").sure(rt);
    match read_listing(alloc, &text) {
        Ok(found) => found.into_iter().next().map(|dir| dir.path),
        Err(DumpError::Component(2)) => None,
        Err(_) => panic!(rt; "refused for another cause"),
    }
}

#[test]
fn names_of_either_attr_give_one_path(rt: HostRuntime) {
    for (name, path) in NAMES {
        let found = path_listed(&rt, rt.alloc(), name);
        same_in(&rt, &found.as_deref(), path, name);
    }
}

/// Dumps whose second path isn't plain.
const ODD_LOADS: &[u8] = b"{\"dirfrags\":[{\"path\":\"/a\",\"pop_me\":{\"Decay Counters\":[]}},\
{\"path\":\"/./a\",\"pop_me\":{\"Decay Counters\":[]}}]}";

const ODD_ROOTS: &[u8] = b"[{\"is_auth\":true,\"auth_first\":0,\"dir\":{\"path\":\"\"}},\
{\"is_auth\":true,\"auth_first\":0,\"dir\":{\"path\":\"/a/../b\"}}]";

/// The entry that a refusal names; 0 where there is none.
fn entry_of<T: Drop>(answer: Result<T, DumpError>) -> usize {
    match answer {
        Err(DumpError::Entry(number)) => number,
        _ => 0,
    }
}

#[test]
fn refuses_odd_paths_of_dumps(rt: HostRuntime) {
    let loads = entry_of(read_loads(rt.alloc(), ODD_LOADS));
    same_in(&rt, &loads, &2, &"loads");
    let roots = entry_of(read_subtrees(rt.alloc(), ODD_ROOTS));
    same_in(&rt, &roots, &2, &"subtrees");
}
