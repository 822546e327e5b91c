//! Earlier hours: their records, and what their heat counts for at the directories of now.

use crate::given::by_rank;
use crate::same::{Row, Sure, same, same_in, same_rows};
use crate::snapshots::gathered;
use ceph_dumps::{
    DumpError, FileSystem, HourRecord, PastHeat, read_complete, read_hour, write_hour,
};
use ceph_snapshot::{Directory, free_heats_then, heats_then, held_heat_then, holds, hour_of};
use std::alloc::Global;
use std::process::Abort;

/// A heat with its path.
type Past<'a> = (u64, &'a [u8]);

impl<'a> Row<Past<'a>> for PastHeat {
    fn is_as(&self, row: &Past<'a>) -> bool {
        (self.heat, self.path.as_slice()) == *row
    }
}

/// Names with all that breaks a line, looks like an escape or like the blank behind a number, or is no text.
const HOSTILE: &[Past<'static>] = &[
    (7, b""),
    (1, b"/a b"),
    (u64::MAX, b"/x\ny"),
    (3, b"/\\134"),
    (4, b"/\r\\"),
    (5, b"/1 2"),
    (6, b"/\xff\0"),
    (8, b"no slash"),
];

/// The record of an hour with these, where rank 0 has a spread heat of 3 and rank 1 one of 4.
const TEXT: &[u8] = b"mdbal-hour 1\ncephfs 0-1\n\
3 4 0 0 0 0 0 0 0 0 0 0 0 0 0 0 0 0 0 0 0 0 0 0 0 0 0 0 0 0 0 0 0 0 0 0 0 0 0 0 0 0 0 0 0 0 0 0 0 0 \
0 0 0 0 0 0 0 0 0 0 0 0 0 0\n\
7 \n1 /a b\n18446744073709551615 /x\\012y\n3 /\\134134\n4 /\\015\\134\n5 /1 2\n6 /\xff\0\n8 no slash\n";

fn system(rt: &impl Abort, alloc: Global) -> FileSystem {
    read_complete(alloc, b"cephfs 0-1\n").sure(rt)
}

/// These heats with their paths.
fn past(rt: &impl Abort, alloc: Global, given: &[Past<'_>]) -> Vec<PastHeat> {
    let mut heats = Vec::new(alloc);
    for (heat, path) in given {
        let path = Vec::from_slice(alloc, path).sure(rt);
        heats.push(PastHeat { path, heat: *heat }).sure(rt);
    }
    heats
}

/// The text of an hour with these heats.
fn written(rt: &impl Abort, alloc: Global, given: &[Past<'_>]) -> Vec<u8> {
    let hour = HourRecord {
        file_system: system(rt, alloc),
        spread: by_rank(rt, alloc, &[3, 4]),
        heats: past(rt, alloc, given),
    };
    write_hour(alloc, &hour).sure(rt)
}

#[test]
fn writes_hours(rt: HostRuntime) {
    same(&rt, &written(&rt, rt.alloc(), HOSTILE).as_slice(), &TEXT);
}

#[test]
fn reads_hours(rt: HostRuntime) {
    let hour = read_hour(rt.alloc(), TEXT).sure(&rt);
    same(&rt, &hour.file_system.name.as_str(), &"cephfs");
    same(&rt, &hour.file_system.fsid.as_str(), &"0-1");
    same(&rt, &hour.spread, &by_rank(&rt, rt.alloc(), &[3, 4]));
    same_rows(&rt, &hour.heats, HOSTILE, "heats");
}

/// The number of the line that is refused, if one is.
fn line_refused(read: Result<HourRecord, DumpError>) -> Option<usize> {
    match read {
        Err(DumpError::Hour(line)) => Some(line),
        _ => None,
    }
}

/// Texts that are no record, and the line that isn't what it has to be.
const HEADS: &[(&[u8], usize)] = &[
    (b"", 1),
    (b"\n", 1),
    (b"mdbal-hour 1", 1),
    (b"mdbal-hour 2\n", 1),
    (b"mdbal-hour 1\n", 2),
    (b"mdbal-hour 1\ncephfs\n", 2),
    (b"mdbal-hour 1\ncephfs 0-1 2\n", 2),
    (b"mdbal-hour 1\ncephfs 0-1\n", 3),
    (b"mdbal-hour 1\ncephfs 0-1\n1 2 3\n", 3),
];

#[test]
fn refuses_heads_of_hours(rt: HostRuntime) {
    for row in HEADS {
        let line = line_refused(read_hour(rt.alloc(), row.0));
        same_in(&rt, &line, &Some(row.1), row);
    }
}

/// Lines of directories that are none. Two come before them.
const LINES: &[&[u8]] = &[
    b"/a\n",
    b" /a\n",
    b"+1 /a\n",
    b"1\t/a\n",
    b"18446744073709551616 /a\n",
    b"000000000000000000001 /a\n",
    b"1 /a",
];

/// A record with two directories and this line.
fn with_line(rt: &impl Abort, alloc: Global, line: &[u8]) -> Vec<u8> {
    let mut text = written(rt, alloc, &[(1, b""), (2, b"/a")]);
    text.extend_from_slice(line).sure(rt);
    text
}

#[test]
fn refuses_lines_of_hours(rt: HostRuntime) {
    for line in LINES {
        let text = with_line(&rt, rt.alloc(), line);
        same_in(
            &rt,
            &line_refused(read_hour(rt.alloc(), &text)),
            &Some(6),
            line,
        );
    }
}

/// The hour of the snapshot, where each directory has heat.
const SEEN: &[Past<'static>] = &[
    (100, b""),
    (100, b"/u"),
    (700, b"/a"),
    (300, b"/b"),
    (200, b"/a/x"),
];

#[test]
fn a_snapshot_is_an_hour(rt: HostRuntime) {
    let snapshot = gathered(&rt, rt.alloc());
    let hour = hour_of(rt.alloc(), system(&rt, rt.alloc()), &snapshot).sure(&rt);
    same_rows(&rt, &hour.heats, SEEN, "hour");
    same(&rt, &hour.spread.get(..2), &Some([40, 60].as_slice()));
}

/// An earlier hour. `/gone/x` and `/a/gone` are gone, `/a` is new, and `/b` is there twice.
const EARLIER: &[Past<'static>] = &[
    (5, b"/b"),
    (1000, b"/gone/x"),
    (7, b"/a/x"),
    (500, b"/a/gone"),
    (6, b"/b"),
    (90, b"/u"),
    (2, b""),
];

/// The heat that these directories had then.
fn then(rt: &impl Abort, alloc: Global, directories: &[Directory]) -> Vec<u64> {
    heats_then(alloc, directories, &past(rt, alloc, EARLIER)).sure(rt)
}

#[test]
fn heat_goes_by_path(rt: HostRuntime) {
    let snapshot = gathered(&rt, rt.alloc());
    let found = then(&rt, rt.alloc(), &snapshot.directories);
    same(&rt, &found.as_slice(), &[2, 90, 0, 5, 7].as_slice());
}

#[test]
fn heat_is_planned_or_held_as_now(rt: HostRuntime) {
    let snapshot = gathered(&rt, rt.alloc());
    let here = snapshot.directories.as_slice();
    let (holds, heats) = (
        holds(rt.alloc(), here).sure(&rt),
        then(&rt, rt.alloc(), here),
    );
    assert!(rt; holds.len() == here.len() && heats.len() == here.len());
    let planned = free_heats_then(rt.alloc(), &holds, &heats).sure(&rt);
    same(&rt, &planned.as_slice(), &[2, 0, 0, 5, 0].as_slice());
    let spread = by_rank(&rt, rt.alloc(), &[3, 4]);
    assert!(rt; spread.len() == 64);
    let held = held_heat_then(rt.alloc(), here, &holds, &heats, &spread).sure(&rt);
    same(&rt, &held.get(..2), &Some([3, 11].as_slice()));
}
