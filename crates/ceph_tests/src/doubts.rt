//! Directories by inode number: names of the mount in place of those of the dumps, and which are doubtful.

use crate::given::rank;
use crate::same::{Row, Sure, same, same_in, same_rows};
use ceph_dumps::{FragmentHeat, ListedDir, SubtreeRoot, read_inodes};
use ceph_snapshot::{Directory, Gathering, Mounted, Snapshot, SnapshotError};
use mds_types::RankSet;
use std::alloc::Global;
use std::process::Abort;

/// Numbers of a mount: 5 twice, and 7 twice at one path.
const NUMBERS: &[u8] = b"1 \02 ci\03 ci/HomeDir\04 new\05 x\05 y\06 w\07 z\07 z\08 cold\0";

fn listing(rt: &impl Abort, alloc: Global, text: &[u8]) -> Vec<ListedDir> {
    read_inodes(alloc, text).sure(rt)
}

/// A path of the dumps with its number, and the path that it gets.
type Named<'a> = (&'a [u8], Option<u64>, &'a [u8]);

const NAMED: &[Named<'static>] = &[
    (b"", Some(1), b""),
    (b"/ci/homedir", Some(3), b"/ci/HomeDir"),
    (b"/old", Some(4), b"/new"),
    (b"/x", Some(5), b"/x"),
    (b"/q", Some(5), b"/q"),
    (b"/q", Some(7), b"/q"),
    (b"/w", Some(6), b"/w"),
    (b"/gone", Some(99), b"/gone"),
    (b"/a", None, b"/a"),
    (b"~mds0", Some(256), b"~mds0"),
];

/// Heat at a path.
fn fragment(rt: &impl Abort, alloc: Global, path: &[u8], inode: Option<u64>) -> FragmentHeat {
    FragmentHeat {
        path: Vec::from_slice(alloc, path).sure(rt),
        inode,
        heat: 10,
        writes: 3,
    }
}

impl<'a> Row<Named<'a>> for FragmentHeat {
    fn is_as(&self, row: &Named<'a>) -> bool {
        let is_same = (self.heat, self.writes) == (10, 3);
        is_same && self.path.as_slice() == row.2 && self.inode == row.1
    }
}

impl<'a> Row<Named<'a>> for SubtreeRoot {
    fn is_as(&self, row: &Named<'a>) -> bool {
        self.path.as_slice() == row.2 && self.is_here && self.pin == Some(2)
    }
}

/// A root of a fragment with a number. Where there are several, bits come after a dot.
fn root(rt: &impl Abort, alloc: Global, path: &[u8], inode: Option<u64>) -> SubtreeRoot {
    let fragment = match inode {
        Some(number) => Some(format!(in alloc; "0x{number:x}.01*").sure(rt)),
        None => None,
    };
    SubtreeRoot {
        path: Vec::from_slice(alloc, path).sure(rt),
        is_here: true,
        authority: 0,
        fragment,
        pin: Some(2),
        is_spread: false,
    }
}

/// The numbers of the mount.
fn mounted(rt: &impl Abort, alloc: Global) -> Mounted {
    Mounted::new(alloc, listing(rt, alloc, NUMBERS)).sure(rt)
}

#[test]
fn fragments_get_the_paths_of_the_mount(rt: HostRuntime) {
    let mut loads = Vec::new(rt.alloc());
    for (path, inode, _) in NAMED {
        let fragment = fragment(&rt, rt.alloc(), path, *inode);
        loads.push(fragment).sure(&rt);
    }
    let mounted = mounted(&rt, rt.alloc());
    mounted.name_fragments(rt.alloc(), &mut loads).sure(&rt);
    same_rows(&rt, &loads, NAMED, "fragments");
}

#[test]
fn roots_get_the_paths_of_the_mount(rt: HostRuntime) {
    let mut roots = Vec::new(rt.alloc());
    for (path, inode, _) in NAMED {
        let root = root(&rt, rt.alloc(), path, *inode);
        roots.push(root).sure(&rt);
    }
    let mounted = mounted(&rt, rt.alloc());
    mounted.name_roots(rt.alloc(), &mut roots).sure(&rt);
    same_rows(&rt, &roots, NAMED, "roots");
    same(&rt, &mounted.listing().len(), &10);
}

/// A path with its number, and whether it is doubtful and kept.
type Doubt<'a> = (&'a [u8], Option<u64>, bool);

impl<'a> Row<Doubt<'a>> for Directory {
    fn is_as(&self, row: &Doubt<'a>) -> bool {
        let is_kept = self.is_doubtful == self.is_kept;
        is_kept && (self.path.as_slice(), self.inode, self.is_doubtful) == *row
    }
}

/// The heat that a rank has seen at these paths.
fn gathered(rt: &impl Abort, alloc: Global, seen: &[(&[u8], Option<u64>)]) -> Gathering {
    let mut loads = Vec::new(alloc);
    for (path, inode) in seen {
        loads.push(fragment(rt, alloc, path, *inode)).sure(rt);
    }
    let mut all = Gathering::new(alloc).sure(rt);
    all.add_loads(rank(0), &loads).sure(rt);
    all
}

fn snapshot_of(all: Gathering) -> Result<Snapshot, SnapshotError> {
    all.snapshot(&[], 1, RankSet::from_bits(1))
}

/// What was seen: the number of before, another number, a directory without one, and one that isn't listed.
const SEEN: &[(&[u8], Option<u64>)] = &[
    (b"", Some(1)),
    (b"/w", Some(5)),
    (b"/w", Some(6)),
    (b"/x", Some(9)),
    (b"/ci", None),
    (b"/ci/gone", None),
    (b"/new", Some(4)),
];

const DOUBTS: &[Doubt<'static>] = &[
    (b"", Some(1), false),
    (b"/w", Some(6), false),
    (b"/x", Some(9), true),
    (b"/ci", Some(2), false),
    (b"/ci/gone", None, true),
    (b"/new", Some(4), false),
    (b"/ci/HomeDir", Some(3), false),
    (b"/y", Some(5), false),
    (b"/z", Some(7), false),
    (b"/cold", Some(8), false),
];

#[test]
fn directories_that_disagree_are_doubtful_and_kept(rt: HostRuntime) {
    let mut all = gathered(&rt, rt.alloc(), SEEN);
    all.add_numbers(&listing(&rt, rt.alloc(), NUMBERS))
        .sure(&rt);
    let snapshot = snapshot_of(all).sure(&rt);
    same_rows(&rt, &snapshot.directories, DOUBTS, "doubts");
}

#[test]
fn without_numbers_nothing_is_doubtful(rt: HostRuntime) {
    let all = gathered(&rt, rt.alloc(), &[(b"/w", Some(6)), (b"/x", None)]);
    let snapshot = snapshot_of(all).sure(&rt);
    let table: &[Doubt<'static>] = &[
        (b"", None, false),
        (b"/w", Some(6), false),
        (b"/x", None, false),
    ];
    same_rows(&rt, &snapshot.directories, table, "no numbers");
}

/// What was seen and listed, and whether most of it is elsewhere. Those without a number don't count.
const ELSEWHERE: &[(&[(&[u8], Option<u64>)], &[u8], bool)] = &[
    (&[], b"", false),
    (&[(b"", Some(1))], b"", true),
    (&[(b"", Some(1)), (b"/a", Some(2))], b"1 \0", false),
    (
        &[(b"", Some(1)), (b"/a", Some(2)), (b"/b", Some(3))],
        b"1 \0",
        true,
    ),
    (
        &[(b"", Some(1)), (b"/a", None), (b"/b", None)],
        b"1 \0",
        false,
    ),
    (&[(b"/a", Some(2)), (b"/b", Some(3))], b"3 a\02 b\0", true),
    (&[(b"/a", Some(2)), (b"/b", Some(3))], b"2 a\02 b\0", false),
];

#[test]
fn most_directories_elsewhere_are_no_snapshot(rt: HostRuntime) {
    for (seen, numbers, is_elsewhere) in ELSEWHERE {
        let mut all = gathered(&rt, rt.alloc(), seen);
        all.add_numbers(&listing(&rt, rt.alloc(), numbers))
            .sure(&rt);
        let is_so = matches!(snapshot_of(all), Err(SnapshotError::Elsewhere));
        same_in(&rt, &is_so, is_elsewhere, numbers);
    }
}
