//! Snapshots from dumps, and what pins hold in them.

use crate::dumps::Written;
use crate::given::rank;
use crate::same::{Row, Sure, same, same_rows};
use ceph_dumps::{FragmentHeat, OwnPin, SubtreeRoot, read_listing, read_subtrees};
use ceph_folding::fold;
use ceph_snapshot::{Directory, Gathering, Held, Snapshot, SnapshotError, held_heat, holds};
use mds_types::{Rank, RankSet};
use std::alloc::Global;
use std::process::Abort;

/// The inode number of a path in these tests: that of the root is 1, and others have the last byte.
fn inode_of(path: &[u8]) -> Option<u64> {
    Some(path.last().map_or(1, |byte| u64::from(*byte)))
}

/// Adds heats and writes at a rank.
fn add_loads(rt: &impl Abort, alloc: Global, all: &mut Gathering, at: Rank, given: &[Written<'_>]) {
    let mut loads = Vec::new(alloc);
    for (path, counted) in given {
        let path = Vec::from_slice(alloc, path).sure(rt);
        let (heat, writes) = *counted;
        let fragment = FragmentHeat {
            inode: inode_of(&path),
            path,
            heat,
            writes,
        };
        loads.push(fragment).sure(rt);
    }
    all.add_loads(at, &loads).sure(rt);
}

/// Adds roots at a rank, with their pins.
fn add_roots(
    rt: &impl Abort,
    alloc: Global,
    all: &mut Gathering,
    at: Rank,
    given: &[(&[u8], Option<i64>)],
    is_spread: bool,
) {
    let mut roots = Vec::new(alloc);
    for (path, pin) in given {
        let root = SubtreeRoot {
            path: Vec::from_slice(alloc, path).sure(rt),
            is_here: true,
            authority: i64::from(at.number()),
            fragment: None,
            pin: *pin,
            is_spread,
        };
        roots.push(root).sure(rt);
    }
    all.add_subtrees(at, &roots).sure(rt);
}

/// The roots of ranks 0 and 1, with their pins.
const FIRST_ROOTS: &[(&[u8], Option<i64>)] = &[(b"", None), (b"/u", None)];

const SECOND_ROOTS: &[(&[u8], Option<i64>)] = &[(b"/a", Some(1)), (b"/u", None)];

/// The heat that they have seen, and what of it comes from writes.
const FIRST_LOADS: &[Written<'static>] = &[
    (b"", (100, 0)),
    (b"/a", (900, 450)),
    (b"/b", (300, 20)),
    (b"/u", (40, 5)),
    (b"~mds0", (7, 1)),
];

const SECOND_LOADS: &[Written<'static>] = &[
    (b"/a", (700, 30)),
    (b"/a/x", (200, 100)),
    (b"/u", (60, 2)),
];

/// Rank 0 has the root and a fragment of `/u`, rank 1 has `/a`, which is pinned, and the other fragment of `/u`.
pub(crate) fn gathered(rt: &impl Abort, alloc: Global) -> Snapshot {
    let mut all = Gathering::new(alloc).sure(rt);
    add_ranks(rt, alloc, &mut all);
    all.snapshot(&[], 1, RankSet::from_bits(3)).sure(rt)
}

/// Adds what both ranks have.
fn add_ranks(rt: &impl Abort, alloc: Global, all: &mut Gathering) {
    add_roots(rt, alloc, all, rank(0), FIRST_ROOTS, false);
    add_roots(rt, alloc, all, rank(1), SECOND_ROOTS, false);
    add_loads(rt, alloc, all, rank(0), FIRST_LOADS);
    add_loads(rt, alloc, all, rank(1), SECOND_LOADS);
    add_entries(rt, alloc, all);
}

/// Adds the entries of `/b`.
fn add_entries(rt: &impl Abort, alloc: Global, all: &mut Gathering) {
    let listing = read_listing(alloc, b"# file: b\nceph.dir.entries=\"12\"\n").sure(rt);
    all.add_listing(&listing).sure(rt);
}

/// A path with parent, heat and writes, inodes, rank, and whether it is spread.
type Seen<'a> = (&'a [u8], (u32, (u64, u64), u64, u8, bool));

impl<'a> Row<Seen<'a>> for Directory {
    fn is_as(&self, row: &Seen<'a>) -> bool {
        let (heat, inodes) = ((self.heat, self.writes), self.inodes);
        let told = (self.parent, heat, inodes, self.now.number(), self.is_spread);
        self.path.as_slice() == row.0 && told == row.1 && self.inode == inode_of(row.0)
    }
}

const SEEN: &[Seen<'static>] = &[
    (b"", (0, (100, 0), 1, 0, false)),
    (b"/u", (0, (100, 7), 1, 1, true)),
    (b"/a", (0, (700, 30), 1, 1, false)),
    (b"/b", (0, (300, 20), 12, 0, false)),
    (b"/a/x", (2, (200, 100), 1, 1, false)),
];

#[test]
fn heat_counts_at_the_rank_with_authority(rt: HostRuntime) {
    let snapshot = gathered(&rt, rt.alloc());
    same_rows(&rt, &snapshot.directories, SEEN, "seen");
}

/// What holds the directories that were seen.
fn same_holds(rt: &impl Abort, found: &[Held]) {
    let table = [
        Held::Free,
        Held::Spread(rank(1)),
        Held::Pinned(rank(1)),
        Held::Free,
        Held::Pinned(rank(1)),
    ];
    same(rt, &found, &table.as_slice());
}

/// The heat that is held at the first ranks.
fn same_held_heat(rt: &impl Abort, alloc: Global, snapshot: &Snapshot, holds: &[Held]) {
    assert!(rt; holds.len() == snapshot.directories.len());
    assert!(rt; snapshot.spread.len() == 64);
    let heat = held_heat(alloc, &snapshot.directories, holds, &snapshot.spread).sure(rt);
    same(rt, &heat.get(..2), &Some([40, 960].as_slice()));
}

#[test]
fn pinned_and_spread_heat_is_held(rt: HostRuntime) {
    let snapshot = gathered(&rt, rt.alloc());
    let holds = holds(rt.alloc(), &snapshot.directories).sure(&rt);
    same_holds(&rt, &holds);
    same_held_heat(&rt, rt.alloc(), &snapshot, &holds);
}

/// Five directories with their heat and writes.
const LEAVES: &[Written<'static>] = &[
    (b"", (1, 0)),
    (b"/a/c", (5, 2)),
    (b"/b", (3, 1)),
    (b"/a", (7, 3)),
    (b"/d", (9, 4)),
];

/// Those that are left of them.
const LEFT: &[Seen<'static>] = &[
    (b"", (0, (4, 1), 2, 0, false)),
    (b"/a", (0, (12, 5), 2, 0, false)),
    (b"/d", (0, (9, 4), 1, 0, false)),
];

pub(crate) fn leaves(rt: &impl Abort, alloc: Global) -> Vec<Directory> {
    let mut all = Gathering::new(alloc).sure(rt);
    add_loads(rt, alloc, &mut all, rank(0), LEAVES);
    let found = all.snapshot(&[], 1, RankSet::from_bits(1)).sure(rt);
    found.directories
}

#[test]
fn cold_leaves_are_folded(rt: HostRuntime) {
    let mut none = Vec::new(rt.alloc());
    let (kept, folded) = fold(rt.alloc(), leaves(&rt, rt.alloc()), 3, &mut none).sure(&rt);
    same(&rt, &folded, &2);
    same_rows(&rt, &kept, LEFT, "left");
}

/// A walk over ten directories. `/p` has a distributed policy; `/r/s/t` a random one, with nothing pinned above it;
/// `/q/r` a random one below a pin; `/i` somebody's pin to rank 5; `/b` and `/c` have pins to rank 1.
const WALK: &[u8] =
    b"# file: p\nceph.dir.pin.distributed=\"1\"\n\n# file: p/x\nceph.dir.entries=\"2\"\n\n\
# file: r/s/t\nceph.dir.pin.random=\"0.25\"\n\n# file: r/u\nceph.dir.entries=\"3\"\n\n\
# file: q\nceph.dir.pin=\"1\"\n\n# file: q/r\nceph.dir.pin.random=\"1.0\"\n\n\
# file: i\nceph.dir.pin=\"5\"\n\n# file: b\nceph.dir.pin=\"1\"\n\n# file: c\nceph.dir.pin=\"1\"\n\n\
# file: e\nceph.dir.pin=\"3\"\n";

/// The pins that were set before: at `/b` to the rank that it has, at `/c` to another one, at `/e` to one that isn't
/// there, and at one that the walk doesn't have.
const SET: &[(u64, &[u8])] = &[(1, b"/b"), (2, b"/c"), (3, b"/e"), (1, b"/gone")];

/// What is known of a directory's pins: its pin and its idle pin, its earlier pin, and whether it may not be pinned.
type Pinned<'a> = (&'a [u8], (Option<u8>, Option<u64>, Option<u8>, bool));

impl<'a> Row<Pinned<'a>> for Directory {
    fn is_as(&self, row: &Pinned<'a>) -> bool {
        let (pin, earlier) = (self.pin.map(Rank::number), self.earlier.map(Rank::number));
        self.path.as_slice() == row.0 && (pin, self.idle, earlier, self.is_kept) == row.1
    }
}

const PINNED: &[Pinned<'static>] = &[
    (b"", (None, None, None, false)),
    (b"/p", (None, None, None, true)),
    (b"/p/x", (None, None, None, false)),
    (b"/r", (None, None, None, true)),
    (b"/r/s", (None, None, None, true)),
    (b"/r/s/t", (None, None, None, true)),
    (b"/r/u", (None, None, None, false)),
    (b"/q", (Some(1), None, None, true)),
    (b"/q/r", (None, None, None, true)),
    (b"/i", (None, Some(5), None, true)),
    (b"/b", (None, None, Some(1), false)),
    (b"/c", (Some(1), None, None, false)),
    (b"/e", (None, None, Some(3), false)),
];

/// The pins that were set before.
fn own_pins(rt: &impl Abort, alloc: Global) -> Vec<OwnPin> {
    let mut own = Vec::new(alloc);
    for (rank, path) in SET {
        let path = Vec::from_slice(alloc, path).sure(rt);
        own.push(OwnPin { rank: *rank, path }).sure(rt);
    }
    own
}

#[test]
fn policies_and_pins_of_others_hold(rt: HostRuntime) {
    let mut all = Gathering::new(rt.alloc()).sure(&rt);
    let listing = read_listing(rt.alloc(), WALK).sure(&rt);
    all.add_listing(&listing).sure(&rt);
    let own = own_pins(&rt, rt.alloc());
    let snapshot = all.snapshot(&own, 1, RankSet::from_bits(7)).sure(&rt);
    same_rows(&rt, &snapshot.directories, PINNED, "pins");
}

/// What is known where Ceph itself pins `/k/x` and nothing was listed.
const TOPS: &[Pinned<'static>] = &[
    (b"", (None, None, None, false)),
    (b"/k", (None, None, None, true)),
    (b"/k/x", (None, None, None, false)),
    (b"/m", (None, None, None, false)),
];

#[test]
fn without_a_walk_the_whole_top_is_held(rt: HostRuntime) {
    let mut all = Gathering::new(rt.alloc()).sure(&rt);
    add_roots(&rt, rt.alloc(), &mut all, rank(0), &[(b"/k/x", None)], true);
    add_loads(&rt, rt.alloc(), &mut all, rank(0), &[(b"/m", (3, 1))]);
    let snapshot = all.snapshot(&[], 1, RankSet::from_bits(1)).sure(&rt);
    same_rows(&rt, &snapshot.directories, TOPS, "tops");
}

/// What ranks 0 and 1 say of roots, and why there is no snapshot: nothing where there is one.
const CLAIMS: &[(&[u8], &[u8], &str)] = &[
    (
        b"[{\"is_auth\":true,\"auth_first\":0,\"dir\":{\"path\":\"/h\xff\",\"dirfrag\":\"0x10000000000\"}}]",
        b"[{\"is_auth\":true,\"auth_first\":1,\"dir\":{\"path\":\"/h\xff\",\"dirfrag\":\"0x10000000000\"}}]",
        "ranks 0 and 1 both claim /h\\377: collect again",
    ),
    (
        b"[{\"is_auth\":true,\"auth_first\":0,\"dir\":{\"path\":\"/h\",\"dirfrag\":\"0x10000000000.0*\"}}]",
        b"[{\"is_auth\":true,\"auth_first\":1,\"dir\":{\"path\":\"/h\",\"dirfrag\":\"0x10000000000.1*\"}}]",
        "",
    ),
    (
        b"[{\"is_auth\":false,\"auth_first\":1,\"dir\":{\"path\":\"/h\"}}]",
        b"[{\"is_auth\":false,\"auth_first\":2,\"dir\":{\"path\":\"/i\"}},\
{\"is_auth\":true,\"auth_first\":1,\"dir\":{\"path\":\"/h\"}}]",
        "rank 1 says that rank 2 has /i, which rank 2 does not claim: collect again",
    ),
    (
        b"[{\"is_auth\":false,\"auth_first\":1,\"dir\":{\"path\":\"/h\"}}]",
        b"[{\"is_auth\":false,\"auth_first\":0,\"dir\":{\"path\":\"/i\"}}]",
        "rank 0 says that rank 1 has /h, which rank 1 does not claim: collect again",
    ),
    (
        b"[{\"is_auth\":false,\"auth_first\":1,\"dir\":{\"path\":\"/h\"}}]",
        b"[{\"is_auth\":true,\"auth_first\":1,\"dir\":{\"path\":\"/h\"}}]",
        "",
    ),
];

/// The snapshot of what ranks 0 and 1 say of roots.
fn snapshot_of(
    alloc: Global,
    first: &[SubtreeRoot],
    second: &[SubtreeRoot],
) -> Result<Snapshot, SnapshotError> {
    let mut all = Gathering::new(alloc)?;
    all.add_subtrees(rank(0), first)?;
    all.add_subtrees(rank(1), second)?;
    all.snapshot(&[], 1, RankSet::from_bits(7))
}

/// Why there is no snapshot, as it is printed; nothing where there is one.
fn refusal_of(rt: &impl Abort, alloc: Global, first: &[u8], second: &[u8]) -> String {
    let first = read_subtrees(alloc, first).sure(rt);
    let second = read_subtrees(alloc, second).sure(rt);
    match snapshot_of(alloc, &first, &second) {
        Ok(_) => String::new(alloc),
        Err(refused) => refused.to_string(alloc).sure(rt),
    }
}

#[test]
fn contradictions_of_authority_are_refused(rt: HostRuntime) {
    for (first, second, why) in CLAIMS {
        let told = refusal_of(&rt, rt.alloc(), first, second);
        same(&rt, &told.as_str(), why);
    }
}
