//! Where Ceph's policy of distributed pins puts what is below a directory, and the directory where it helps most.

use crate::same::{Sure, same, same_in};
use ceph_pins::{Advice, advised, rank_of_child};
use ceph_snapshot::Directory;
use mds_types::Rank;
use std::alloc::Global;
use std::process::Abort;

/// A name, and its rank in the directory 0x10000000000 with 3 ranks: that at which a live cluster showed the fragment
/// of the name. Which fragment that is comes from a C program after Ceph's source.
const SEEN: &[(&str, u8)] = &[
    ("scratch", 2),
    ("alice", 0),
    ("an-even-longer-directory-name-2", 0),
    ("project-2026", 2),
    ("a-directory-of-24-bytes.", 1),
    ("lost+found", 1),
    ("user4", 2),
    ("x", 0),
    ("bob", 0),
];

/// A name, and its rank in the directory 0x10000000abc with 1, 2, 5, 16 and 64 ranks, by a C program after Ceph's
/// source.
const COMPUTED: &[(&str, [u8; 5])] = &[
    ("bob", [0, 1, 0, 10, 39]),
    ("alice", [0, 1, 3, 3, 3]),
    ("project-2026", [0, 0, 3, 11, 27]),
    ("a-directory-of-24-bytes.", [0, 0, 1, 8, 29]),
    ("an-even-longer-directory-name-2", [0, 1, 2, 15, 6]),
    ("results_0007", [0, 1, 2, 13, 21]),
];

/// Names of 16 children.
const NAMES: &[&str] = &[
    "/w/bob",
    "/w/alice",
    "/w/project-2026",
    "/w/a-directory-of-24-bytes.",
    "/w/an-even-longer-directory-name-2",
    "/w/x",
    "/w/lost+found",
    "/w/home",
    "/w/scratch",
    "/w/results_0007",
    "/w/user0",
    "/w/user1",
    "/w/user2",
    "/w/user3",
    "/w/user4",
    "/w/user5",
];

#[test]
fn gives_the_ranks_that_a_cluster_showed(rt: HostRuntime) {
    for row in SEEN {
        let rank = rank_of_child(0x100_0000_0000, row.0.as_bytes(), 3);
        same_in(&rt, &rank, &row.1, row);
    }
}

/// The ranks of a child with 1, 2, 5, 16 and 64 ranks.
fn ranks_of(name: &str) -> [u8; 5] {
    let rank = |size| rank_of_child(0x100_0000_0abc, name.as_bytes(), size);
    [rank(1), rank(2), rank(5), rank(16), rank(64)]
}

#[test]
fn gives_the_ranks_of_other_sizes(rt: HostRuntime) {
    for row in COMPUTED {
        same_in(&rt, &ranks_of(row.0), &row.1, row);
    }
}

/// A directory with no pin and no policy.
fn plain(rt: &impl Abort, alloc: Global, path: &str, parent: u32, inode: Option<u64>) -> Directory {
    Directory {
        path: Vec::from_slice(alloc, path.as_bytes()).sure(rt),
        inode,
        parent,
        heat: 0,
        writes: 0,
        inodes: 1,
        now: Rank::default(),
        pin: None,
        idle: None,
        earlier: None,
        policy: None,
        is_doubtful: false,
        is_kept: false,
        is_spread: false,
    }
}

/// The root with `/w`, whose 16 children are as named, and a directory below the first of them.
fn tree(rt: &impl Abort, alloc: Global) -> Vec<Directory> {
    let mut all = Vec::new(alloc);
    all.push(plain(rt, alloc, "", 0, Some(1))).sure(rt);
    all.push(plain(rt, alloc, "/w", 0, Some(0x100_0000_0abc)))
        .sure(rt);
    for path in NAMES {
        all.push(plain(rt, alloc, path, 1, None)).sure(rt);
    }
    all.push(plain(rt, alloc, "/w/bob/deep", 2, None)).sure(rt);
    all
}

/// Heat 10 and more of the children, 5000 of `/w` itself, and 1000 of the one below the first child.
fn heats(rt: &impl Abort, alloc: Global) -> Vec<u64> {
    let mut heats = Vec::new(alloc);
    heats.push(0).sure(rt);
    heats.push(5000).sure(rt);
    for heat in 10..26u64 {
        heats.push(heat).sure(rt);
    }
    heats.push(1000).sure(rt);
    heats
}

/// What is advised for that tree, with this many ranks.
fn advice(rt: &impl Abort, alloc: Global, size: u8) -> Option<Advice> {
    let tree = tree(rt, alloc);
    let heats = heats(rt, alloc);
    assert!(rt; heats.len() == tree.len());
    advised(alloc, &tree, &heats, size).sure(rt)
}

/// It is `/w` with 16 children and the heat at and below them, spread like this.
fn is_of_w(rt: &impl Abort, found: Option<Advice>, spread: &[u64]) {
    let Some(found) = found else {
        panic!(rt; "nothing is advised");
    };
    same(rt, &found.path.as_slice(), &b"/w".as_slice());
    same(rt, &found.children, &16);
    same(rt, &found.heat, &1280);
    same(rt, &found.spread.as_slice(), &spread);
}

#[test]
fn spreads_the_children_of_a_hot_directory(rt: HostRuntime) {
    is_of_w(&rt, advice(&rt, rt.alloc(), 2), &[106, 1174]);
    is_of_w(&rt, advice(&rt, rt.alloc(), 3), &[1063, 133, 84]);
}
