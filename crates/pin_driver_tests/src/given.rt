//! A plan of two changes, and answers.
ghost use Rattle.std.specs.Prelude.{◌≡◌, length};

use crate::same::Sure;
use mds_types::Rank;
use pin_driver::{
    Bytes, ClusterState, EarlierPin, FoundPin, HostAnswer, Mark, Pace, PinPlan, PlannedChange, Task,
};
use std::alloc::Global;
use std::process::Abort;

/// An answer, as a table writes it.
#[derive(Clone, Copy, Debug, PartialEq, Eq)]
pub(crate) enum Say {
    Waited,
    /// The cluster is as it was.
    Same,
    /// A warning is gone.
    FewerWarnings,
    NewWarning,
    OtherRanks,
    Stored,
    /// An inode number, and the number of a rank that is pinned to.
    Found(u64, Option<u8>),
    Done,
    InPlace(bool),
    Gone,
    Refused,
    NoAnswer,
    Nonsense,
}

/// The rank of a number that is small.
pub(crate) fn rank(number: Option<u8>) -> Option<Rank> {
    Rank::new(number?)
}

pub(crate) fn bytes<R: Abort>(rt: &R, alloc: Global, text: &[u8]) -> Bytes {
    Bytes::new(text.to_vec(alloc).sure(rt))
}

/// A state of the cluster, with these warnings of one letter.
fn cluster<R: Abort>(rt: &R, alloc: Global, ranks: &[u8], letters: &[u8]) -> HostAnswer {
    let mut warnings = Vec::new(alloc);
    for letter in letters {
        warnings.push(bytes(rt, alloc, &[*letter])).sure(rt);
    }
    let ranks = bytes(rt, alloc, ranks);
    HostAnswer::Cluster(ClusterState { ranks, warnings })
}

pub(crate) fn answer<R: Abort>(rt: &R, alloc: Global, say: Say) -> HostAnswer {
    match say {
        Say::Waited => HostAnswer::Waited,
        Say::Same => cluster(rt, alloc, b"0:a 1:b", b"XY"),
        Say::FewerWarnings => cluster(rt, alloc, b"0:a 1:b", b"Y"),
        Say::NewWarning => cluster(rt, alloc, b"0:a 1:b", b"XYZ"),
        Say::OtherRanks => cluster(rt, alloc, b"0:a 1:c", b"XY"),
        Say::Stored => HostAnswer::Stored,
        Say::Found(inode, number) => HostAnswer::Found(FoundPin {
            inode,
            pin: rank(number),
        }),
        Say::Done => HostAnswer::Done,
        Say::InPlace(is) => HostAnswer::InPlace(is),
        Say::Gone => HostAnswer::Gone,
        Say::Refused => HostAnswer::Refused,
        Say::NoAnswer => HostAnswer::NoAnswer,
        Say::Nonsense => HostAnswer::Nonsense,
    }
}

/// The change of directory `/a` with inode number 100 from no pin to rank 1, which moves 60 inodes.
fn first_change<R: Abort>(rt: &R, alloc: Global) -> PlannedChange {
    PlannedChange {
        path: bytes(rt, alloc, b"/a"),
        inode: Some(100),
        before: None,
        after: rank(Some(1)),
        inodes: 60,
    }
}

/// The change of a directory without a known inode number, and with a name of all kinds of bytes, from rank 2 to no
/// pin, which moves 50 inodes.
fn second_change<R: Abort>(rt: &R, alloc: Global) -> PlannedChange {
    PlannedChange {
        path: bytes(rt, alloc, b"/b \\\n\xff"),
        inode: None,
        before: rank(Some(2)),
        after: None,
        inodes: 50,
    }
}

/// Both changes, and an earlier pin of the second directory.
pub(crate) fn plan<R: Abort>(rt: &R, alloc: Global) -> PinPlan
    ensures { length result.changes ≡ 2 }
{
    let changes = [first_change(rt, alloc), second_change(rt, alloc)];
    let changes = Vec::from_array(alloc, changes).sure(rt);
    let mut earlier = Vec::new(alloc);
    if let Some(rank) = rank(Some(2)) {
        let pin = EarlierPin {
            path: bytes(rt, alloc, b"/b \\\n\xff"),
            inode: None,
            rank,
        };
        earlier.push(pin).sure(rt);
    }
    assert!(rt; changes.len() == 2);
    PinPlan::new(bytes(rt, alloc, b"plan 7"), changes, earlier)
}

/// The plan from this mark, a change in each batch, with at most two waits of five seconds.
pub(crate) fn task<R: Abort>(rt: &R, alloc: Global, first: Mark) -> Task
    ensures plan { length result.plan.changes ≡ 2 }
    ensures first { result.first ≡ first }
{
    let pace = Pace {
        batch_inodes: 50,
        poll_seconds: 5,
        longest_wait: 10,
    };
    let plan = plan(rt, alloc);
    Task { plan, first, pace }
}

/// A mark.
pub(crate) const fn mark(begun: usize, certain: usize) -> Mark
    ensures { result ≡ record { begun = begun; certain = certain } }
{
    Mark { begun, certain }
}
