//! Readers in threads of their own, while the writer publishes.
ghost use Rattle.std.specs.Prelude.{◌≡◌};

use crate::map::maps::{give, hear, look, rank, show};
use crate::map::opened::{Trial, try_trial};
use authority_map::{Found, MapError, MapReader, Publisher};
use mds_types::Dir;
use proof_names::Naming;
use std::alloc::Global;
use std::thread::{Threads, join};

// The place of an answer on directory 0 in the order in which the writer gives them.
fn place(found: Found) -> Option<u8> {
    match found {
        Found::NoDir => Some(0),
        Found::Rank(rank) => Some(rank.number() + 1),
        Found::Closed => None,
    }
}

// Reads directory 0 half a million times. It says whether the answers never went back.
fn watch<J: Naming>(reader: &mut MapReader<J>) -> bool {
    let mut last = Some(0);
    let mut forward = true;
    for _read in 0..500_000u32 {
        let next = place(look(reader, Dir::new(0)));
        forward = forward && next.is_some() && last <= next;
        last = next;
    }
    forward
}

// Directory 0 gets a rank, and the map is published.
fn raise_to<J: Naming, M: Publisher<J>>(
    alloc: Global,
    writer: &mut M,
    number: u8,
) -> Result<(), MapError>
    requires { J.limit ≡ 96 }
{
    give::<J, M>(alloc, writer, Dir::new(0), rank(number))?;
    show::<J, M>(writer)
}

// Publishes 100,001 operations, by which directory 0 gets the ranks from 0 to 63.
fn raise<J: Naming, M: Publisher<J>>(alloc: Global, writer: &mut M) -> Result<(), MapError>
    requires { J.limit ≡ 96 }
{
    for step in 0..100_000u32 {
        raise_to::<J, M>(alloc, writer, (step / 1_600) as u8)?;
    }
    raise_to::<J, M>(alloc, writer, 63)
}

// Two readers, each in a thread of its own. It says whether no answer of theirs went back.
fn watch_two<J: Naming + Send + Sync, R: Threads + Sync>(
    rt: &R,
    first: &mut MapReader<J>,
    second: &mut MapReader<J>,
) -> bool {
    let (first, second) = join(rt, || watch(first), || watch(second));
    first && second
}

// The same of three readers.
fn watch_three<J: Naming + Send + Sync, R: Threads + Sync>(
    rt: &R,
    first: &mut MapReader<J>,
    second: &mut MapReader<J>,
    third: &mut MapReader<J>,
) -> bool {
    let (two, third) = join(rt, || watch_two(rt, first, second), || watch(third));
    two && third
}

// What a reader finds at directory 0 once it has heard of all.
fn heard<J: Naming, M: Publisher<J>>(writer: &M, reader: &mut MapReader<J>) -> Found {
    hear(reader, writer);
    look(reader, Dir::new(0))
}

// What each of three readers finds then.
fn all_heard<J: Naming, M: Publisher<J>>(
    writer: &M,
    first: &mut MapReader<J>,
    second: &mut MapReader<J>,
    third: &mut MapReader<J>,
) -> [Found; 3] {
    [
        heard(writer, first),
        heard(writer, second),
        heard(writer, third),
    ]
}

/// Three readers watch, while the writer publishes. Each then learns, and reads. It says whether no answer went back,
/// and the last ones are the last.
pub(crate) fn never_go_back<J: Naming + Send + Sync, M: Publisher<J> + Send, R: Threads + Sync>(
    rt: &R,
    alloc: Global,
    writer: &mut M,
    first: &mut MapReader<J>,
    second: &mut MapReader<J>,
    third: &mut MapReader<J>,
) -> bool
    requires { J.limit ≡ 96 }
{
    let watching = || watch_three(rt, first, second, third);
    let (forward, raised) = join(rt, watching, || raise::<J, M>(alloc, writer).is_ok());
    let found = all_heard(writer, first, second, third);
    forward && raised && found == [Found::Rank(rank(63)); 3]
}

#[test]
fn answers_never_go_back(rt: HostRuntime) {
    try_trial(&rt, Trial::Watches)
}
