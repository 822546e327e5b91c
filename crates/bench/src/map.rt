//! Times of the published map, in picoseconds of processor time, the least of several runs. What isn't done right takes
//! for ever.
//!
//! `map` prints `find`, a look-up by one reader; `find_in_four_threads`, one by each of four readers, the slowest of
//! them; and `publish`, one directory set and published.
ghost use Rattle.std.specs.Prelude.{◌<◌, ◌≡◌, ◌≤◌};

use crate::times::{RUNS, keys, now, per_step, slowest};
use crate::words::print;
use authority_map::{Found, MapReader, MapWriter, NewMap, Publisher};
use mds_types::limits::DIR_LIMIT;
use mds_types::{Dir, Rank};
use proof_names::Naming;
use std::alloc::Global;
use std::io::{self, Write};
use std::marker::Brand;
use std::sync::Wait;
use std::thread::{Threads, map_vec};
use std::time::CpuClock;

/// How often a list of keys is looked up in one run.
const ROUNDS: u32 = 64;

/// How many operations are published in one run.
const PUBLISHES: u32 = 20_000;

/// What is timed.
#[derive(Clone, Copy)]
struct MapTimes {
    one: u64,
    four: u64,
    publish: u64,
}

// All directories are at this rank.
fn rank() -> Rank {
    Rank::new(1).unwrap_or_default()
}

fn find_all<J: Naming>(reader: &mut MapReader<J>, keys: &[u32]) -> u64 {
    let mut sum: u64 = 0;
    for key in keys {
        if let Found::Rank(rank) = reader.find(Dir::new(*key)) {
            sum = sum.wrapping_add(u64::from(rank.number()));
        }
    }
    sum
}

// The time of a look-up in one run, where all are found at rank 1.
fn time_finds<J: Naming, C: CpuClock>(rt: &C, reader: &mut MapReader<J>, keys: &[u32]) -> u64 {
    let wanted = (keys.len() as u64).wrapping_mul(u64::from(ROUNDS));
    let start = now(rt);
    let mut sum: u64 = 0;
    for _ in 0..ROUNDS {
        sum = sum.wrapping_add(find_all(reader, keys));
    }
    let time = per_step(rt, start, keys.len().saturating_mul(ROUNDS as usize));
    if sum == wanted { time } else { u64::MAX }
}

// The least of several runs.
fn least_finds<J: Naming, C: CpuClock>(rt: &C, mut reader: MapReader<J>, keys: &[u32]) -> u64 {
    let mut least = u64::MAX;
    for _ in 0..RUNS {
        least = time_finds(rt, &mut reader, keys).min(least);
    }
    least
}

// The least time of a reader, if there is one.
fn time_one<J: Naming, C: CpuClock>(rt: &C, readers: &mut Vec<MapReader<J>>, keys: &[u32]) -> u64 {
    match readers.pop() {
        Some(reader) => least_finds(rt, reader, keys),
        None => u64::MAX,
    }
}

// The least times of each reader in a thread of its own, of which the slowest counts.
fn time_threads<J: Naming + Send + Sync, R: Threads + CpuClock + Sync>(
    rt: &R,
    readers: Vec<MapReader<J>>,
    keys: &[u32],
) -> u64 {
    match map_vec(
        rt,
        readers,
        &|reader: MapReader<J>| least_finds(rt, reader, keys),
    ) {
        Ok(times) => slowest(&times),
        Err(_) => u64::MAX,
    }
}

// Whether a directory could be set.
fn set_one<J: Naming, M: Publisher<J>>(alloc: Global, map: &mut M, dir: u32) -> bool
    requires { dir < J.limit }
{
    let Ok(dirs) = Vec::from_array(alloc, [Dir::new(dir)]) else {
        return false;
    };
    if map.reserve().is_err() {
        return false;
    }
    map.set(dirs, rank());
    true
}

// The least time of a publish of one directory.
fn least_publish<J: Naming, M: Publisher<J>, C: CpuClock>(rt: &C, alloc: Global, map: &mut M) -> u64
    requires { 1 ≤ J.limit }
{
    let mut least = u64::MAX;
    for _ in 0..RUNS {
        let mut done = true;
        let start = now(rt);
        for _ in 0..PUBLISHES {
            done &= set_one(alloc, map, 0) && map.publish().is_ok();
        }
        if done {
            least = per_step(rt, start, PUBLISHES as usize).min(least);
        }
    }
    least
}

// Each directory at the rank.
fn fill<J: Naming, M: Publisher<J>>(alloc: Global, map: &mut M)
    requires { DIR_LIMIT ≡ J.limit }
{
    for dir in 0..DIR_LIMIT {
        let _ = set_one(alloc, map, dir);
    }
    let _ = map.publish();
}

// The times of the calls, and the map's end.
fn time_all<J: Naming + Send + Sync, M: Publisher<J>, R: Threads + CpuClock + Sync>(
    rt: &R,
    alloc: Global,
    mut map: M,
    mut readers: Vec<MapReader<J>>,
    keys: &[u32],
) -> MapTimes
    requires { DIR_LIMIT ≡ J.limit }
{
    fill(alloc, &mut map);
    let one = time_one(rt, &mut readers, keys);
    let four = time_threads(rt, readers, keys);
    let publish = least_publish(rt, alloc, &mut map);
    map.end();
    MapTimes { one, four, publish }
}

// The map is opened in one place, since a function that knows the type of its writer is dear to prove.
fn time_map<J: Naming + Send + Sync, R: Threads + Wait + CpuClock + Sync>(
    rt: &R,
    alloc: Global,
    opened: NewMap,
    keys: &[u32],
) -> Option<MapTimes>
    requires name { opened ≡ J.map }
    requires limit { DIR_LIMIT ≡ J.limit }
{
    match MapWriter::<J, &R>::open(rt, alloc, opened, DIR_LIMIT, 5) {
        Ok((map, readers)) => Some(time_all(rt, alloc, map, readers, keys)),
        Err(_) => None,
    }
}

/// Times a map of 65,536 directories at one rank, and prints the times.
pub fn run<R: Threads + Wait + CpuClock + Sync, W: Write>(
    rt: &R,
    alloc: Global,
    out: &mut W,
) -> io::Result<()> {
    let keys = keys(alloc, 7)?;
    let Some(times) = time_map::<Brand, R>(rt, alloc, NewMap::new(), &keys) else {
        return Ok(());
    };
    print(out, "find", times.one)?;
    print(out, "find_in_four_threads", times.four)?;
    print(out, "publish", times.publish)
}
