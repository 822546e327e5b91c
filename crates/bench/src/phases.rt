//! Times phases of the ranks' threads, and requests on one thread.
//!
//! `serve RANKS HITS` serves 10,000 requests of HITS hits, which the ranks share evenly, rank k on its directory k;
//! with no hits there is no request. It prints a line for a thread a rank and a line for one thread: nanoseconds of
//! wall time, the least of several runs. `export RANKS` moves directories from each rank to the next, 65,536 in all,
//! and prints the line for a thread a rank. `both RANKS HITS` serves such requests, and moves a second directory of
//! each rank to the next: a line for both at once, and one for a phase of requests and then one of exports, all in
//! threads.

mod opened;
mod timing;
mod work;

ghost use Rattle.std.specs.Prelude.{◌≤◌};

use crate::phases::opened::time_named;
use crate::phases::timing::Phase;
use crate::phases::work::Work;
use crate::times::RUNS;
use crate::words::{number_at, print, word_at};
use std::alloc::Global;
use std::io::{self, Write};
use std::marker::Sync;
use std::sync::Wait;
use std::thread::Threads;
use std::time::Clock;

// The least time of a phase.
fn least<R: Threads + Wait + Clock + Sync>(rt: &R, alloc: Global, ranks: u8, phase: Phase) -> u64
    requires ranks { (1 ≤ ranks) × (ranks ≤ 64) }
{
    let mut least = u64::MAX;
    for _ in 0..RUNS {
        least = time_named(rt, alloc, ranks, phase).min(least);
    }
    least
}

// What a word asks for.
fn work_of(word: &str, hits: u32) -> Option<Work> {
    match word {
        "serve" => Some(Work::Serve(hits)),
        "export" => Some(Work::Export),
        "both" => Some(Work::Both(hits)),
        _ => None,
    }
}

// The names of the times, each with whether it is of all ranks at once.
fn names_of(work: Work) -> &'static [(&'static str, bool)] {
    match work {
        Work::Serve(_) => &[("threads", true), ("one_thread", false)],
        Work::Export => &[("threads", true)],
        Work::Both(_) => &[("at_once", true), ("in_turn", false)],
    }
}

/// Carries out what the words ask for.
pub fn run<R: Threads + Wait + Clock + Sync, W: Write>(
    rt: &R,
    alloc: Global,
    out: &mut W,
    words: &[String],
) -> io::Result<()> {
    let ranks = u8::try_from(number_at(words, 2)).unwrap_or(0);
    let Some(work) = work_of(word_at(words, 1), number_at(words, 3)) else {
        return Ok(());
    };
    if ranks < 1 || ranks > 64 {
        return Ok(());
    }
    for (name, at_once) in names_of(work) {
        let phase = Phase {
            work,
            at_once: *at_once,
        };
        print(out, name, least(rt, alloc, ranks, phase))?;
    }
    Ok(())
}
