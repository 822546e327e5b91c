//! Times what whole scripts don't show: readers of the published map, and phases of the ranks' threads. The scripts
//! bench/paths and bench/threads at the top run it.
//!
//! The first word is `map`, `serve`, `export` or `both`. The modules `map` and `phases` say what follows and what is
//! printed. Without a word it prints nothing. A line that it prints is a name and its numbers.
#![tactic(auto)]

mod map;
mod phases;
mod times;
mod words;

use crate::words::word_at;
use std::io::{self, Write};

fn main(rt: HostRuntime) -> io::Result<()> {
    let alloc = rt.alloc();
    let words: Vec<String> = std::env::args(&rt)?.collect(alloc)?;
    let mut out = io::writer(&rt);
    match word_at(&words, 1) {
        "map" => map::run(&rt, alloc, &mut out),
        _ => phases::run(&rt, alloc, &mut out, &words),
    }
}
