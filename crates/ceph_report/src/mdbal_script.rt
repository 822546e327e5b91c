//! The same directories as a script of `mdbal`.
//!
//! Names hold bytes from 0x21 to 0x7e there: others, and `%`, are written as `%` and
//! two hexadecimal digits. Heat is in hundredths: reads and twice the writes.

use crate::text::{push_hexadecimal, push_number, push_text};
use ceph_snapshot::{Directory, Held};
use std::alloc::{AllocError, Global};

/// The most hits of one line.
const HITS_LIMIT: u64 = 1_000_000;

/// Adds a byte of a name.
fn push_byte(script: &mut Vec<u8>, byte: u8) -> Result<(), AllocError> {
    match byte {
        b'%' => push_text(script, "%25"),
        b'!'..=b'~' => {
            script.push(byte)?;
            Ok(())
        }
        other => push_hexadecimal(script, "%", other),
    }
}

/// Adds a line: a word, a path, a number and how it ends.
fn push_line(
    script: &mut Vec<u8>,
    word: &str,
    path: &[u8],
    number: u64,
    end: &str,
) -> Result<(), AllocError> {
    push_text(script, word)?;
    if path.is_empty() {
        push_text(script, "/")?;
    }
    for byte in path {
        push_byte(script, *byte)?;
    }
    push_number(script, " ", number)?;
    push_text(script, end)
}

/// Adds the lines that make a directory, and pin it where it is held but its parent isn't.
fn push_directory(
    script: &mut Vec<u8>,
    directory: &Directory,
    holds: &[Held],
    hold: Held,
) -> Result<(), AllocError> {
    let above = holds.get(directory.parent as usize).copied();
    let above = above.unwrap_or(Held::Free);
    let path = directory.path.as_slice();
    let inodes = directory.inodes.min(u64::from(u32::MAX));
    push_line(script, "dir ", path, inodes, "\n")?;
    match hold.rank() {
        Some(rank) if hold != above => {
            push_line(script, "pin ", path, u64::from(rank.number()), "\n")
        }
        _ => Ok(()),
    }
}

/// Adds the lines that load a directory with hits of one kind, as many as they take.
fn push_hits(script: &mut Vec<u8>, path: &[u8], hits: u64, end: &str) -> Result<(), AllocError> {
    let (full, rest) = (hits / HITS_LIMIT, hits % HITS_LIMIT);
    for _ in 0..full {
        push_line(script, "load ", path, HITS_LIMIT, end)?;
    }
    if rest == 0 {
        return Ok(());
    }
    push_line(script, "load ", path, rest, end)
}

/// Adds the lines that load a directory with its reads and its writes, of which one is as much heat as two reads.
fn push_load(script: &mut Vec<u8>, directory: &Directory) -> Result<(), AllocError> {
    let path = directory.path.as_slice();
    let hits = directory.heat / 10;
    let writes = (directory.writes / 10).min(hits / 2);
    push_hits(script, path, hits - 2 * writes, "\n")?;
    push_hits(script, path, writes, " w\n")
}

/// A script that makes these directories with their heat and what holds them, and plans them for `ranks` ranks.
pub fn make_script(
    alloc: Global,
    directories: &[Directory],
    holds: &[Held],
    ranks: u8,
) -> Result<Vec<u8>, AllocError> {
    let mut script = Vec::new(alloc);
    push_number(&mut script, "ranks ", u64::from(ranks))?;
    push_text(&mut script, "\nmask -1\nweight 1 2\n")?;
    for at in 1..directories.len() {
        if let Some(hold) = holds.get(at) {
            push_directory(&mut script, &directories[at], holds, *hold)?;
        }
    }
    for directory in directories {
        push_load(&mut script, directory)?;
    }
    push_text(&mut script, "go\nplan\n")?;
    Ok(script)
}
