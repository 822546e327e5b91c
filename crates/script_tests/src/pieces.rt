//! The programs over devices that give and take a few bytes at a time.
use crate::same::{Sure, holds_in, same, same_in};
use certificate_judge::judge;
use script_engine::{Input, Output};
use script_program::{SystemProofs, start};
use std::alloc::{AllocError, Global};
use std::cell::Cell;
use std::fs::Files;
use std::io;
use std::io::{Read, Write};
use std::marker::Sync;
use std::random::RandomSource;
use std::sync::Wait;
use std::thread::Threads;

/// Gives five bytes at a read, and notes how many bytes were written before it.
#[derive(Drop)]
struct Watcher<'a> {
    rest: &'a [u8],
    written: &'a Cell<usize>,
    noted: Vec<usize>,
}

impl Read for Watcher<'_> {
    fn read(&mut self, buf: &mut [u8]) -> io::Result<usize> {
        self.noted.push(self.written.get())?;
        let count = self.rest.len().min(buf.len()).min(5);
        buf[..count].copy_from_slice(&self.rest[..count]);
        self.rest = &self.rest[count..];
        Ok(count)
    }
}

/// Takes at most `step` bytes at a write, and counts those of all writes and of the longest. It can't be flushed.
#[derive(Drop)]
struct Counter<'a> {
    step: usize,
    written: &'a Cell<usize>,
    longest: usize,
}

fn counting(step: usize, written: &Cell<usize>) -> Counter<'_> {
    Counter {
        step,
        written,
        longest: 0,
    }
}

impl Write for Counter<'_> {
    fn write(&mut self, buf: &[u8]) -> io::Result<usize> {
        let count = buf.len().min(self.step);
        self.written.set(self.written.get().saturating_add(count));
        self.longest = self.longest.max(count);
        Ok(count)
    }

    fn flush(&mut self) -> io::Result<()> {
        Err(io::Error::from(io::ErrorKind::BrokenPipe))
    }
}

/// The exit status of a run, and its reader.
fn ended<T: Threads + Wait + Files + RandomSource + Sync, R: Read + Drop, W: Write>(
    rt: &T,
    alloc: Global,
    words: &[&str],
    reader: R,
    writer: &mut W,
) -> (u8, R) {
    let mut input = Input::new(reader);
    let mut errors = Vec::new(alloc);
    let mut files = SystemProofs { runtime: rt };
    let status = start(
        rt,
        alloc,
        words,
        &mut files,
        &mut input,
        writer,
        &mut errors,
    );
    (status, input.into_inner())
}

/// Its second line is answered by 15 bytes, and its third by 47.
const SCRIPT: &[u8] = b"ranks 1\nload /a\ncost\n";

// (words, how many bytes were written before each read)
const NOTED: &[(&[&str], &[usize])] = &[
    (&["mdbal"], &[0, 0, 0, 0, 15, 62]),
    (&["mdbal", "--strict"], &[0, 0, 0, 0]),
];

// Each answer is written before the next piece is read, and a strict run reads nothing after its last.
#[test]
fn answers_before_it_reads_on(rt: HostRuntime) {
    for (words, noted) in NOTED {
        let written = Cell::new(0);
        let watcher = Watcher {
            rest: SCRIPT,
            written: &written,
            noted: Vec::new(rt.alloc()),
        };
        let mut counter = counting(1, &written);
        let (status, watcher) = ended(&rt, rt.alloc(), words, watcher, &mut counter);
        same_in(&rt, &status, &1, words);
        same_in(&rt, &watcher.noted.as_slice(), noted, words);
    }
}

/// Makes directories with names of 100 bytes, and reports on them.
fn long_stat(alloc: Global, dirs: u32) -> Result<String, AllocError> {
    let mut script = String::from_str(alloc, "ranks 1\n")?;
    for number in 0..dirs {
        let line = format!(in alloc; "dir /{number:0100} 1\n")?;
        script.push_str(&line)?;
    }
    script.push_str("stat\n")?;
    Ok(script)
}

// A long reply is written in pieces of 64 KB or a little more, and not kept whole.
#[test]
fn a_long_reply_is_written_in_pieces(rt: HostRuntime) {
    let script = long_stat(rt.alloc(), 2000).sure(&rt);
    let written = Cell::new(0);
    let mut counter = counting(usize::MAX, &written);
    let reader = script.as_bytes();
    let (status, _reader) = ended(&rt, rt.alloc(), &["mdbal"], reader, &mut counter);
    same(&rt, &status, &0);
    holds_in(&rt, written.get() > 200_000, &written.get());
    let is_piece = (65_536..66_000).contains(&counter.longest);
    holds_in(&rt, is_piece, &counter.longest);
}

#[test]
fn a_failed_flush_is_an_error(rt: HostRuntime) {
    let written = Cell::new(0);
    let mut output = Output::new(counting(1, &written));
    holds_in(&rt, output.flush().is_err(), &"flush");
}

/// A certificate of no rows.
const EMPTY: &[u8] =
    b"certificate 1\nmask 0x1\nrows 0\nparts 0\nranks 0\ngreatest 0\nmoved 0\ncut zero\n\
    part_prices 0\nrank_prices 1\nprice 0\nend\n";

/// Bytes that come one at a time, each after a read that was interrupted.
#[derive(Drop)]
struct Slow<'a> {
    bytes: &'a [u8],
    is_ready: bool,
}

impl Read for Slow<'_> {
    fn read(&mut self, buf: &mut [u8]) -> io::Result<usize> {
        self.is_ready = !self.is_ready;
        if self.is_ready {
            return Err(io::Error::from(io::ErrorKind::Interrupted));
        }
        let count = self.bytes.len().min(buf.len()).min(1);
        buf[..count].copy_from_slice(&self.bytes[..count]);
        self.bytes = &self.bytes[count..];
        Ok(count)
    }
}

#[test]
fn a_read_that_was_interrupted_is_made_again(rt: HostRuntime) {
    let mut reader = Slow {
        bytes: EMPTY,
        is_ready: false,
    };
    let answers = judge(rt.alloc(), &mut reader).sure(&rt);
    holds_in(&rt, answers.hold, &"certificate");
}
