//! Reading the answers of a host, a byte at a time: a line is answered before the next one comes.
ghost use Rattle.std.specs.Prelude.{◌≡◌, ◌<◌, ◌⊎◌, ◌++◌, ◌∷◌, [], IfOk, IfSome, List, None, OnErr, ℕ};
ghost use Rattle.std.specs.Io.KnownBytes.{IsAtEnd};
ghost use Rattle.drive_lines.specs.Dialogue.{GivesAnswer, HasTaken, IsHostLine, HostBytes};

use crate::answers::answer_of;
use crate::drive_error::DriveError;
use pin_driver::HostAnswer;
use script_engine::past::Past;
use std::alloc::Global;
use std::io::Read;
use std::marker::Model;
use std::snapshot::Snapshot;

/// How many bytes a line of a host has at most, with its newline.
pub const LINE_LIMIT: usize = 65536;

/// A reader of a host's lines, with the bytes that it gave so far. They are known only in proofs, of any reader.
#[derive(Drop)]
pub struct HostReader<R> {
    reader: R,
    past: Past,
}

impl<R> Model for HostReader<R> {
    ghost use Rattle.script_engine.specs.Past.{bytes_of};
    ghost use Rattle.drive_lines.specs.Dialogue.{HostBytes};

    ghost Value = { HostBytes R };

    ghost view = { λ host. record { reader = host.reader; taken = bytes_of host.past } };
}

/// What comes next.
#[derive(Drop)]
pub(crate) enum HostLine {
    /// A line, without its newline.
    Whole(Vec<u8>),
    /// A line with too many bytes.
    TooLong,
    /// The end of the input, and maybe a line before it that no newline ends.
    Ended,
}

impl<R: Read> HostReader<R> {
    /// A reader of which nothing was read yet.
    pub fn new(reader: R) -> HostReader<R>
        ensures { result ≡ record { reader = reader; taken = [] } }
    {
        HostReader {
            reader,
            past: Past::Start,
        }
    }

    /// The next byte, or none at the end of the input.
    pub(crate) fn next_byte(&mut self) -> Result<Option<u8>, DriveError>
        ensures byte { IfOk result (λ found. IfSome found
            (λ byte. HasTaken R.remaining self.old self.new (byte ∷ []))) }
        ensures end { IfOk result (λ found. found ≡ None →
            HasTaken R.remaining self.old self.new [] × IsAtEnd (R.remaining self.new.reader)) }
        ensures err { OnErr result (HasTaken R.remaining self.old self.new []) }
    {
        let mut buffer = [0u8; 1];
        match self.reader.read(&mut buffer) {
            Ok(0) => Ok(None),
            Ok(_) => {
                self.past = Past::Then(Snapshot::of(&self.past), buffer[0]);
                Ok(Some(buffer[0]))
            }
            Err(_) => Err(DriveError::Read),
        }
    }

    /// The next line.
    pub(crate) fn next_line(&mut self, alloc: Global) -> Result<HostLine, DriveError>
        ensures ok { IfOk result (λ line. (bytes : List ℕ) × HasTaken R.remaining self.old self.new bytes
            × IsHostLine (R.remaining self.new.reader) bytes line) }
        ensures err { OnErr result ((bytes : List ℕ) × HasTaken R.remaining self.old self.new bytes) }
    {
        let mut line = Vec::new(alloc);
        for _ in 0..LINE_LIMIT {
            match self.next_byte()? {
                None => return Ok(HostLine::Ended),
                Some(b'\n') => return Ok(HostLine::Whole(line)),
                Some(byte) => line.push(byte)?,
            }
        }
        Ok(HostLine::TooLong)
    }

    /// The answer of the next line.
    pub(crate) fn answer(&mut self, alloc: Global) -> Result<HostAnswer, DriveError>
        ensures ok { IfOk result (λ answer. (bytes : List ℕ) × HasTaken R.remaining self.old self.new bytes
            × GivesAnswer (R.remaining self.old.reader) [] bytes answer) }
        ensures err { OnErr result ((bytes : List ℕ) × HasTaken R.remaining self.old self.new bytes) }
    {
        match self.next_line(alloc)? {
            HostLine::Whole(line) => {
                let answer = answer_of(alloc, line.as_slice())?;
                Ok(answer)
            }
            HostLine::TooLong => Ok(HostAnswer::Nonsense),
            HostLine::Ended => Ok(HostAnswer::NoAnswer),
        }
    }
}
