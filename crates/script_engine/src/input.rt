//! A reader whose bytes are known in proofs, and whose reads are counted.
ghost use Rattle.std.specs.Prelude.{◌≡◌, ◌+◌, ◌^◌, ◌<◌, ◌≤◌, ◌++◌, [], IfOk, OnErr, take, false, true};
ghost use Rattle.std.specs.Io.{ReadsAtMost};
ghost use Rattle.std.specs.Io.KnownBytes.{ReadConsumes};
ghost use Rattle.script_engine.specs.Devices.{Reading};

use crate::past::Past;
use std::io::Read;
use std::marker::Model;
use thiserror::Error;

/// How many reads are made of a script at most.
pub const READ_LIMIT: u64 = 1 << 40;

/// A read failed.
#[derive(Clone, Copy, Debug, PartialEq, Eq, Error)]
#[error("read failed")]
pub struct ReadFailed;

/// A reader, with the bytes that it gave so far. They are known only in proofs, of any reader; at run time a count of
/// reads is kept, of which there are 2^40 at most.
#[derive(Drop)]
pub struct Input<R> {
    reader: R,
    past: Past,
    reads: u64,
    ended: bool,
    failed: bool,
}

impl<R> Model for Input<R> {
    ghost use Rattle.std.specs.Prelude.{◌≤◌, ◌^◌};
    ghost use Rattle.script_engine.specs.Devices.{Reading};
    ghost use Rattle.script_engine.specs.Past.{bytes_of};

    ghost Value = { Reading R };

    ghost view = { λ input. record {
      reader = input.reader;
      given = bytes_of input.past;
      reads = input.reads;
      ended = input.ended;
      failed = input.failed;
    } };

    ghost invariant = { λ input. input.reads ≤ 2 ^ 40 };
}

impl<R: Read> Input<R> {
    /// A reader of which nothing was read yet.
    pub fn new(reader: R) -> Input<R>
        ensures { result ≡ record { reader = reader; given = []; reads = 0; ended = false; failed = false } }
    {
        Input {
            reader,
            past: Past::Start,
            reads: 0,
            ended: false,
            failed: false,
        }
    }

    /// Reads once. The count is that of the bytes at the buffer's front that came, 0 only at the end of the input.
    pub fn read(&mut self, buffer: &mut [u8; 16384]) -> Result<usize, ReadFailed>
        requires { self.old.reads < 2 ^ 40 }
        ensures bound { ReadsAtMost result buffer.new }
        ensures bytes { ReadConsumes (R.remaining self.old.reader) (R.remaining self.new.reader) result buffer.new }
        ensures given { IfOk result (λ count. self.new.given ≡ self.old.given ++ take count buffer.new) }
        ensures ended { IfOk result (λ count. count ≡ 0 → self.new.ended ≡ true) }
        ensures failed { OnErr result ((self.new.given ≡ self.old.given) × (self.new.failed ≡ true)) }
        ensures reads { self.new.reads ≡ self.old.reads + 1 }
    {
        self.reads += 1;
        match self.reader.read(buffer) {
            Ok(count) => {
                self.past.add(&buffer[..count]);
                self.ended = count == 0;
                Ok(count)
            }
            Err(_) => {
                self.failed = true;
                Err(ReadFailed)
            }
        }
    }

    /// The reader.
    pub fn into_inner(self) -> R
        ensures { result ≡ self.reader }
    {
        let Input {
            reader,
            past: _past,
            reads: _reads,
            ended: _ended,
            failed: _failed,
        } = self;
        reader
    }
}
