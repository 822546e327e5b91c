//! A writer whose bytes are known in proofs.
ghost use Rattle.std.specs.Prelude.{◌≡◌, [], Some};

use crate::past::Past;
use std::io;
use std::io::Write;
use std::marker::Model;

/// A writer, with the bytes that it took so far. They are known only in proofs, of any writer.
#[derive(Drop)]
pub struct Output<W> {
    writer: W,
    past: Past,
}

impl<W> Model for Output<W> {
    ghost use Rattle.std.specs.Prelude.{ℕ, List};
    ghost use Rattle.script_engine.specs.Past.{bytes_of};

    ghost Value = { List ℕ };

    ghost view = { λ output. bytes_of output.past };
}

impl<W: Write> Output<W> {
    /// A writer that took nothing yet.
    pub fn new(writer: W) -> Output<W>
        ensures { result ≡ [] }
    {
        Output {
            writer,
            past: Past::Start,
        }
    }
}

impl<W: Write> Write for Output<W> {
    ghost contents = { λ output. Some output };

    fn write(&mut self, buf: &[u8]) -> io::Result<usize> {
        let count = self.writer.write(buf)?;
        self.past.add(&buf[..count]);
        Ok(count)
    }

    fn flush(&mut self) -> io::Result<()> {
        self.writer.flush()
    }
}
