//! Reading the certificates of a file, one after another.
ghost use Rattle.std.specs.Prelude.{◌≡◌, ◌<◌, ◌≢◌, ◌++◌, [], false};
ghost use Rattle.std.specs.Prelude.{IfErr, IfOk, IfSome, None, OnErr, OnOk};
ghost use Rattle.std.specs.Io.{ReadsAtMost};
ghost use Rattle.std.specs.Io.KnownBytes.{Consumes, IsAtEnd, Keeps, ReadConsumes, prepend_known};
ghost use Rattle.certificate_judge.specs.Unjudged.{IsFault, IsFaultOfNext, left, unread};
ghost use Rattle.certificate_judge.specs.declared.judge_error.JudgeError.TheVariants.{Text};
ghost use Rattle.plan_text.specs.Text.{text as text_of};
ghost use Rattle.plan_text.specs.Writable.{IsWritable};

use crate::judge_error::JudgeError;
use crate::unjudged::Unjudged;
use plan_text::{Certificate, ReadError, read_first};
use std::alloc::Global;
use std::io;
use std::io::{ErrorKind, Read};

/// The fewest bytes that are read before certificates are looked for, unless there are no more.
const LEAST: usize = 65536;

/// How many lines end in these bytes.
fn lines_in(bytes: &[u8]) -> u64 {
    let mut lines: u64 = 0;
    for byte in bytes {
        if *byte == b'\n' {
            lines = lines.saturating_add(1);
        }
    }
    lines
}

/// Reads once, and again where that was interrupted.
#[tactic(auto, using(crate::proofs::ReadingLemmas::read_again, crate::proofs::ReadingLemmas::same, crate::proofs::ReadingLemmas::still))]
fn read_once<R: Read>(reader: &mut R, buffer: &mut [u8]) -> io::Result<usize>
    ensures bound { ReadsAtMost result buffer.new }
    ensures bytes { ReadConsumes (R.remaining reader.old) (R.remaining reader.new) result buffer.new }
{
    for _ in 0..u64::MAX {
        match reader.read(buffer) {
            Ok(count) => return Ok(count),
            Err(error) => {
                if error.kind() != ErrorKind::Interrupted {
                    return Err(error);
                }
            }
        }
    }
    Err(io::Error::from(ErrorKind::Interrupted))
}

/// Reads this many bytes or a few more, or all that are left. Reports whether there were any.
#[tactic(auto, using(crate::proofs::ReadingLemmas::grown, crate::proofs::ReadingLemmas::same))]
fn read_more<R: Read>(reader: &mut R, bytes: &mut Vec<u8>, wanted: usize) -> io::Result<bool>
    requires { 0 < wanted }
    ensures kept { OnOk result (Keeps (prepend_known bytes.old.items (R.remaining reader.old))
        (prepend_known bytes.new.items (R.remaining reader.new))) }
    ensures end { IfOk result (λ more. more ≡ false
        → (bytes.new.items ≡ bytes.old.items) × IsAtEnd (R.remaining reader.new)) }
{
    let mut buffer = [0u8; 16384];
    let mut missing = wanted;
    for turn in 0..wanted {
        if missing == 0 {
            break;
        }
        let count = read_once(reader, &mut buffer)?;
        if count == 0 {
            return Ok(turn > 0);
        }
        bytes.extend_from_slice(&buffer[..count])?;
        missing = missing.saturating_sub(count);
    }
    Ok(true)
}

impl Unjudged {
    /// Nothing was read yet.
    pub(crate) fn new(alloc: Global) -> Unjudged
        ensures { unread result ≡ [] }
    {
        Unjudged {
            bytes: Vec::new(alloc),
            judged: 0,
            lines: 0,
        }
    }

    /// The certificate that the bytes begin with, which is judged from here on.
    fn first(&mut self, alloc: Global) -> Result<Certificate, ReadError>
        ensures found { IfOk result (λ c. unread self.old ≡ text_of c.problem c.names c.plan ++ unread self.new) }
        ensures writable { IfOk result IsWritable }
        ensures unchanged { OnErr result (self.new ≡ self.old) }
        ensures refused { IfErr result (IsFaultOfNext (unread self.old)) }
    {
        let bytes = &self.bytes[self.judged..];
        match read_first(alloc, bytes) {
            Ok((certificate, rest)) => {
                let count = bytes.len() - rest.len();
                self.lines = self.lines.saturating_add(lines_in(&bytes[..count]));
                self.judged += count;
                Ok(certificate)
            }
            Err(ReadError::Line(line, expected)) => {
                let line = line.saturating_add(self.lines);
                Err(ReadError::Line(line, expected))
            }
            Err(ReadError::Memory) => Err(ReadError::Memory),
        }
    }

    /// Reads at least as many bytes as there are, or all that are left. Reports whether there were any.
    fn grow<R: Read>(&mut self, reader: &mut R) -> io::Result<bool>
        ensures kept { OnOk result (Keeps (left self.old (R.remaining reader.old))
            (left self.new (R.remaining reader.new))) }
        ensures end { IfOk result (λ more. more ≡ false
            → (unread self.new ≡ unread self.old) × IsAtEnd (R.remaining reader.new)) }
    {
        let mut bytes = self.bytes.split_off(self.judged)?;
        let wanted = bytes.len().max(LEAST);
        let more = read_more(reader, &mut bytes, wanted)?;
        self.bytes = bytes;
        self.judged = 0;
        Ok(more)
    }

    /// What is next at the end of a file where no certificate is: nothing, or this fault.
    fn ended(&self, fault: ReadError) -> Result<Option<Certificate>, JudgeError>
        ensures found { IfOk result (λ found. (found ≡ None) × (unread self.now ≡ [])) }
        ensures fault { IfErr result (λ error. (error ≡ Text fault) × (unread self.now ≢ [])) }
    {
        if self.judged == self.bytes.len() {
            Ok(None)
        } else {
            Err(JudgeError::Text(fault))
        }
    }

    /// The next certificate of the file, which is judged from here on, or none at the file's end.
    ///
    /// A certificate is looked for in what was read. If there is none, as much again is read: so the time for this
    /// grows with the file's size. Since no text of a certificate begins another, it is the one that comes next,
    /// whatever is read later.
    #[tactic(auto, using(crate::proofs::ReadingLemmas::taken, crate::proofs::ReadingLemmas::still, crate::proofs::ReadingLemmas::same, crate::proofs::ReadingLemmas::none_left, crate::proofs::ReadingLemmas::fault_is))]
    pub(crate) fn next<R: Read>(
        &mut self,
        alloc: Global,
        reader: &mut R,
    ) -> Result<Option<Certificate>, JudgeError>
        ensures found { IfOk result (λ found. IfSome found (λ c. Consumes (left self.old (R.remaining reader.old))
            (left self.new (R.remaining reader.new)) (text_of c.problem c.names c.plan))) }
        ensures writable { IfOk result (λ found. IfSome found IsWritable) }
        ensures end { IfOk result (λ found. found ≡ None → IsAtEnd (left self.old (R.remaining reader.old))) }
        ensures refused { IfErr result (IsFault (left self.old (R.remaining reader.old))) }
    {
        for _ in 0..u64::MAX {
            match self.first(alloc) {
                Ok(certificate) => return Ok(Some(certificate)),
                Err(ReadError::Memory) => break,
                Err(fault) => {
                    if !self.grow(reader)? {
                        return self.ended(fault);
                    }
                }
            }
        }
        Err(JudgeError::Text(ReadError::Memory))
    }
}
