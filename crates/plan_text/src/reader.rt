//! Reading certificates.
ghost use Rattle.std.specs.Prelude.{◌≡◌, ◌++◌, ℕ, IfErr, IfOk, List};
ghost use Rattle.plan_text.specs.Text.{text as text_of};
ghost use Rattle.plan_text.specs.Writable.{IsWritable};
ghost use Rattle.plan_text.specs.declared.certificate.Certificate.{Certificate};
ghost use Rattle.plan_text.specs.declared.read_error.ReadError.TheVariants.{Memory};

use crate::certificate::Certificate;
use crate::parser::{Fault, certificate};
use crate::read_error::{Expected, ReadError};
use crate::writer::certificate_text;
use std::alloc::Global;

/// The line, counted from 1, in which the last `left` bytes begin.
fn line_of(text: &[u8], left: usize) -> u64 {
    let before = text.len().saturating_sub(left);
    let mut line: u64 = 1;
    for byte in text.iter().take(before) {
        if *byte == b'\n' {
            line = line.saturating_add(1);
        }
    }
    line
}

/// The first line, counted from 1, in which two texts differ.
fn first_other_line(text: &[u8], other: &[u8]) -> u64 {
    let mut line: u64 = 1;
    for (byte, same) in text.iter().zip(other) {
        if byte != same {
            break;
        }
        if *byte == b'\n' {
            line = line.saturating_add(1);
        }
    }
    line
}

/// The certificate that a text begins with, and what comes after it.
pub fn read_first(alloc: Global, text: &[u8]) -> Result<(Certificate, &[u8]), ReadError>
    ensures same { IfOk result
        (λ found. text.now ≡ text_of found.0.problem found.0.names found.0.plan ++ found.1.now) }
    ensures writable { IfOk result (λ found. IsWritable found.0) }
    ensures accepts { (c : Certificate) (more : List ℕ) → IsWritable c
        → text.now ≡ text_of c.problem c.names c.plan ++ more → IfErr result (λ error. error ≡ Memory) }
{
    let first = match certificate(alloc, text) {
        Ok((first, _)) => first,
        Err(Fault::Memory) => return Err(ReadError::Memory),
        Err(Fault::Expected(left, expected)) => {
            return Err(ReadError::Line(line_of(text, left), expected));
        }
    };
    let names = first.names.as_ref();
    let written = certificate_text(alloc, &first.problem, names, &first.plan)?;
    match text.strip_prefix(written.as_bytes()) {
        Some(rest) => Ok((first, rest)),
        None => {
            let line = first_other_line(text, written.as_bytes());
            Err(ReadError::Line(line, Expected::Plain))
        }
    }
}
