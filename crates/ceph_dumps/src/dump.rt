//! Reads the JSON of a dump.
ghost use Rattle.std.specs.Prelude.{◌≡◌, ◌≢◌, true, None, Some, option_and_then, IfErr, IfOk};
ghost use Rattle.std.specs.Str.{IsUtf8};
ghost use Rattle.json.specs.Json.{document};
ghost use Rattle.ceph_dumps.specs.DumpText.{dump_text, said_in};
ghost use Rattle.ceph_dumps.specs.Told.{IsToldOf};
ghost use Rattle.ceph_dumps.specs.WideBytes.{wide};
ghost use Rattle.ceph_dumps.specs.declared.dump_error.DumpError.TheVariants.{Memory as NoMemory};
ghost use Rattle.ceph_dumps.specs.declared.unread.Unread.TheVariants.{Memory};

use crate::bare_words::may_have_words;
use crate::dump_error::DumpError;
use crate::key_path::{column_at, key_path, line_at};
use crate::unread::Unread;
use crate::wide_bytes::greatest;
use crate::{widened, write_over_bare_words};
use json::{Reader, Scratch};
use simdutf8::compat::from_utf8;
use std::alloc::{AllocError, Global};

/// What a whole dump says.
pub(crate) trait Dump: Drop {
    ghost use Rattle.std.specs.Prelude.{◌≡◌, ◌≢◌, Option, Some, None, IfErr, IfOk};
    ghost use Rattle.json.specs.Json.{Json, max_depth, value};
    ghost use Rattle.ceph_dumps.specs.Reading.{said_of};
    ghost use Rattle.ceph_dumps.specs.declared.unread.Unread.TheVariants.{Memory};

    // What a dump says, and what a value says as one, if it does.
    ghost Said: { Type 0 };

    ghost shown: { Self → Said };

    ghost said: { Json → Option Said };

    /// Reads the value that the dump is.
    fn read(alloc: Global, reader: &mut Reader<'_>) -> Result<Self, Unread>
        ensures is { IfOk result (λ found. said_of said (value max_depth reader.old) ≡ Some (shown found, reader.new)) }
        ensures none { IfErr result (λ error. error ≢ Memory → said_of said (value max_depth reader.old) ≡ None) };
}

/// What the whole of a text says.
fn read_whole<T: Dump>(alloc: Global, text: &str) -> Result<T, Unread>
    ensures is { IfOk result (λ found. option_and_then T.said (document text.now) ≡ Some (T.shown found)) }
    ensures none { IfErr result (λ error. error ≢ Memory → option_and_then T.said (document text.now) ≡ None) }
{
    let mut scratch = Scratch::new(alloc);
    let mut reader = Reader::new(text, &mut scratch)?;
    let found = T::read(alloc, &mut reader)?;
    match reader.next() {
        None => Ok(found),
        Some(_) => Err(Unread::no_json(&reader)),
    }
}

/// What the bytes of a text say.
fn read_text<T: Dump>(alloc: Global, text: &[u8]) -> Result<T, Unread>
    ensures is { IfOk result (λ found. option_and_then T.said (document text.now) ≡ Some (T.shown found)) }
    ensures none { IfErr result (λ error. error ≢ Memory → IsUtf8 text.now
        → option_and_then T.said (document text.now) ≡ None) }
{
    match from_utf8(text) {
        Ok(text) => read_whole(alloc, text),
        Err(error) => Err(Unread::misfit(error.valid_up_to(), "this is no UTF-8")),
    }
}

/// The error with this reason at a byte of a text.
fn told(
    alloc: Global,
    text: &[u8],
    at: usize,
    reason: &'static str,
) -> Result<DumpError, AllocError>
    ensures { IfOk result (IsToldOf text.now) }
{
    let at = at.min(text.len());
    Ok(DumpError::Json {
        line: line_at(text, at),
        column: column_at(text, at),
        path: key_path(alloc, text, at)?,
        reason,
    })
}

/// The error of the reader of a dump's text, with the place in the dump: no byte is moved where words are written over.
fn placed(alloc: Global, bytes: &[u8], error: Unread) -> Result<DumpError, AllocError>
    ensures told { IfOk result (IsToldOf (wide bytes.now)) }
    ensures memory { IfOk result (λ made. error ≡ Memory → made ≡ NoMemory) }
{
    match error {
        Unread::Memory => Ok(DumpError::Memory),
        Unread::Misfit { at, reason } => {
            let text = widened(alloc, bytes)?;
            told(alloc, &text, at, reason)
        }
    }
}

/// Whether the bytes are JSON as they are: below 0x80, and without a bare word.
fn is_plain(bytes: &[u8]) -> bool
    ensures { result ≡ true → dump_text bytes.now ≡ bytes.now }
{
    greatest(bytes) < 128 && !may_have_words(bytes)
}

/// The text of a dump, in UTF-8 and without bare words.
fn text_of(alloc: Global, bytes: &[u8]) -> Result<Vec<u8>, AllocError>
    ensures { IfOk result (λ text. text.items ≡ dump_text bytes.now) }
{
    let mut text = widened(alloc, bytes)?;
    write_over_bare_words(text.as_mut_slice());
    Ok(text)
}

/// What a dump's text says. A copy is made only where bytes have to change.
fn read_bytes<T: Dump>(alloc: Global, bytes: &[u8]) -> Result<T, Unread>
    ensures is { IfOk result (λ found. said_in T.said bytes.now ≡ Some (T.shown found)) }
    ensures none { IfErr result (λ error. error ≢ Memory → said_in T.said bytes.now ≡ None) }
{
    if is_plain(bytes) {
        return read_text(alloc, bytes);
    }
    let text = text_of(alloc, bytes)?;
    read_text(alloc, text.as_slice())
}

/// What a dump says. Errors give the place in the dump's own bytes.
pub(crate) fn read_dump<T: Dump>(alloc: Global, bytes: &[u8]) -> Result<T, DumpError>
    ensures is { IfOk result (λ found. said_in T.said bytes.now ≡ Some (T.shown found)) }
    ensures none { IfErr result (λ error. error ≢ NoMemory → said_in T.said bytes.now ≡ None) }
    ensures told { IfErr result (IsToldOf (wide bytes.now)) }
{
    match read_bytes(alloc, bytes) {
        Ok(found) => Ok(found),
        Err(error) => Err(placed(alloc, bytes, error)?),
    }
}
