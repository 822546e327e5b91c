//! Which file system was collected: the file `complete`, which the collector writes last.
//!
//! It has one line, `NAME FSID`: the name of the file system and the identity of its cluster. Where it is missing, the
//! collector didn't finish.
ghost use Rattle.std.specs.Prelude.{◌≡◌, ◌≢◌, ◌↔◌, ◌<◌, ◌≤◌, ◌++◌, ℕ, List, codes, length, slice_index, true, false};
ghost use Rattle.std.specs.Prelude.{IfErr, IfOk, IsTrue, MatchOption, string_bytes};
ghost use Rattle.ceph_dumps.specs.Complete.{AreTwoWords, IsCompleteError, IsWord, is_word_byte, line_of};

use crate::dump_error::DumpError;
use crate::listing::after;
use std::alloc::Global;

/// A file system of a cluster.
#[derive(Drop)]
pub struct FileSystem {
    /// Its name in the cluster.
    pub name: String,
    /// The identity of the cluster, as `ceph fsid` prints it.
    pub fsid: String,
}

/// Whether a word may have this byte: a letter, a digit, `_`, `.` or `-`.
pub fn is_word_byte(byte: u8) -> bool
    ensures { result ≡ is_word_byte byte }
{
    matches!(byte, b'0'..=b'9' | b'A'..=b'Z' | b'a'..=b'z' | b'_' | b'.' | b'-')
}

/// How many bytes of a word the text begins with.
fn word_length(text: &[u8]) -> usize
    ensures inside { result ≤ length text.now }
    ensures word { (i : ℕ) → i < result → is_word_byte (slice_index text.now i) ≡ true }
    ensures end { result < length text.now → is_word_byte (slice_index text.now result) ≡ false }
{
    for (at, byte) in text.iter().enumerate() {
        if !is_word_byte(*byte) {
            return at;
        }
    }
    text.len()
}

/// Whether a text is a word.
fn is_word(text: &[u8]) -> bool
    ensures { IsTrue result ↔ IsWord text.now }
{
    !text.is_empty() && word_length(text) == text.len()
}

/// Whether both are words.
fn are_words(name: &[u8], fsid: &[u8]) -> bool
    ensures { IsTrue result ↔ (IsWord name.now × IsWord fsid.now) }
{
    is_word(name) && is_word(fsid)
}

/// The two words of a line without its newline, if it is two with a blank between them.
fn words_of(line: &[u8]) -> Option<(&[u8], &[u8])>
    ensures { MatchOption result ((name fsid : List ℕ) → AreTwoWords line.now name fsid → ⊥)
        (λ words. AreTwoWords line.now words.0.now words.1.now) }
{
    let (name, rest) = line.split_at(word_length(line));
    let Some(fsid) = after(rest, b" ") else {
        return None;
    };
    if are_words(name, fsid) {
        Some((name, fsid))
    } else {
        None
    }
}

/// A word as a text.
fn text_of(alloc: Global, word: &[u8]) -> Result<String, DumpError>
    requires { IsWord word.now }
    ensures text { IfOk result (λ text. string_bytes text ≡ word.now) }
    ensures memory { IfErr result (λ error. error ≡ DumpError.Memory) }
{
    match str::from_utf8(word) {
        Ok(text) => Ok(String::from_str(alloc, text)?),
        Err(_) => Err(DumpError::Complete),
    }
}

/// The file system that a line without its newline names, if it is two words with a blank between them.
pub(crate) fn named_in(alloc: Global, line: &[u8]) -> Result<Option<FileSystem>, DumpError>
    ensures words { IfOk result (λ found. MatchOption found ((name fsid : List ℕ) → AreTwoWords line.now name fsid → ⊥)
        (λ system. AreTwoWords line.now (string_bytes system.name) (string_bytes system.fsid))) }
    ensures memory { IfErr result (λ error. error ≡ DumpError.Memory) }
{
    let Some((name, fsid)) = words_of(line) else {
        return Ok(None);
    };
    Ok(Some(FileSystem {
        name: text_of(alloc, name)?,
        fsid: text_of(alloc, fsid)?,
    }))
}

/// What comes before the newline at the end of a text, if it ends with one.
pub(crate) fn unended(text: &[u8]) -> Option<&[u8]>
    ensures { MatchOption result ((rest : List ℕ) → text.now ≢ rest ++ codes "\n")
        (λ rest. text.now ≡ rest.now ++ codes "\n") }
{
    text.strip_suffix(b"\n")
}

/// The file system that a folder is of.
pub fn read_complete(alloc: Global, bytes: &[u8]) -> Result<FileSystem, DumpError>
    ensures line { IfOk result (λ found. bytes.now ≡ line_of (string_bytes found.name) (string_bytes found.fsid)) }
    ensures words { IfOk result (λ found. IsWord (string_bytes found.name) × IsWord (string_bytes found.fsid)) }
    ensures refused { IfErr result (IsCompleteError bytes.now) }
{
    let Some(line) = unended(bytes) else {
        return Err(DumpError::Complete);
    };
    match named_in(alloc, line)? {
        Some(found) => Ok(found),
        None => Err(DumpError::Complete),
    }
}
