//! The names of directories.
ghost use Rattle.std.specs.Prelude.{◌≡◌, ◌↔◌, IsTrue};
ghost use Rattle.std.specs.List.{list_all};
ghost use Rattle.dirtree.specs.Name.{has_name_length, is_dots, is_name, is_name_byte};

use arrayvec::ArrayString;
use std::alloc::{AllocError, Global};
use std::marker::Model;

fn is_name_byte(byte: u8) -> bool
    ensures { result ≡ is_name_byte byte }
{
    byte > 0x20 && byte < 0x7f && byte != b'/'
}

fn has_name_length(text: &str) -> bool
    ensures { result ≡ has_name_length text.now }
{
    0 < text.len() && text.len() <= 255
}

fn has_name_bytes(text: &str) -> bool
    ensures { result ≡ list_all is_name_byte text.now }
{
    text.as_bytes().iter().all(|byte| is_name_byte(*byte))
}

fn is_dots(text: &str) -> bool
    ensures { result ≡ is_dots text.now }
{
    match text.as_bytes() {
        b"." | b".." => true,
        _ => false,
    }
}

/// Whether the text may name a directory: 1 to 255 bytes of 0x21 to 0x7E without `/`, and neither
/// `.` nor `..`.
pub fn is_name(text: &str) -> bool
    ensures { result ≡ is_name text.now }
{
    has_name_length(text) && has_name_bytes(text) && !is_dots(text)
}

// Most names have 16 bytes at most, and are in the value itself: to compare one reads no other memory.
#[derive(Drop)]
enum Kept {
    Short(ArrayString<16>),
    Long(String),
}

/// A name, on memory of its own. To a contract it is its bytes.
#[derive(Drop)]
pub struct Name {
    kept: Kept,
}

impl Model for Name {
    ghost use Rattle.std.specs.Prelude.{List, ℕ};
    ghost use Rattle.dirtree.specs.Name.{name_bytes};

    ghost Value = { List ℕ };

    ghost view = { λ name. name_bytes name.kept };
}

impl Name {
    ghost use Rattle.std.specs.Prelude.{◌≡◌, ◌↔◌, ◌≤◌, [], IfOk, IsOk, IsTrue, length};

    /// The name of the root, which has no byte.
    pub fn empty() -> Name
        ensures { result ≡ [] }
    {
        Name {
            kept: Kept::Short(ArrayString::new()),
        }
    }

    /// The same name, on memory of its own. None is asked for where it has 16 bytes at most.
    pub fn new(alloc: Global, text: &str) -> Result<Name, AllocError>
        ensures same { IfOk result (λ name. name ≡ text.now) }
        ensures short { length text.now ≤ 16 → IsOk result }
    {
        match ArrayString::from(text) {
            Ok(short) => Ok(Name {
                kept: Kept::Short(short),
            }),
            Err(_) => Ok(Name {
                kept: Kept::Long(String::from_str(alloc, text)?),
            }),
        }
    }

    /// Its text.
    pub fn as_str(&self) -> &str
        ensures { result.now ≡ self.now }
    {
        match &self.kept {
            Kept::Short(short) => short.as_str(),
            Kept::Long(long) => long.as_str(),
        }
    }

    /// Whether it has these bytes.
    pub fn is(&self, bytes: &[u8]) -> bool
        ensures { IsTrue result ↔ (self.now ≡ bytes.now) }
    {
        are_same(self.as_str().as_bytes(), bytes)
    }
}

// Whether two texts are the same. Most names are short, so byte after byte is looked at.
fn are_same(first: &[u8], second: &[u8]) -> bool
    ensures { IsTrue result ↔ (first.now ≡ second.now) }
{
    if first.len() != second.len() {
        return false;
    }
    for i in 0..first.len() {
        if first[i] != second[i] {
            return false;
        }
    }
    true
}
