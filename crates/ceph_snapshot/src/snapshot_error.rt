//! Why what was gathered makes no snapshot.
ghost use Rattle.std.specs.Prelude.{◌≡◌, ◌++◌, IfOk, OnOk, string_bytes};
ghost use Rattle.ceph_snapshot.specs.Shown.{shown_byte, shown_path};

use std::alloc::{AllocError, AllocFailed, Global};
use thiserror::Error;

/// Why what was gathered makes no snapshot.
#[derive(Debug, Drop, Error)]
pub enum SnapshotError {
    /// The allocator refused a growth.
    #[error("no memory")]
    Memory,
    /// More directories have to stay than are to be left, there are more than 32 bits can number, or what comes
    /// together at one, heat or inodes, is more than 64 bits can count.
    #[error("too many directories")]
    TooMany,
    /// Numbers were listed, and more than half of the directories for which dumps of heat name one are doubtful.
    #[error("most directories of the dumps are not in the listing: it is of another file system or of another time")]
    Elsewhere,
    /// Two ranks claim authority over the same fragment of a directory.
    #[error("ranks {first} and {second} both claim {path}: collect again")]
    TwoClaims {
        /// The directory.
        path: String,
        /// The rank that was read first.
        first: u32,
        /// The other one.
        second: u8,
    },
    /// A rank names the authority of a directory, and that rank doesn't claim it.
    #[error("rank {by} says that rank {authority} has {path}, which rank {authority} does not claim: collect again")]
    Unclaimed {
        /// The directory.
        path: String,
        /// The rank that says so.
        by: u8,
        /// The rank that is said to have it.
        authority: u64,
    },
}

impl From<AllocError> for SnapshotError {
    ghost use Rattle.ceph_snapshot.specs.declared.snapshot_error.SnapshotError.TheVariants as cause;

    ghost from_gives = { λ _ error. error ≡ cause.Memory };

    fn from(_: AllocError) -> SnapshotError {
        SnapshotError::Memory
    }
}

impl<T: Drop> From<AllocFailed<T>> for SnapshotError {
    ghost use Rattle.ceph_snapshot.specs.declared.snapshot_error.SnapshotError.TheVariants as cause;

    ghost from_gives = { λ _ error. error ≡ cause.Memory };

    fn from(_: AllocFailed<T>) -> SnapshotError {
        SnapshotError::Memory
    }
}

/// Adds a byte of a path.
#[tactic(auto, unfolding(crate::specs::Shown::shown_byte))]
fn push_shown(text: &mut String, byte: u8) -> Result<(), AllocError>
    ensures { OnOk result (string_bytes text.new ≡ string_bytes text.old ++ shown_byte byte) }
{
    match byte {
        b' '..=b'[' | b']'..=b'~' => text.push(char::from(byte)),
        other => {
            text.push('\\')?;
            text.push(char::from(b'0' + other / 64))?;
            text.push(char::from(b'0' + other / 8 % 8))?;
            text.push(char::from(b'0' + other % 8))
        }
    }
}

/// A path as a text: a slash for the root, and bytes that ASCII doesn't print as three octal digits.
#[tactic(auto, unfolding(crate::specs::Shown::shown_path))]
pub(crate) fn told_path(alloc: Global, path: &[u8]) -> Result<String, AllocError>
    ensures { IfOk result (λ text. string_bytes text ≡ shown_path path.now) }
{
    let mut text = String::new(alloc);
    if path.is_empty() {
        text.push('/')?;
    }
    for byte in path {
        push_shown(&mut text, *byte)?;
    }
    Ok(text)
}
