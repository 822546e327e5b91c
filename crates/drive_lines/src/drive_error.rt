//! Why a run was cut off.
ghost use Rattle.std.specs.Prelude.{◌≡◌};
ghost use Rattle.drive_lines.specs.declared.drive_error.DriveError.TheVariants.{Memory, Write};

use script_engine::WriteFailed;
use std::alloc::{AllocError, AllocFailed};
use thiserror::Error;

/// Why a run was cut off. Nothing more is read or written after it.
#[derive(Clone, Copy, Debug, PartialEq, Eq, Error)]
pub enum DriveError {
    /// The allocator refused a growth.
    #[error("out of memory")]
    Memory,
    /// A read failed.
    #[error("read failed")]
    Read,
    /// A write failed, or took no byte.
    #[error("write failed")]
    Write,
}

impl From<AllocError> for DriveError {
    ghost from_gives = { λ _ e. e ≡ Memory };

    fn from(_: AllocError) -> DriveError {
        DriveError::Memory
    }
}

impl<T: Drop> From<AllocFailed<T>> for DriveError {
    ghost from_gives = { λ _ e. e ≡ Memory };

    fn from(_: AllocFailed<T>) -> DriveError {
        DriveError::Memory
    }
}

impl From<WriteFailed> for DriveError {
    ghost from_gives = { λ _ e. e ≡ Write };

    fn from(_: WriteFailed) -> DriveError {
        DriveError::Write
    }
}
