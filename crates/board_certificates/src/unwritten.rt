//! Why certificates aren't written.
ghost use Rattle.std.specs.Prelude.{◌≡◌};
ghost use Rattle.board_certificates.specs.declared.unwritten.Unwritten.TheVariants as cause;

use script_engine::WriteFailed;
use std::alloc::AllocError;
use thiserror::Error;

/// Why the certificates of a history aren't all written.
#[derive(Clone, Copy, Debug, PartialEq, Eq, Error)]
pub enum Unwritten {
    /// There was no memory for the text of one.
    #[error("0 Memory")]
    Memory,
    /// A write failed, or took no byte.
    #[error("write failed")]
    Write,
}

impl From<AllocError> for Unwritten {
    ghost from_gives = { λ _ e. e ≡ cause.Memory };

    fn from(_: AllocError) -> Unwritten {
        Unwritten::Memory
    }
}

impl From<WriteFailed> for Unwritten {
    ghost from_gives = { λ _ e. e ≡ cause.Write };

    fn from(_: WriteFailed) -> Unwritten {
        Unwritten::Write
    }
}
