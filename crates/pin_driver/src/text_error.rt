//! Why a text is none that was stored.
ghost use Rattle.std.specs.Prelude.{◌≡◌};
ghost use Rattle.pin_driver.specs.declared.text_error.TextError.TheVariants.{Memory};

use std::alloc::{AllocError, AllocFailed};
use thiserror::Error;

/// Why a text is none that was stored.
#[derive(Clone, Copy, Debug, PartialEq, Eq, Error)]
pub enum TextError {
    /// The allocator refused a growth.
    #[error("out of memory")]
    Memory,
    /// The text has this version, which this program does not know.
    #[error("the text has version {0}, and this program knows version 1")]
    Version(u64),
    /// The text is not the one that is written of any plan.
    #[error("not the stored text of a plan")]
    Form,
}

impl From<AllocError> for TextError {
    ghost from_gives = { λ _ e. e ≡ Memory };

    fn from(_: AllocError) -> TextError {
        TextError::Memory
    }
}

impl<T: Drop> From<AllocFailed<T>> for TextError {
    ghost from_gives = { λ _ e. e ≡ Memory };

    fn from(_: AllocFailed<T>) -> TextError {
        TextError::Memory
    }
}
