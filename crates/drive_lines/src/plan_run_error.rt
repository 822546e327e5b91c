//! Why a plan was not driven to an end.
ghost use Rattle.std.specs.Prelude.{◌≡◌};
ghost use Rattle.drive_lines.specs.declared.drive_error.DriveError.TheVariants.{Memory};
ghost use Rattle.drive_lines.specs.declared.plan_run_error.PlanRunError.TheVariants.{Cut};

use crate::drive_error::DriveError;
use pin_driver::TextError;
use std::alloc::AllocError;
use thiserror::Error;

/// Why a plan was not driven to an end.
#[derive(Clone, Copy, Debug, PartialEq, Eq, Error)]
pub enum PlanRunError {
    /// The text is no stored text of a plan. Nothing was asked.
    #[error("{0}")]
    Text(TextError),
    /// There is no line with only a dot after the text, or a line of it is too long. Nothing was asked.
    #[error("no line with only a dot after the stored text")]
    Unended,
    /// A device failed, or memory was refused.
    #[error("{0}")]
    Cut(DriveError),
}

impl From<DriveError> for PlanRunError {
    ghost from_gives = { λ error e. e ≡ Cut error };

    fn from(error: DriveError) -> PlanRunError {
        PlanRunError::Cut(error)
    }
}

impl From<AllocError> for PlanRunError {
    ghost from_gives = { λ _ e. e ≡ Cut Memory };

    fn from(_: AllocError) -> PlanRunError {
        PlanRunError::Cut(DriveError::Memory)
    }
}
