//! Why a board has no problem.

use mds_types::Refusal;
use std::alloc::AllocError;
use std::error::Error;
use std::fmt;

/// Why a board has no problem now.
#[derive(Clone, Copy, Debug, PartialEq, Eq)]
pub enum OpenError {
    /// The allocator refused a growth.
    Memory,
    /// No rank may have a part: none that is active is in the mask.
    BalancerOff,
}

impl From<OpenError> for Refusal {
    ghost use Rattle.std.specs.Prelude.{◌≡◌};
    ghost use Rattle.tree_parts.specs.OpenError.{refusal_of};

    ghost from_gives = { λ error refusal. refusal ≡ refusal_of error };

    fn from(error: OpenError) -> Refusal {
        match error {
            OpenError::Memory => Refusal::Memory,
            OpenError::BalancerOff => Refusal::BalancerOff,
        }
    }
}

impl fmt::Display for OpenError {
    ghost use Rattle.std.specs.Prelude.{Some};
    ghost use Rattle.mds_types.specs.Refusal.{words};
    ghost use Rattle.tree_parts.specs.OpenError.{refusal_of};

    ghost output = { λ error. Some (words (refusal_of error)) };

    fn fmt<W: fmt::Write>(&self, f: &mut fmt::Formatter<W>) -> fmt::Result {
        fmt::Display::fmt(&Refusal::from(*self), f)
    }
}

impl Error for OpenError {}

impl From<AllocError> for OpenError {
    ghost use Rattle.std.specs.Prelude.{◌≡◌};
    ghost use Rattle.tree_parts.specs.declared.open_error.OpenError.TheVariants.{Memory};

    ghost from_gives = { λ _ e. e ≡ Memory };

    fn from(_: AllocError) -> OpenError {
        OpenError::Memory
    }
}
