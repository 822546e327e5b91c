//! Why a hit isn't counted.

use mds_types::Refusal;
use std::error::Error;
use std::fmt;

/// Why a share doesn't count a hit. The share is as it was.
///
/// It prints as the numbered refusal that it is.
#[derive(Clone, Copy, Debug, PartialEq, Eq)]
pub enum HitError {
    /// The directory's number isn't below the book's limit.
    NoDir,
    /// The share has counted 2^56 hits on the directory.
    ShareFull,
}

impl From<HitError> for Refusal {
    ghost use Rattle.std.specs.Prelude.{◌≡◌};
    ghost use Rattle.heat_ledger.specs.Refused.{refusal_of};

    ghost from_gives = { λ error refusal. refusal ≡ refusal_of error };

    fn from(error: HitError) -> Refusal {
        match error {
            HitError::NoDir => Refusal::NoDir,
            HitError::ShareFull => Refusal::ShareFull,
        }
    }
}

impl fmt::Display for HitError {
    ghost use Rattle.std.specs.Prelude.{Some};
    ghost use Rattle.mds_types.specs.Refusal.{words};
    ghost use Rattle.heat_ledger.specs.Refused.{refusal_of};

    ghost output = { λ error. Some (words (refusal_of error)) };

    fn fmt<W: fmt::Write>(&self, f: &mut fmt::Formatter<W>) -> fmt::Result {
        fmt::Display::fmt(&Refusal::from(*self), f)
    }
}

impl Error for HitError {}
