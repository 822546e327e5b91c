//! Why a book isn't closed.

use mds_types::Refusal;
use std::error::Error;
use std::fmt;

/// The weight of the shares that weren't handed over. Book and shares are as they were.
///
/// It prints as the numbered refusal that it is.
#[derive(Clone, Copy, Debug)]
pub struct Missing(pub u8);

impl From<Missing> for Refusal {
    ghost use Rattle.std.specs.Prelude.{◌≡◌};
    ghost use Rattle.heat_ledger.specs.Refused.{refusal_of_missing};

    ghost from_gives = { λ missing refusal. refusal ≡ refusal_of_missing missing };

    fn from(missing: Missing) -> Refusal {
        Refusal::Missing(missing.0)
    }
}

impl fmt::Display for Missing {
    ghost use Rattle.std.specs.Prelude.{Some};
    ghost use Rattle.mds_types.specs.Refusal.{words};
    ghost use Rattle.heat_ledger.specs.Refused.{refusal_of_missing};

    ghost output = { λ missing. Some (words (refusal_of_missing missing)) };

    fn fmt<W: fmt::Write>(&self, f: &mut fmt::Formatter<W>) -> fmt::Result {
        fmt::Display::fmt(&Refusal::from(*self), f)
    }
}

impl Error for Missing {}
