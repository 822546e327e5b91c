//! The one refusal of a tick.
ghost use Rattle.std.specs.Prelude.{◌≡◌};
ghost use Rattle.mds_types.specs.Refusal.{name};
ghost use Rattle.mds_types.specs.declared.refusal.Refusal.TheVariants as refusals;

use mds_types::Refusal;
use std::error::Error;
use std::fmt;

/// The counters have made 2^40 ticks. Nothing has changed.
///
/// It prints as the numbered refusal that it is.
#[derive(Clone, Copy, Debug)]
pub struct TicksFull;

impl From<TicksFull> for Refusal {
    ghost from_gives = { λ _ refusal. refusal ≡ refusals.TicksFull };

    fn from(_: TicksFull) -> Refusal {
        Refusal::TicksFull
    }
}

impl fmt::Display for TicksFull {
    ghost use Rattle.std.specs.Prelude.{Some};

    ghost output = { λ _. Some (name refusals.TicksFull) };

    fn fmt<W: fmt::Write>(&self, f: &mut fmt::Formatter<W>) -> fmt::Result {
        f.write_str(Refusal::from(*self).text())
    }
}

impl Error for TicksFull {}
