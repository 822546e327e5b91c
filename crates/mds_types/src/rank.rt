//! The number of a metadata rank.

use crate::limits::RANK_LIMIT;
use std::marker::Model;

/// A rank of the cluster, 0 to 63. To a contract it is its number.
#[derive(Clone, Copy, Debug, Default, PartialEq, Eq, PartialOrd, Ord, Hash)]
pub struct Rank {
    number: u8,
}

impl Model for Rank {
    ghost use Rattle.std.specs.Prelude.{ℕ, ◌<◌};

    ghost Value = { ℕ };

    ghost view = { λ rank. rank.number };

    ghost invariant = { λ rank. rank.number < 64 };

    ghost inverse = { λ n. record { number = n } };
}

impl Rank {
    ghost use Rattle.std.specs.Prelude.{◌≡◌, ◌<◌, ◌↔◌, IsSome, IfSome};

    /// The rank of this number, where it is one.
    pub fn new(number: u8) -> Option<Rank>
        ensures small { IsSome result ↔ (number < 64) }
        ensures value { IfSome result (λ rank. rank ≡ number) }
    {
        if number < RANK_LIMIT {
            Some(Rank { number })
        } else {
            None
        }
    }

    /// Its number, 0 to 63.
    pub fn number(self) -> u8
        ensures value { result ≡ self }
        ensures small { result < 64 }
    {
        self.number
    }
}
