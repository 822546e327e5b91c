//! The certificate of a cheapest placing: why no placing of the same parts moves fewer inodes.

use std::alloc::{AllocError, Global};
use std::marker::Model;

/// A price for each part and each rank, in inodes. No part's price and rank's price together are
/// more than the part moves at the rank, and they are just that at the rank that the part goes to.
/// What makes prices a proof is `IsDualProof` of `specs/Certificate`.
///
/// To a contract it is the two lists.
#[derive(Debug, Drop)]
pub struct DualProof {
    /// The price of each part.
    pub part_price: Vec<i64>,
    /// The price of each rank of the set, in rising order of the ranks. None is above 0.
    pub rank_price: Vec<i64>,
}

impl Model for DualProof {
    ghost use Rattle.mds_types.specs.DualProof.{DualData};

    ghost Value = { DualData };

    ghost view = { λ dual. record { part_price = dual.part_price.items; rank_price = dual.rank_price.items } };
}

impl DualProof {
    ghost use Rattle.std.specs.Prelude.{◌≡◌, IfOk};

    /// An equal proof.
    pub fn copied(&self, alloc: Global) -> Result<Self, AllocError>
        ensures { IfOk result (λ copy. copy ≡ self.now) }
    {
        Ok(DualProof {
            part_price: self.part_price.as_slice().to_vec(alloc)?,
            rank_price: self.rank_price.as_slice().to_vec(alloc)?,
        })
    }
}
