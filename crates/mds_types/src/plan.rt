//! What the balancer proposes, with the proofs that nothing is better.

use crate::cut_proof::CutProof;
use crate::dual_proof::DualProof;
use crate::rank::Rank;
use arrayvec::ArrayVec;
use std::alloc::{AllocError, Global};
use std::marker::Model;

/// Which part each row is in, which rank each part goes to, and why no plan is better.
///
/// To a contract it is its lists, numbers and proofs.
#[derive(Debug, Drop)]
pub struct Plan {
    /// `part[i]` is the part of the problem's row i.
    pub part: Vec<u32>,
    /// `rank[p]` is the rank of part p.
    pub rank: ArrayVec<Rank, 64>,
    /// The heat of the hottest part, in accesses.
    pub greatest: u64,
    /// The inodes of the rows that go to another rank than they are at now.
    pub moved: u64,
    /// Why no division into as many parts as there are ranks has a smaller greatest heat.
    pub cut: CutProof,
    /// Why no placing of these parts moves fewer inodes.
    pub dual: DualProof,
}

impl Model for Plan {
    ghost use Rattle.mds_types.specs.Plan.{PlanData};

    ghost Value = { PlanData };

    ghost view = { λ plan. record {
      part = plan.part.items;
      rank = plan.rank.items;
      greatest = plan.greatest;
      moved = plan.moved;
      cut = plan.cut;
      dual = plan.dual;
    } };
}

impl Plan {
    ghost use Rattle.std.specs.Prelude.{◌≡◌, IfOk};

    /// An equal plan.
    pub fn copied(&self, alloc: Global) -> Result<Self, AllocError>
        ensures { IfOk result (λ copy. copy ≡ self.now) }
    {
        let mut rank = ArrayVec::new();
        rank.try_extend_from_slice(self.rank.as_slice()).unwrap();
        Ok(Plan {
            part: self.part.as_slice().to_vec(alloc)?,
            rank,
            greatest: self.greatest,
            moved: self.moved,
            cut: self.cut.copied(alloc)?,
            dual: self.dual.copied(alloc)?,
        })
    }
}
