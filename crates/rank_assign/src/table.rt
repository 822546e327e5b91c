//! A table of what parts move at the ranks of a set.
ghost use Rattle.std.specs.Prelude.{◌≤◌, ◌^◌, ◌↔◌, All, IsTrue};

use mds_types::RankSet;
use std::marker::Model;

/// What each of some parts moves at each rank of a set, in inodes. There are no more parts than ranks.
/// To a contract it is the number of parts, the bit map of the ranks, and the cells.
#[derive(Drop)]
pub struct Costs {
    count: u32,
    ranks: RankSet,
    cells: Vec<u64>,
}

impl Model for Costs {
    ghost use Rattle.rank_assign.specs.Assigned.{CostData, IsCostData};

    ghost Value = { CostData };

    ghost view = { λ costs. record { count = costs.count; ranks = costs.ranks; cells = costs.cells.items } };

    ghost invariant = { λ costs. IsCostData (record {
      count = costs.count;
      ranks = costs.ranks;
      cells = costs.cells.items;
    }) };
}

/// Whether no cell is above 2^48.
fn are_small(cells: &[u64]) -> bool
    ensures { IsTrue result ↔ All (λ cell. cell ≤ 2 ^ 48) cells.now }
{
    cells.iter().all(|&cell| cell <= 1 << 48)
}

impl Costs {
    ghost use Rattle.std.specs.Prelude.{◌≡◌, ◌↔◌, length, IsSome, IfSome};
    ghost use Rattle.rank_assign.specs.Assigned.{IsCostData};

    /// The costs of `count` parts at these ranks, where there are no more parts than ranks, there is a
    /// cell for each part and rank, part by part with the ranks rising, and no cell is above 2^48.
    pub fn new(count: u32, ranks: RankSet, cells: Vec<u64>) -> Option<Costs>
        ensures some { IsSome result ↔ IsCostData (record { count = count; ranks = ranks; cells = cells.items }) }
        ensures value { IfSome result (λ costs. costs ≡ record { count = count; ranks = ranks; cells = cells.items }) }
    {
        let width = usize::from(ranks.len());
        let fits = count as usize <= width && cells.len() == count as usize * width;
        if fits && are_small(&cells) {
            Some(Costs {
                count,
                ranks,
                cells,
            })
        } else {
            None
        }
    }

    /// The costs that are in these cells.
    pub(crate) fn from_cells(count: u32, ranks: RankSet, cells: Vec<u64>) -> Costs
        requires { IsCostData (record { count = count; ranks = ranks; cells = cells.items }) }
        ensures { result ≡ record { count = count; ranks = ranks; cells = cells.items } }
    {
        Costs {
            count,
            ranks,
            cells,
        }
    }

    /// How many parts there are.
    pub fn count(&self) -> u32
        ensures { result ≡ self.now.count }
    {
        self.count
    }

    /// The ranks that may have a part.
    pub fn ranks(&self) -> RankSet
        ensures { result ≡ self.now.ranks }
    {
        self.ranks
    }

    /// The cells, part by part with the ranks rising.
    pub fn cells(&self) -> &[u64]
        ensures value { result.now ≡ self.now.cells }
        ensures sound { IsCostData self.now }
    {
        self.cells.as_slice()
    }
}
