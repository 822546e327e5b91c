//! Orders: from the ranks that have the directories to those that a plan or their pins give them.
ghost use Rattle.std.specs.Prelude.{◌≡◌, IfOk};
ghost use Rattle.mds_board.specs.State.{holders, pin_orders, plan_orders, rank_of_row, targets};

use crate::change::Orders;
use crate::state::BoardState;
use authority_map::Publisher;
use mds_types::{Dir, Order, Plan, Rank};
use proof_names::Naming;
use std::alloc::{AllocError, Global};
use tree_parts::orders;

impl<J: Naming, M: Publisher<J>> BoardState<J, M> {
    // The rank that has each directory.
    fn holders(&self, alloc: Global) -> Result<Vec<Option<Rank>>, AllocError>
        ensures { IfOk result (λ ranks. ranks.items ≡ holders self.now.state) }
    {
        let mut ranks = Vec::with_capacity(alloc, self.tree.numbers() as usize)?;
        for number in 0..self.tree.numbers() {
            ranks.push(self.cluster.authority(Dir::new(number)))?;
        }
        Ok(ranks)
    }

    /// The orders by which each directory that a pin holds comes to the rank of its pin.
    pub fn pin_orders(&self, alloc: Global) -> Result<Vec<Order>, AllocError>
        ensures { IfOk result (λ found. found.items ≡ pin_orders self.now.state) }
    {
        let now = self.holders(alloc)?;
        let target = self.pins.nearest(alloc, &self.tree)?;
        orders(alloc, &self.tree, &now, &target)
    }

    // The orders by which directories come to the ranks that a plan gives them, twice: to give and to keep. `dirs`
    // are the directories of the plan's rows.
    pub(crate) fn plan_orders(
        &self,
        alloc: Global,
        dirs: &[Dir],
        plan: &Plan,
    ) -> Result<(Vec<Order>, Orders), AllocError>
        ensures given { IfOk result (λ os. os.0.items ≡ plan_orders self.now.state dirs.now plan.now) }
        ensures kept { IfOk result (λ os. os.1 ≡ plan_orders self.now.state dirs.now plan.now) }
    {
        let now = self.holders(alloc)?;
        let target = targets(alloc, self.tree.numbers(), dirs, plan)?;
        let given = orders(alloc, &self.tree, &now, &target)?;
        let kept = copied(alloc, &given)?;
        Ok((given, Orders::new(alloc, kept)?))
    }
}

// The rank of a row's part.
fn rank_of_row(plan: &Plan, row: usize) -> Option<Rank>
    ensures { result ≡ rank_of_row plan.now row }
{
    let part = *plan.part.get(row)?;
    plan.rank.get(part as usize).copied()
}

// The rank that a plan gives each directory. Of two rows of one directory the earlier one decides.
fn targets(
    alloc: Global,
    numbers: u32,
    dirs: &[Dir],
    plan: &Plan,
) -> Result<Vec<Option<Rank>>, AllocError>
    ensures { IfOk result (λ ranks. ranks.items ≡ targets numbers dirs.now plan.now) }
{
    let mut ranks = vec![in alloc; None; numbers as usize]?;
    for row in (0..dirs.len()).rev() {
        let place = dirs[row].number() as usize;
        if place < ranks.len() {
            ranks[place] = rank_of_row(plan, row);
        }
    }
    Ok(ranks)
}

// The same orders.
fn copied(alloc: Global, orders: &[Order]) -> Result<Vec<Order>, AllocError>
    ensures { IfOk result (λ copies. copies.items ≡ orders.now) }
{
    let mut copies = Vec::with_capacity(alloc, orders.len())?;
    for order in orders {
        copies.push(order.copied(alloc)?)?;
    }
    Ok(copies)
}
