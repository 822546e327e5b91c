//! Orders are started.
ghost use Rattle.std.specs.Prelude.{◌≡◌, ◌+◌, ℕ, All, List, count_by, false, length, true, IfOk};
ghost use Rattle.mds_board.specs.History.{World};
ghost use Rattle.mds_types.specs.declared.order.Order.{Order as TheOrder};
ghost use Rattle.phased_board.specs.Asked.{AreAsked, IsAsked, is_begun, is_waiting, ones};
ghost use Rattle.phased_board.specs.Going.{IsOfPhase, WentOnBy, WentOnWithStops, added};

use crate::standing::Standing;
use crate::stepping::start;
use authority_map::Publisher;
use mds_board::{Board, BoardError};
use mds_types::Order;
use proof_names::Naming;
use std::alloc::{AllocError, Global};
use std::mem::replace;

/// The orders, as ones that wait.
pub fn waiting(alloc: Global, orders: &[Order]) -> Result<Vec<Standing>, AllocError>
    ensures asked { IfOk result (λ standings. (w : World) → AreAsked w w orders.now standings.items) }
    ensures none { IfOk result (λ standings. count_by is_begun standings.items ≡ 0) }
{
    let mut standings = Vec::with_capacity(alloc, orders.len())?;
    for order in orders {
        standings.push(Standing::Waiting(order.copied(alloc)?))?;
    }
    Ok(standings)
}

/// Starts the order of this number if it waits, and returns its export.
#[tactic(auto, using(crate::proofs::Going::stays, crate::proofs::Going::adds_none))]
pub fn settle_at<J: Naming, M: Publisher<J>>(
    board: &mut Board<J, M>,
    alloc: Global,
    standings: &mut Vec<Standing>,
    number: usize,
) -> Option<u32>
    ensures went { WentOnBy false true board.old board.new }
    ensures events { (before : ℕ) → All (λ e. IsOfPhase before e.change) (added board.old board.new) }
    ensures asked { (stops : List ℕ) (first : World) (orders : List TheOrder)
        → WentOnWithStops true true stops first board.old → AreAsked first board.old orders standings.old.items
        → AreAsked first board.new orders standings.new.items }
    ensures counted { length board.new.state.cluster.orders + count_by is_begun standings.old.items
        ≡ length board.old.state.cluster.orders + count_by is_begun standings.new.items }
{
    let standing = standings.get_mut(number)?;
    settle(board, alloc, standing)
}

// Starts an order if it waits, and returns its export.
#[tactic(auto, using(crate::proofs::Going::stays, crate::proofs::Going::adds_none))]
fn settle<J: Naming, M: Publisher<J>>(
    board: &mut Board<J, M>,
    alloc: Global,
    standing: &mut Standing,
) -> Option<u32>
    ensures went { WentOnBy false true board.old board.new }
    ensures events { (before : ℕ) → All (λ e. IsOfPhase before e.change) (added board.old board.new) }
    ensures asked { (stops : List ℕ) (first : World) (order : TheOrder)
        → WentOnWithStops true true stops first board.old → IsAsked first board.old order standing.old
        → IsAsked first board.new order standing.new }
    ensures counted { length board.new.state.cluster.orders + ones (is_begun standing.old)
        ≡ length board.old.state.cluster.orders + ones (is_begun standing.new) }
    ensures settled { is_waiting standing.new ≡ false }
{
    match replace(standing, Standing::Refused(BoardError::Memory)) {
        Standing::Waiting(order) => match start(board, alloc, order) {
            Ok(export) => {
                *standing = Standing::Started(export);
                Some(export)
            }
            Err(error) => {
                *standing = Standing::Refused(error);
                None
            }
        },
        settled => {
            *standing = settled;
            None
        }
    }
}
