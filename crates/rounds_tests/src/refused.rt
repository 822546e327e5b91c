//! Phases of exports while a growth is refused.
//!
//! With `rt try --test --fail-alloc N`, the N-th growth is refused.

use crate::boards::{Trial, on_board};
use crate::same::{Sure, holds_in};
use crate::steps::{orders, stand};
use authority_map::Publisher;
use mds_board::Board;
use mds_types::{Dir, Order};
use phased_board::Unsettled;
use proof_names::Naming;
use rank_threads::{OpenGate, Outcome, export_phase_from};
use std::alloc::{AllocError, Global};
use std::marker::{Send, Sync};
use std::process::Abort;
use std::sync::Wait;
use std::thread::Threads;

/// Orders that give directories of rank 0 to rank 1.
pub(crate) fn orders_at_last(
    alloc: Global,
    rows: &[(u8, u8, u32)],
) -> Result<Vec<Order>, AllocError> {
    match orders(alloc, rows) {
        Ok(orders) => Ok(orders),
        Err(_) => orders(alloc, rows),
    }
}

/// Makes a directory below the root, by a second call where a growth is refused.
pub(crate) fn made_at_last<J: Naming, M: Publisher<J>>(
    rt: &impl Abort,
    alloc: Global,
    board: &mut Board<J, M>,
    name: &str,
) {
    let made = board.make(alloc, Dir::ROOT, name, 1).is_ok()
        || board.make(alloc, Dir::ROOT, name, 1).is_ok();
    holds_in(rt, made, &name);
}

/// Carries out orders in phases, one after the other, and returns what became of the first order in the last of them.
pub(crate) fn carry_out_again<
    J: Naming + Send + Sync,
    M: Publisher<J> + Send,
    R: Threads + Wait + Sync,
>(
    rt: &R,
    alloc: Global,
    board: Board<J, M>,
    unsettled: &mut Unsettled,
    orders: &[Order],
    phases: u32,
) -> (Board<J, M>, Option<Outcome>) {
    let mut board = board;
    let mut last = None;
    for _ in 0..phases {
        let (after, outcomes) = export_phase_from(rt, alloc, board, &OpenGate, orders, unsettled);
        board = after;
        last = match outcomes {
            Ok(outcomes) => outcomes.first().copied(),
            Err(_) => None,
        };
    }
    (board, last)
}

/// What the first phase has left undone further phases do.
pub(crate) fn phases<
    J: Naming + Send + Sync,
    M: Publisher<J> + Send,
    R: Abort + Threads + Wait + Sync,
>(rt: &R, alloc: Global, board: Board<J, M>) {
    let mut board = board;
    made_at_last(rt, alloc, &mut board, "a");
    made_at_last(rt, alloc, &mut board, "b");
    let orders = orders_at_last(alloc, &[(0, 1, 1), (0, 1, 2)]).sure(rt);
    let mut unsettled = Unsettled::new(alloc);
    let (board, _last) = carry_out_again(rt, alloc, board, &mut unsettled, &orders, 3);
    stand(rt, &board, "in the end", &[(0, 0), (1, 1), (2, 1)]);
    board.end();
}

#[test]
fn a_refused_growth_is_made_up_for(rt: HostRuntime) {
    on_board(&rt, &rt, Trial::RefusedGrowth)
}
