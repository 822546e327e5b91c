//! Plans that are adopted or refused, with their orders.

use crate::boards::cases::{Case, try_case};
use crate::given::rank;
use crate::same::{Sure, same};
use arrayvec::ArrayVec;
use authority_map::Publisher;
use export_protocol::{Event, Reply};
use heat_ledger::Share;
use mds_board::{Board, BoardError};
use mds_types::{CutProof, Dir, DualProof, Kind, Order, Plan, RankSet};
use proof_names::Naming;
use std::alloc::{AllocError, Global};
use std::process::Abort;

/// Root and /a, which has 5 hits and 10 inodes, go to rank 1 together. It says that the greatest heat is this.
pub(crate) fn plan(alloc: Global, greatest: u64) -> Result<Plan, AllocError> {
    let mut ranks = ArrayVec::new();
    let _full = ranks.try_push(rank(1));
    Ok(Plan {
        part: vec![in alloc; 0, 0]?,
        rank: ranks,
        greatest,
        moved: 11,
        cut: CutProof::Heavy(1),
        dual: DualProof {
            part_price: vec![in alloc; 11]?,
            rank_price: vec![in alloc; 0]?,
        },
    })
}

// Makes /a, which gets 5 hits, and lets the balancer use only rank 1: three events.
fn set_up<J: Naming, M: Publisher<J>>(
    rt: &impl Abort,
    alloc: Global,
    board: &mut Board<J, M>,
    share: &mut Share<J>,
) {
    assert!(rt; board.make(alloc, Dir::ROOT, "a", 10).is_ok());
    for _ in 0..5 {
        same(rt, &share.hit(Dir::new(1), Kind::Read), &Ok(()));
    }
    same(rt, &board.deposit(alloc, share), &Ok(()));
    same(rt, &board.set_mask(RankSet::from_bits(2)), &Ok(()));
}

// Why a plan isn't adopted that says that the greatest heat is this.
fn refusal<J: Naming, M: Publisher<J>>(
    rt: &impl Abort,
    alloc: Global,
    board: &mut Board<J, M>,
    greatest: u64,
) -> Option<BoardError> {
    board.adopt(alloc, plan(alloc, greatest).sure(rt)).err()
}

// Without an open problem nothing is adopted, and nothing for one that has changed.
fn come_late<J: Naming, M: Publisher<J>>(rt: &impl Abort, alloc: Global, board: &mut Board<J, M>) {
    same(
        rt,
        &refusal(rt, alloc, board, 5),
        &Some(BoardError::NoProblem),
    );
    assert!(rt; board.open_problem(alloc).is_ok());
    assert!(rt; board.make(alloc, Dir::ROOT, "z", 1).is_ok());
    same(
        rt,
        &refusal(rt, alloc, board, 5),
        &Some(BoardError::Changed(4)),
    );
    assert!(rt; board.remove(Dir::new(2)).is_ok());
    assert!(rt; board.open_problem(alloc).is_ok());
    assert!(rt; board.set_pin(Dir::new(1), -1).is_ok());
    same(
        rt,
        &refusal(rt, alloc, board, 5),
        &Some(BoardError::Changed(7)),
    );
}

// A deposit and weights leave the open problem, for which no forged plan is adopted: one that says that it is cooler or
// hotter than it is, or that no part has heat.
fn forge<J: Naming, M: Publisher<J>>(
    rt: &impl Abort,
    alloc: Global,
    board: &mut Board<J, M>,
    share: &mut Share<J>,
) {
    assert!(rt; board.open_problem(alloc).is_ok());
    same(rt, &board.deposit(alloc, share), &Ok(()));
    same(rt, &board.set_weights(2, 2), &Ok(()));
    same(
        rt,
        &refusal(rt, alloc, board, 4),
        &Some(BoardError::NotBest),
    );
    same(
        rt,
        &refusal(rt, alloc, board, 6),
        &Some(BoardError::NotBest),
    );
    let mut forged = plan(alloc, 5).sure(rt);
    forged.cut = CutProof::Zero;
    let refused = board.adopt(alloc, forged);
    same(rt, &refused.err(), &Some(BoardError::NotBest));
    assert!(rt; board.plan_in_force().is_none());
}

// Both directories go to rank 1 in one order, which can start.
fn adopt<J: Naming, M: Publisher<J>>(rt: &impl Abort, alloc: Global, board: &mut Board<J, M>) {
    let orders = board.adopt(alloc, plan(alloc, 5).sure(rt)).sure(rt);
    let force = board.in_force().as_ref().map(|force| force.event());
    same(rt, &(force, orders.len()), &(Some(11), 1));
    for order in orders {
        let Order { from, to, dirs } = order;
        same(rt, &(from, to), &(rank(0), rank(1)));
        same(rt, &dirs.as_slice(), &[Dir::new(0), Dir::new(1)].as_slice());
        let started = board.step(alloc, Event::Start(from, to, dirs));
        same(rt, &started, &Ok(Reply::Export(0, 0)));
    }
}

pub(crate) fn try_on<J: Naming, M: Publisher<J>>(
    rt: &impl Abort,
    alloc: Global,
    board: &mut Board<J, M>,
    share: &mut Share<J>,
) {
    set_up(rt, alloc, board, share);
    come_late(rt, alloc, board);
    forge(rt, alloc, board, share);
    adopt(rt, alloc, board);
}

#[test]
fn plans_are_adopted_with_their_orders(rt: HostRuntime) {
    try_case(&rt, Case::Adopting)
}
