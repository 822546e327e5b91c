//! Changes of a board while a growth is refused.
//!
//! With `rt try --test --fail-alloc N`, the N-th growth is refused.

use crate::boards::adopting::plan;
use crate::boards::cases::{Case, Planner, try_case};
use crate::given::rank;
use crate::machine::steps::{Do as Step, event};
use crate::same::{Sure, same, same_in};
use authority_map::Publisher;
use dirtree::Name;
use heat_ledger::Share;
use mds_board::{Board, BoardCommand, BoardError};
use mds_types::{Dir, Kind, Plan, RankSet};
use proof_names::Naming;
use std::alloc::{AllocError, Global};
use std::marker::Sync;
use std::process::Abort;
use std::thread::Threads;

/// What is done to a board, by the numbers of directories, ranks, exports and messages.
#[derive(Clone, Copy)]
enum Do {
    // commands, each a list of its own
    Make(u32, &'static str),
    Remove(u32),
    Pin(u32, i32),
    Mask(u64),
    Weights(u8, u8),
    Tick,
    Step(Step),
    Balance,
    // calls
    Hit(u32, Kind),
    Deposit,
    Begin(u8, u32),
    Open,
    Adopt,
    Publish,
    /// The events of the cluster, which are this many.
    Events(usize),
    /// The orders of the pins, which are this many.
    PinOrders(usize),
}

/// A list in which each change is accepted: the root and /a move to rank 1 by a plan, one export is aborted, and one is
/// asked about. A further plan moves nothing.
const CHANGES: &[Do] = &[
    Do::Make(0, "a"),
    Do::Hit(1, Kind::Read),
    Do::Hit(1, Kind::Read),
    Do::Hit(1, Kind::Read),
    Do::Hit(1, Kind::Read),
    Do::Hit(1, Kind::Read),
    Do::Deposit,
    Do::Mask(2),
    Do::Publish,
    Do::Open,
    Do::Weights(1, 6),
    Do::Adopt,
    Do::Step(Step::Start(0, 1, &[0, 1])),
    Do::Step(Step::Deliver(0)),
    Do::Step(Step::Deliver(1)),
    Do::Step(Step::Froze(0)),
    Do::Step(Step::Deliver(2)),
    Do::Step(Step::Deliver(3)),
    Do::Step(Step::Deliver(4)),
    Do::Step(Step::Deliver(5)),
    Do::Publish,
    Do::Step(Step::Notify(0)),
    Do::Publish,
    Do::Step(Step::Deliver(6)),
    Do::Tick,
    Do::Make(1, "b"),
    Do::Pin(2, 0),
    Do::PinOrders(1),
    Do::Pin(2, 1),
    Do::Begin(1, 2),
    Do::Step(Step::End(0)),
    Do::Remove(2),
    Do::Step(Step::Start(1, 0, &[1])),
    Do::Step(Step::Deliver(7)),
    Do::Step(Step::Deliver(8)),
    Do::Step(Step::Froze(1)),
    Do::Step(Step::Deliver(9)),
    Do::Step(Step::Deliver(10)),
    Do::Step(Step::Deliver(11)),
    Do::Step(Step::Stop(1)),
    Do::Step(Step::Ask(1)),
    Do::Step(Step::Restart(1)),
    Do::Step(Step::Deliver(13)),
    Do::Step(Step::Deliver(14)),
    Do::Step(Step::Start(1, 0, &[0])),
    Do::Step(Step::Abort(2)),
    Do::Open,
    Do::Hit(1, Kind::Write),
    Do::Begin(1, 1),
    Do::Tick,
    Do::Make(1, "c"),
    Do::Deposit,
    Do::Publish,
    Do::Balance,
    Do::Events(31),
];

fn plan_at_last(alloc: Global) -> Result<Plan, AllocError> {
    match plan(alloc, 5) {
        Ok(plan) => Ok(plan),
        Err(_) => plan(alloc, 5),
    }
}

/// The command of a change, if it has one.
fn command(alloc: Global, change: Do) -> Result<Option<BoardCommand>, AllocError> {
    Ok(Some(match change {
        Do::Make(parent, name) => {
            BoardCommand::Make(Dir::new(parent), Name::new(alloc, name)?, 10)
        }
        Do::Remove(dir) => BoardCommand::Remove(Dir::new(dir)),
        Do::Pin(dir, pin) => BoardCommand::Pin(Dir::new(dir), pin),
        Do::Mask(bits) => BoardCommand::Mask(RankSet::from_bits(bits)),
        Do::Weights(read, write) => BoardCommand::Weights(read, write),
        Do::Tick => BoardCommand::Tick,
        Do::Step(step) => BoardCommand::Step(event(alloc, step)?),
        Do::Balance => BoardCommand::Balance,
        _ => return Ok(None),
    }))
}

/// Whether the change was made, whatever it gives.
fn done<T: Drop>(answer: Result<T, BoardError>) -> Result<(), BoardError> {
    let _given = answer?;
    Ok(())
}

/// Has a board carry out a list of one command.
fn run_one<J: Naming, M: Publisher<J>, R: Abort + Threads + Sync>(
    rt: &R,
    alloc: Global,
    board: &mut Board<J, M>,
    command: BoardCommand,
) -> Result<(), BoardError> {
    assert!(rt; command.is_fit());
    let Ok(answers) = board.run(rt, alloc, &Planner, &[command]) else {
        return Err(BoardError::Memory);
    };
    for answer in answers {
        done(answer)?;
    }
    Ok(())
}

/// Counts, or begins a request.
fn count<J: Naming, M: Publisher<J>>(
    alloc: Global,
    board: &mut Board<J, M>,
    share: &mut Share<J>,
    change: Do,
) -> Result<(), BoardError> {
    match change {
        Do::Hit(dir, kind) => {
            let _hit = share.hit(Dir::new(dir), kind);
            Ok(())
        }
        Do::Begin(at, dir) => done(board.begin(share, rank(at), Dir::new(dir))),
        _ => board.deposit(alloc, share),
    }
}

/// Whether a list has this many entries, where there was memory for it.
fn is_long<T: Drop>(
    rt: &impl Abort,
    list: Result<Vec<T>, AllocError>,
    length: usize,
) -> Result<(), BoardError> {
    match list {
        Ok(list) => {
            same(rt, &list.len(), &length);
            Ok(())
        }
        Err(AllocError) => Err(BoardError::Memory),
    }
}

/// Opens a problem, adopts the plan for it, publishes, or lists what takes memory.
fn go_on<J: Naming, M: Publisher<J>>(
    rt: &impl Abort,
    alloc: Global,
    board: &mut Board<J, M>,
    change: Do,
) -> Result<(), BoardError> {
    match change {
        Do::Open => done(board.open_problem(alloc)),
        Do::Adopt => done(board.adopt(alloc, plan_at_last(alloc).sure(rt))),
        Do::Events(length) => is_long(rt, board.cluster_events(alloc), length),
        Do::PinOrders(length) => is_long(rt, board.pin_orders(alloc), length),
        _ => if board.publish() {
            Ok(())
        } else {
            Err(BoardError::Memory)
        },
    }
}

fn change_once<J: Naming, M: Publisher<J>, R: Abort + Threads + Sync>(
    rt: &R,
    alloc: Global,
    board: &mut Board<J, M>,
    share: &mut Share<J>,
    change: Do,
) -> Result<(), BoardError> {
    match command(alloc, change) {
        Ok(Some(command)) => run_one(rt, alloc, board, command),
        Err(AllocError) => Err(BoardError::Memory),
        Ok(None) => match change {
            Do::Hit(_, _) | Do::Deposit | Do::Begin(_, _) => count(alloc, board, share, change),
            _ => go_on(rt, alloc, board, change),
        },
    }
}

/// Makes a change. Where a growth is refused, the next call makes it. It says whether one was.
fn change_at_last<J: Naming, M: Publisher<J>, R: Abort + Threads + Sync>(
    rt: &R,
    alloc: Global,
    board: &mut Board<J, M>,
    share: &mut Share<J>,
    change: Do,
) -> bool {
    let at = board.history().len();
    let first = change_once(rt, alloc, board, share, change);
    if first.is_ok() {
        return false;
    }
    same_in(rt, &first, &Err(BoardError::Memory), &at);
    let again = change_once(rt, alloc, board, share, change);
    same_in(rt, &again, &Ok(()), &at);
    true
}

/// The board is as without a refused growth.
fn look_back<J: Naming, M: Publisher<J>>(rt: &impl Abort, board: &Board<J, M>) {
    let a = Dir::new(1);
    same(rt, &board.history().len(), &44);
    same(rt, &board.tree().numbers(), &4);
    let counted = (board.counted(a, Kind::Read), board.counted(a, Kind::Write));
    same(rt, &(counted, board.begun(a)), &((5, 1), 1));
    same(rt, &board.cluster().authority(a), &Some(rank(1)));
    same(rt, &board.cluster().sent(), &17);
    let greatest = board.plan_in_force().map(|plan| plan.greatest);
    same(rt, &greatest, &Some(7));
}

/// Makes all changes, of which one at most is refused.
pub(crate) fn try_on<J: Naming, M: Publisher<J>, R: Abort + Threads + Sync>(
    rt: &R,
    alloc: Global,
    board: &mut Board<J, M>,
    share: &mut Share<J>,
) {
    let mut refused = false;
    for change in CHANGES {
        if change_at_last(rt, alloc, board, share, *change) {
            assert!(rt; !refused);
            refused = true;
        }
    }
    look_back(rt, board);
}

#[test]
fn a_refused_growth_changes_nothing(rt: HostRuntime) {
    try_case(&rt, Case::RefusedGrowth)
}
