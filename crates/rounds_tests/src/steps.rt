//! What is done to a board in a test, and what is read of it.

use crate::gates::InTurnGate;
use crate::same::{Sure, holds_in, same_in};
use authority_map::Publisher;
use export_protocol::Event;
use mds_board::Board;
use mds_types::{Dir, Dirs, Order, Rank};
use phased_board::Unsettled;
use proof_names::Naming;
use rank_threads::{Outcome, export_phase_from};
use std::alloc::{AllocError, Global};
use std::marker::{Send, Sync};
use std::process::Abort;
use std::sync::Wait;
use std::thread::Threads;

/// A step of a test.
#[derive(Clone, Copy)]
pub(crate) enum Do {
    /// An export of a directory starts.
    Start(u8, u8, u32),
    /// A message comes.
    Deliver(u32),
    /// The exporter has waited.
    Froze(u32),
    /// The map names the importer.
    Notify(u32),
    /// A rank stops.
    Stop(u8),
    /// A rank runs again.
    Restart(u8),
}

/// The rank of a number, and rank 0 where that is none.
pub(crate) fn rank(number: u8) -> Rank {
    Rank::new(number).unwrap_or(Rank::default())
}

fn dirs(alloc: Global, dir: u32) -> Result<Dirs, AllocError> {
    let mut list = Vec::new(alloc);
    list.push(Dir::new(dir))?;
    Ok(Dirs::new(list))
}

/// Makes the steps, each of which must be accepted.
pub(crate) fn play<J: Naming, M: Publisher<J>>(
    rt: &impl Abort,
    alloc: Global,
    board: &mut Board<J, M>,
    name: &str,
    steps: &[Do],
) {
    for (at, step) in steps.iter().enumerate() {
        let made = match *step {
            Do::Start(from, to, dir) => {
                let dirs = dirs(alloc, dir).sure(rt);
                board.step(alloc, Event::Start(rank(from), rank(to), dirs))
            }
            Do::Deliver(message) => board.step(alloc, Event::Deliver(message)),
            Do::Froze(export) => board.step(alloc, Event::Froze(export)),
            Do::Notify(export) => board.step(alloc, Event::Notify(export)),
            Do::Stop(at) => board.step(alloc, Event::Stop(rank(at))),
            Do::Restart(at) => board.step(alloc, Event::Restart(rank(at))),
        };
        same_in(rt, &made.err(), &None, &(name, at));
    }
}

/// Orders of one directory each: the rank that gives it, the rank that takes it, and the directory.
pub(crate) fn orders(alloc: Global, rows: &[(u8, u8, u32)]) -> Result<Vec<Order>, AllocError> {
    let mut orders = Vec::with_capacity(alloc, rows.len())?;
    for (from, to, dir) in rows {
        orders.push(Order {
            from: rank(*from),
            to: rank(*to),
            dirs: dirs(alloc, *dir)?,
        })?;
    }
    Ok(orders)
}

/// Moves directories, each by an order of its own. In each round the ranks take their turns one after the other.
pub(crate) fn moved<J: Naming + Send + Sync, M: Publisher<J> + Send, R: Threads + Wait + Sync>(
    rt: &R,
    alloc: Global,
    board: Board<J, M>,
    unsettled: &mut Unsettled,
    rows: &[(u8, u8, u32)],
) -> (Board<J, M>, Result<Vec<Outcome>, AllocError>) {
    let gate = InTurnGate::new(board.pins().active());
    match orders(alloc, rows) {
        Ok(orders) => export_phase_from(rt, alloc, board, &gate, &orders, unsettled),
        Err(error) => (board, Err(error)),
    }
}

/// Makes directories /a, /b and so on, numbered from 1.
pub(crate) fn make<J: Naming, M: Publisher<J>>(
    rt: &impl Abort,
    alloc: Global,
    board: &mut Board<J, M>,
    names: &[&str],
) {
    for name in names {
        let made = board.make(alloc, Dir::ROOT, name, 1);
        holds_in(rt, made.is_ok(), &name);
    }
}

/// Each of these directories has this authority, which the map names, too.
pub(crate) fn stand<J: Naming, M: Publisher<J>>(
    rt: &impl Abort,
    board: &Board<J, M>,
    name: &str,
    rows: &[(u32, u8)],
) {
    for (number, at) in rows {
        let (dir, wanted) = (Dir::new(*number), Some(rank(*at)));
        same_in(
            rt,
            &board.cluster().authority(dir),
            &wanted,
            &(name, number),
        );
        same_in(rt, &board.cluster().named(dir), &wanted, &(name, number));
    }
}
