//! Requests and an export while memory or threads are refused.
//!
//! The requests are on the root and the export is of /a, so that neither hinders the other. Threads are refused by
//! `tools/refused_threads`.

use crate::boards::{Trial, on_board};
use crate::phase::{Seats, Told, phase, scripts};
use crate::refused::{carry_out_again, made_at_last, orders_at_last};
use crate::same::{Sure, holds_in};
use crate::steps::{rank, stand};
use crate::traffic::MOVE;
use authority_map::Publisher;
use mds_board::{Board, BoardError};
use mds_types::Dir;
use proof_names::Naming;
use rank_threads::{OpenGate, Outcome, Tasks, Work, WorkAnswer, WorkError};
use std::alloc::{AllocError, Global};
use std::marker::{Send, Sync};
use std::process::Abort;
use std::sync::Wait;
use std::thread::Threads;

fn scripts_at_last(alloc: Global) -> Result<Vec<Vec<Work>>, AllocError> {
    let rows = [(0, 3), (0, 2)];
    match scripts(alloc, &rows, 1) {
        Ok(scripts) => Ok(scripts),
        Err(_) => scripts(alloc, &rows, 1),
    }
}

// Whether a request wasn't served for want of memory or a thread. Any other is served whole.
fn lacks(rt: &impl Abort, answer: &WorkAnswer, hits: u32) -> bool {
    let memory = WorkAnswer::refused(WorkError::Board(BoardError::Memory));
    let refused = *answer == memory || *answer == WorkAnswer::no_thread();
    assert!(rt; refused || (answer.hits == hits && answer.refused.is_none()));
    refused
}

// How many requests weren't served, and orders not done. A phase that was refused at first counts, too.
fn lacking(rt: &impl Abort, told: &Told) -> u32 {
    let done = Outcome::Done(0);
    let mut lacking = u32::from(told.refused);
    lacking = lacking.wrapping_add(u32::from(told.outcomes.first() != Some(&done)));
    for (answers, hits) in told.answers.iter().zip([3, 2]) {
        for answer in answers {
            lacking = lacking.wrapping_add(u32::from(lacks(rt, answer, hits)));
        }
    }
    lacking
}

/// Each request is served, or isn't for want of memory or a thread, and the order is done or not. At `most` so many of
/// these are refused. What is undone later phases do, where they have a thread for it.
pub(crate) fn serve_and_move<
    J: Naming + Send + Sync,
    M: Publisher<J> + Send,
    R: Abort + Threads + Wait + Sync,
>(rt: &R, alloc: Global, board: Board<J, M>, seats: Seats<J>, most: u32) {
    let mut board = board;
    made_at_last(rt, alloc, &mut board, "a");
    let scripts = scripts_at_last(alloc).sure(rt);
    let orders = orders_at_last(alloc, MOVE).sure(rt);
    let tasks = Tasks {
        scripts: &scripts,
        orders: &orders,
        stops: &[],
    };
    let (after, mut seats, told) = phase(rt, alloc, board, seats, tasks, &OpenGate);
    let lacking = lacking(rt, &told);
    holds_in(rt, lacking <= most, &lacking);
    let (board, last) = carry_out_again(rt, alloc, after, &mut seats.unsettled, &orders, 2);
    let stays = last == Some(Outcome::NoThread)
        && board.cluster().authority(Dir::new(1)) == Some(rank(0));
    stand(rt, &board, "in the end", &[(0, 0), (1, u8::from(!stays))]);
    board.end();
}

#[test]
fn a_refused_growth_of_traffic_changes_nothing(rt: HostRuntime) {
    on_board(&rt, &rt, Trial::Scarce(1))
}

#[test]
fn traffic_without_a_thread_is_told(rt: HostRuntime) {
    on_board(&rt, &rt, Trial::Scarce(3))
}

// With ample memory the requests of each rank, and its exports, have a thread.
#[test]
fn requests_and_exports_have_threads(rt: HostRuntime) {
    on_board(&rt, &rt, Trial::Scarce(0))
}
