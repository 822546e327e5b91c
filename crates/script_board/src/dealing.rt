//! The waiting requests are dealt to the ranks that they are asked of.
ghost use Rattle.std.specs.Prelude.{◌≡◌, ◌<◌, ◌≤◌, ◌+◌, ◌++◌, ◌∷◌, [], IfOk, OnOk, filter};
ghost use Rattle.std.specs.Prelude.{length, map, slice_set, vec_capacity, vec_len};
ghost use Rattle.dirtree.specs.Tree.{is_there};
ghost use Rattle.mds_board.specs.History.{World};
ghost use Rattle.script_board.specs.Serve.{IsDealt, asked_rank, refusal_at, refusals, script_at, work_of};

use crate::fault::Fault;
use crate::load::Load;
use crate::script_board::ScriptBoard;
use authority_map::Publisher;
use mds_board::Board;
use mds_types::{Dir, Rank};
use proof_names::Naming;
use rank_threads::{Work, WorkAnswer};
use std::alloc::{AllocError, Global};

/// Where the answer to a request is found.
#[derive(Clone, Copy)]
pub(crate) struct Seat {
    /// The rank that is asked.
    pub(crate) rank: usize,
    /// Its number in the rank's script.
    pub(crate) number: usize,
}

/// Requests by rank, and where the answer to each is found, in the order of their loads.
#[derive(Drop)]
pub(crate) struct Dealt {
    pub(crate) scripts: Vec<Vec<Work>>,
    pub(crate) seats: Vec<Seat>,
}

// The rank that is asked: the one that the map names, or rank 0 where it names none below `ranks`.
fn asked_rank<J: Naming, M: Publisher<J>>(board: &Board<J, M>, ranks: usize, dir: Dir) -> usize
    requires some { 0 < ranks }
    ensures rank { result ≡ asked_rank board.now ranks dir }
    ensures inside { result < ranks }
{
    let named = board.rank_published(dir);
    let rank = named.map_or(0, |rank: Rank| usize::from(rank.number()));
    if rank < ranks { rank } else { 0 }
}

// No requests, for `ranks` ranks.
fn no_requests(alloc: Global, ranks: usize) -> Result<Dealt, AllocError>
    ensures { (w : World) → IfOk result
        (λ dealt. IsDealt w ranks [] (map (λ s. s.items) dealt.scripts.items) dealt.seats.items) }
{
    let mut scripts = Vec::new(alloc);
    for _rank in 0..ranks {
        scripts.push(Vec::new(alloc))?;
    }
    Ok(Dealt {
        scripts,
        seats: Vec::new(alloc),
    })
}

impl Dealt {
    // Deals one request more to a rank.
    fn add(&mut self, rank: usize, load: Load) -> Result<(), AllocError>
        requires inside { rank < vec_len self.old.scripts }
        ensures scripts { OnOk result (map (λ s. s.items) self.new.scripts.items
            ≡ slice_set (map (λ s. s.items) self.old.scripts.items) rank
            (script_at (map (λ s. s.items) self.old.scripts.items) rank ++ work_of load ∷ [])) }
        ensures seats { OnOk result (self.new.seats.items
            ≡ self.old.seats.items ++ record {
              rank = rank;
              number = length (script_at (map (λ s. s.items) self.old.scripts.items) rank);
            } ∷ []) }
    {
        let script = &mut self.scripts[rank];
        let number = script.len();
        script.push(Work {
            dir: load.dir,
            hits: load.hits,
            kind: load.kind,
        })?;
        self.seats.push(Seat { rank, number })?;
        Ok(())
    }
}

// What refused a request, if anything did.
fn fault_at(answers: &[Vec<WorkAnswer>], seat: Seat) -> Option<Fault>
    ensures { result ≡ refusal_at (map (λ a. a.items) answers.now) seat }
{
    let answer = answers.get(seat.rank)?.get(seat.number)?;
    let error = answer.refused?;
    Some(Fault::from(error))
}

impl<J: Naming, M: Publisher<J>> ScriptBoard<J, M> {
    /// Adds the refusals that requests met, in the order of their loads.
    pub(crate) fn tell(seats: &[Seat], answers: &[Vec<WorkAnswer>], refused: &mut Vec<Fault>)
        requires room { vec_len refused.old + length seats.now ≤ vec_capacity refused.old }
        ensures told { refused.new.items ≡ refused.old.items ++ refusals (map (λ a. a.items) answers.now) seats.now }
        ensures few { vec_len refused.new ≤ vec_len refused.old + length seats.now }
        ensures capacity { vec_capacity refused.new ≡ vec_capacity refused.old }
    {
        for seat in seats {
            if let Some(fault) = fault_at(answers, *seat) {
                refused.push_reserved(fault);
            }
        }
    }
}

/// Deals the requests whose directories are there.
pub(crate) fn deal<J: Naming, M: Publisher<J>>(
    alloc: Global,
    board: &Board<J, M>,
    ranks: usize,
    loads: &[Load],
) -> Result<Dealt, AllocError>
    requires some { 0 < ranks }
    ensures { IfOk result (λ dealt. IsDealt board.now ranks
        (filter (λ l. is_there board.now.state.directories.entries l.dir) loads.now)
        (map (λ s. s.items) dealt.scripts.items) dealt.seats.items) }
{
    let mut dealt = no_requests(alloc, ranks)?;
    for load in loads {
        if !board.tree().contains(load.dir) {
            continue;
        }
        let rank = asked_rank(board, ranks, load.dir);
        dealt.add(rank, *load)?;
    }
    Ok(dealt)
}
