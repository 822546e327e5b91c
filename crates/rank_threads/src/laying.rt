//! What a phase of requests has before its first request.
ghost use Rattle.std.specs.Prelude.{◌≡◌, ◌≤◌, IfErr, IfOk, length, map, vec_len};
ghost use Rattle.std.specs.List.{AllZip};
ghost use Rattle.rank_threads.specs.Asking.{IsRoomFor};
ghost use Rattle.rank_threads.specs.Phases.{AreLaid};
ghost use Rattle.rank_threads.specs.Ways.{At, own_ranks};

use crate::desk::AskedRank;
use crate::route::{OwnRank, Route};
use crate::work::{Work, WorkAnswer};
use heat_ledger::Share;
use mds_types::Rank;
use phased_board::Phase;
use proof_names::Naming;
use std::alloc::{AllocError, AllocFailed, Global};

/// What the threads of requests work with, in rank order.
#[derive(Drop)]
pub struct Hands<J: Naming, W: Route> {
    /// The share of each rank.
    pub shares: Vec<Share<J>>,
    /// How the thread of each rank finds the rank at which it asks.
    pub ways: Vec<W>,
}

/// What a phase of requests has before its first: the share and the way of each rank, room for the answers, and room
/// for the ranks that are asked.
#[derive(Drop)]
pub struct Laid<J: Naming, W: Route, K: Phase> {
    pub shares: Vec<Share<J>>,
    pub ways: Vec<W>,
    pub rooms: Vec<Vec<WorkAnswer>>,
    pub asked: Vec<AskedRank<J, W, K>>,
}

// An empty list for each script, with room for its answers.
fn rooms_for(alloc: Global, scripts: &[Vec<Work>]) -> Result<Vec<Vec<WorkAnswer>>, AllocError>
    ensures { IfOk result (λ rooms. AllZip IsRoomFor scripts.now rooms.items) }
{
    let mut rooms = Vec::new(alloc);
    for script in scripts {
        rooms.push(Vec::with_capacity(alloc, script.len())?)?;
    }
    Ok(rooms)
}

/// Gives each share room for answers and ranks. Where memory is refused, it returns shares and ways.
pub(crate) fn lay<J: Naming, W: Route, K: Phase>(
    alloc: Global,
    scripts: &[Vec<Work>],
    hands: Hands<J, W>,
) -> Result<Laid<J, W, K>, AllocFailed<Hands<J, W>>>
    requires few { length scripts.now ≤ 64 }
    requires equal { vec_len hands.shares ≡ length scripts.now }
    requires ways { vec_len hands.ways ≡ length scripts.now }
    ensures laid { IfOk result (λ laid. AreLaid scripts.now laid) }
    ensures hands { IfOk result (λ laid. (laid.shares ≡ hands.shares) × (laid.ways ≡ hands.ways)) }
    ensures memory { IfErr result (λ e. e.value ≡ hands) }
{
    let Ok(rooms) = rooms_for(alloc, scripts) else {
        return Err(AllocFailed { value: hands });
    };
    let Ok(asked) = Vec::with_capacity(alloc, scripts.len()) else {
        return Err(AllocFailed { value: hands });
    };
    let Hands { shares, ways } = hands;
    Ok(Laid {
        shares,
        ways,
        rooms,
        asked,
    })
}

/// Each rank's own, for so many ranks.
pub(crate) fn own_ways(alloc: Global, ranks: usize) -> Result<Vec<OwnRank>, AllocError>
    requires few { ranks ≤ 64 }
    ensures { IfOk result (λ ways. map (λ own. At own.rank) ways.items ≡ own_ranks 0 ranks) }
{
    let mut ways = Vec::with_capacity(alloc, ranks)?;
    for number in 0..ranks {
        let Some(rank) = Rank::new(number as u8) else {
            unreachable!()
        };
        ways.push(OwnRank { rank })?;
    }
    Ok(ways)
}
