//! Ranks stop between the rounds of a phase.
ghost use Rattle.std.specs.Prelude.{◌≡◌, ◌⊎◌, IfErr};
ghost use Rattle.std.specs.List.{Contains};
ghost use Rattle.mds_board.specs.declared.board_error.BoardError.{BoardError as TheError};
ghost use Rattle.mds_board.specs.declared.change.Change.TheVariants as Change;
ghost use Rattle.export_protocol.specs.declared.event.Event.TheVariants as event;
ghost use Rattle.phased_board.specs.Moments.{IsMet};
ghost use Rattle.phased_board.specs.Stops.{AreStopped, IsStopTold, IsToldWith, ranks_of};
ghost use mathlib.Core.List.{IsPrefix};

use authority_map::Publisher;
use mds_board::BoardError;
use mds_types::Rank;
use phased_board::breaks::refusal_told;
use phased_board::{Breaks, Known, Phase, Phased, RankStop};
use proof_names::Naming;
use std::alloc::Global;
use std::sync::{Mutex, Wait};

/// Stops each rank before its round, and keeps what is known of that.
#[derive(Drop)]
pub struct Stopping<'a, J: Naming, M: Publisher<J>, K: Phase, R: Wait> {
    rt: &'a R,
    alloc: Global,
    cell: &'a Mutex<Phased<J, M, K>>,
    /// The ranks that stop.
    pub stops: &'a [RankStop],
    /// What is known of the board.
    pub known: Known<K>,
    /// Whether each stop so far was accepted, or why one was refused.
    pub told: Result<(), BoardError>,
}

impl<'a, J: Naming, M: Publisher<J>, K: Phase, R: Wait> Stopping<'a, J, M, K, R> {
    /// No round has begun.
    pub fn new(
        rt: &'a R,
        alloc: Global,
        cell: &'a Mutex<Phased<J, M, K>>,
        stops: &'a [RankStop],
    ) -> Stopping<'a, J, M, K, R>
        requires { stops.now ≡ K.stops }
        ensures stops { result.stops.now ≡ K.stops }
        ensures stopped { AreStopped 0 K.before result.known.seen K.stops result.told }
    {
        Stopping {
            rt,
            alloc,
            cell,
            stops,
            known: cell.lock(rt).look(),
            told: Ok(()),
        }
    }

    // A rank stops.
    fn stop(&mut self, rank: Rank)
        requires { Contains (ranks_of K.stops) rank }
        ensures told { IsStopTold K.before self.new.known.seen self.new.told rank }
        ensures kept { (error : TheError) → IsToldWith self.old.told error → IsToldWith self.new.told error }
        ensures met { IfErr self.new.told (λ e. (self.old.told ≡ self.new.told)
            ⊎ IsMet K.before self.new.known.seen (Change.Step (event.Stop rank)) e) }
        ensures seen { IsPrefix self.old.known.seen self.new.known.seen }
        ensures stops { self.new.stops ≡ self.old.stops }
    {
        let stopped = self
            .cell
            .lock(self.rt)
            .stop(self.alloc, &mut self.known, rank);
        self.told = refusal_told(self.told, stopped);
    }

    /// What is known of the board, and what is told of the stops.
    pub fn into_known(self) -> (Known<K>, Result<(), BoardError>)
        ensures { (result.0 ≡ self.entry.known) × (result.1 ≡ self.entry.told) }
    {
        (self.known, self.told)
    }
}

impl<J: Naming, M: Publisher<J>, K: Phase, R: Wait> Breaks for Stopping<'_, J, M, K, R> {
    ghost use Rattle.phased_board.specs.Stops.{AreStopped};
    ghost use Rattle.std.specs.Prelude.{◌≡◌};

    ghost HasBegun = { λ rounds s. (s.stops.now ≡ K.stops)
        × AreStopped rounds K.before s.known.seen K.stops s.told };

    fn begin(&mut self, begun: u64) {
        let stops = self.stops;
        for stop in stops {
            if stop.round == begun + 1 {
                self.stop(stop.rank);
            }
        }
    }
}
