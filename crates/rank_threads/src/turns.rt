//! The rounds of a phase of exports, with a thread for each rank that has something to look after.

use crate::place::{Call, Place};
use crate::turn::take_turn;
use crate::under_way::UnderWay;
use mds_types::RankSet;
use phased_board::desk::{clear_stopped, sort_out};
use phased_board::{Breaks, Desk, ExportSide, Gate};
use std::alloc::Global;
use std::marker::{Send, Sync};
use std::sync::{Mutex, Wait};
use std::thread::Scope;

/// Rounds of a phase.
const ROUNDS: u64 = 8;

/// What the threads of a phase work with.
#[derive(Drop)]
pub(crate) struct Rounds<'a, X: ExportSide, R: Wait, G: Gate> {
    pub(crate) rt: &'a R,
    pub(crate) alloc: Global,
    pub(crate) cell: &'a Mutex<X>,
    pub(crate) gate: &'a G,
    pub(crate) under_way: UnderWay,
}

// The ranks that have nothing to look after.
fn idle_ranks(desks: &[Desk]) -> RankSet {
    let mut bits: u64 = 0;
    for desk in desks {
        if desk.is_empty() {
            bits |= 1 << desk.rank.number();
        }
    }
    RankSet::from_bits(bits)
}

impl<X: ExportSide + Send, R: Wait + Sync, G: Gate + Sync> Rounds<'_, X, R, G> {
    // A rank takes the turn that it is called for at its place. Without a thread of its own, its orders aren't started.
    // It says whether there was a turn to take: none is when the phase is over.
    fn take_turn(&self, place: &Place, has_thread: bool) -> bool {
        let mut seat = place.wait(self.rt);
        let Call::Turn(round) = seat.call else {
            return false;
        };
        seat.call = Call::Nothing;
        if !has_thread {
            seat.desk.orders.clear();
        }
        take_turn(
            self.rt,
            self.alloc,
            self.cell,
            self.gate,
            round,
            &mut seat.desk,
        );
        self.under_way.end(self.rt);
        true
    }

    // A rank's thread takes the turns that the rank is called for, until the phase is over.
    fn serve(&self, place: &Place) {
        place.sit_down(self.rt);
        for _ in 0..ROUNDS {
            if !self.take_turn(place, true) {
                return;
            }
        }
    }

    // Calls a rank for its turn. A thread is made for it where it has none, and where none is to be had, this one takes
    // the turn.
    fn call<'s, E>(&'s self, scope: &Scope<'s, E>, round: u64, place: &'s Place, desk: &mut Desk) {
        self.under_way.begin(self.rt);
        let has_thread = place.call(self.rt, round, desk);
        if !has_thread && scope.spawn(move || self.serve(place)).is_err() {
            let _is_turn = self.take_turn(place, false);
        }
    }

    // Each rank takes its turn in a round.
    fn take_turns<'s, E>(
        &'s self,
        scope: &Scope<'s, E>,
        round: u64,
        places: &'s [Place],
        desks: &mut [Desk],
    ) {
        let idle = idle_ranks(desks);
        for (place, desk) in places.iter().zip(desks.iter_mut()) {
            if !idle.has(desk.rank) {
                self.call(scope, round, place, desk);
            }
        }
        self.pass_idle(round, idle, desks);
        self.under_way.wait(self.rt);
        self.clear(places, desks);
    }

    // Calls the gate for the ranks that have nothing to look after in a round.
    fn pass_idle(&self, round: u64, idle: RankSet, desks: &[Desk]) {
        for desk in desks {
            if idle.has(desk.rank) {
                self.gate.before(desk.rank, round);
                self.gate.after(desk.rank, round);
            }
        }
    }

    // Takes the desks back.
    fn clear(&self, places: &[Place], desks: &mut [Desk]) {
        for (place, desk) in places.iter().zip(desks.iter_mut()) {
            place.give_back(self.rt, desk);
        }
    }

    // Lets the threads know that the phase is over.
    fn end(&self, places: &[Place]) {
        for place in places {
            place.end(self.rt);
        }
    }

    // How many messages were sent.
    fn sent(&self) -> u32 {
        self.cell.lock(self.rt).cluster().sent()
    }

    // Puts the messages from this one on on desks, except those of stopped ranks, and says how many were sent.
    fn sort_out(&self, desks: &mut Vec<Desk>, seen: u32) -> u32 {
        let board = self.cell.lock(self.rt);
        let sent = board.cluster().sent();
        clear_stopped(board.cluster(), desks);
        // a message that finds no place isn't delivered
        let _ = sort_out(board.cluster(), desks, seen..sent);
        sent
    }

    /// The ranks take their turns in rounds, each by a thread of its own. In each they have the messages that were sent
    /// before it. What `breaks` does it does before each round.
    pub(crate) fn take_all<'s, E, B: Breaks + Drop>(
        &'s self,
        scope: &Scope<'s, E>,
        places: &'s [Place],
        desks: &mut Vec<Desk>,
        breaks: B,
    ) -> B
        requires { B.HasBegun 0 breaks }
        ensures { B.HasBegun 8 result }
    {
        let mut breaks = breaks;
        let mut seen = self.sent();
        for round in 0..ROUNDS {
            breaks.begin(round);
            seen = self.sort_out(desks, seen);
            self.take_turns(scope, round + 1, places, desks);
        }
        self.end(places);
        breaks
    }
}
