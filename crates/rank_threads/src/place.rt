//! Where the thread of a rank and the one that calls the rounds meet.

use mds_types::Rank;
use phased_board::Desk;
use std::alloc::Global;
use std::mem::swap;
use std::sync::{Condvar, Mutex, MutexGuard, Wait};

/// What a rank's thread is called for.
#[derive(Clone, Copy)]
pub(crate) enum Call {
    /// Nothing yet, or nothing more in this round.
    Nothing,
    /// Its turn in this round.
    Turn(u64),
    /// The phase is over.
    End,
}

/// What lies at a place: a desk, for as long as a turn lasts, what the rank is called for, and whether its thread is
/// there.
#[derive(Drop)]
pub(crate) struct Seat {
    pub(crate) desk: Desk,
    pub(crate) call: Call,
    is_taken: bool,
}

/// A rank's place in a phase. Its desk lies there while the rank's turn lasts.
#[derive(Drop)]
pub(crate) struct Place {
    seat: Mutex<Seat>,
    called: Condvar,
}

impl Place {
    pub(crate) fn new(alloc: Global, rank: Rank) -> Place {
        let seat = Seat {
            desk: Desk::new(alloc, rank),
            call: Call::Nothing,
            is_taken: false,
        };
        Place {
            seat: Mutex::new(seat),
            called: Condvar::new(),
        }
    }

    /// Puts a desk here, for the rank's turn in a round. It says whether the rank has a thread.
    pub(crate) fn call<R: Wait>(&self, rt: &R, round: u64, desk: &mut Desk) -> bool {
        let is_taken = self.lay(rt, round, desk);
        self.called.notify_one();
        is_taken
    }

    fn lay<R: Wait>(&self, rt: &R, round: u64, desk: &mut Desk) -> bool {
        let mut seat = self.seat.lock(rt);
        swap(&mut seat.desk, desk);
        seat.call = Call::Turn(round);
        seat.is_taken
    }

    /// The rank's thread is there.
    pub(crate) fn sit_down<R: Wait>(&self, rt: &R) {
        self.seat.lock(rt).is_taken = true;
    }

    /// Gives back the desk that was laid here, when the turn is over. Where none was laid, a bare one lies here.
    pub(crate) fn give_back<R: Wait>(&self, rt: &R, desk: &mut Desk) {
        swap(&mut self.seat.lock(rt).desk, desk);
    }

    /// Says that the phase is over.
    pub(crate) fn end<R: Wait>(&self, rt: &R) {
        self.seat.lock(rt).call = Call::End;
        self.called.notify_one();
    }

    /// Waits until the rank is called.
    pub(crate) fn wait<R: Wait>(&self, rt: &R) -> MutexGuard<'_, Seat> {
        self.called.wait_while(
            rt,
            self.seat.lock(rt),
            |seat| matches!(seat.call, Call::Nothing),
        )
    }
}
