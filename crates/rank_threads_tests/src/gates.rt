//! Gates at which threads wait or give way.

use mds_types::Rank;
use rank_threads::Gate;
use std::sync::atomic::{AtomicU64, Ordering};
use std::thread;

/// How often a thread gives way at most, until it goes on without the others.
const TURNS: u64 = 100_000_000;

/// Threads give way now and then.
pub(crate) struct JitterGate;

impl Gate for JitterGate {
    fn before(&self, rank: Rank, number: u64) {
        if number.wrapping_add(u64::from(rank.number())) % 2 == 0 {
            thread::yield_now();
        }
    }

    fn after(&self, rank: Rank, number: u64) {
        if number.wrapping_add(u64::from(rank.number())) % 3 == 0 {
            thread::yield_now();
        }
    }
}

/// Each of two requests waits before its hits until both have come there.
#[derive(Drop)]
pub(crate) struct MeetingGate {
    came: AtomicU64,
    met: AtomicU64,
}

impl MeetingGate {
    /// Nobody came.
    pub(crate) fn new() -> MeetingGate {
        MeetingGate {
            came: AtomicU64::new(0),
            met: AtomicU64::new(0),
        }
    }

    /// How many saw both there.
    pub(crate) fn met(&self) -> u64 {
        self.met.load(Ordering::SeqCst)
    }
}

impl Gate for MeetingGate {
    fn before(&self, _rank: Rank, _number: u64) {
        self.came.fetch_add(1, Ordering::SeqCst);
        for _ in 0..TURNS {
            if self.came.load(Ordering::SeqCst) > 1 {
                self.met.fetch_add(1, Ordering::SeqCst);
                return;
            }
            thread::yield_now();
        }
    }

    fn after(&self, _rank: Rank, _number: u64) {}
}

/// Each of two ranks waits in the first round until both have come there. It adds up the rounds of all turns.
#[derive(Drop)]
pub(crate) struct RoundsGate {
    first: MeetingGate,
    begun: AtomicU64,
    over: AtomicU64,
}

impl RoundsGate {
    /// Nobody came.
    pub(crate) fn new() -> RoundsGate {
        RoundsGate {
            first: MeetingGate::new(),
            begun: AtomicU64::new(0),
            over: AtomicU64::new(0),
        }
    }

    /// How many saw both there, and the rounds of the turns that began and that are over, added up.
    pub(crate) fn seen(&self) -> (u64, u64, u64) {
        (
            self.first.met(),
            self.begun.load(Ordering::SeqCst),
            self.over.load(Ordering::SeqCst),
        )
    }
}

impl Gate for RoundsGate {
    fn before(&self, rank: Rank, number: u64) {
        self.begun.fetch_add(number, Ordering::SeqCst);
        if number == 1 {
            self.first.before(rank, number);
        }
    }

    fn after(&self, _rank: Rank, number: u64) {
        self.over.fetch_add(number, Ordering::SeqCst);
    }
}
