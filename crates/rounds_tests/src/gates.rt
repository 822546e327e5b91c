//! Gates at which threads wait or give way, each for requests and for rounds: the numbers of requests begin at 0, and
//! those of rounds at 1.

use mds_types::Rank;
use phased_board::Gate;
use std::sync::atomic::{AtomicU64, Ordering};
use std::thread;

/// How often a thread gives way at most, until it goes on without the others.
const TURNS: u64 = 100_000_000;

/// In each round the ranks take their turns one after the other, from rank 0 on. A gate serves for one phase.
#[derive(Drop)]
pub(crate) struct InTurnGate {
    ranks: u64,
    over: AtomicU64,
}

impl InTurnGate {
    /// No turn is over, on a board of so many ranks.
    pub(crate) fn new(ranks: u8) -> InTurnGate {
        InTurnGate {
            ranks: u64::from(ranks),
            over: AtomicU64::new(0),
        }
    }
}

impl Gate for InTurnGate {
    fn before(&self, rank: Rank, number: u64) {
        let rounds = number.wrapping_sub(1);
        let earlier = rounds
            .wrapping_mul(self.ranks)
            .wrapping_add(u64::from(rank.number()));
        for _ in 0..TURNS {
            if self.over.load(Ordering::SeqCst) == earlier {
                return;
            }
            thread::yield_now();
        }
    }

    fn after(&self, _rank: Rank, _number: u64) {
        self.over.fetch_add(1, Ordering::SeqCst);
    }
}

/// Threads give way now and then.
pub(crate) struct JitterGate;

impl Gate for JitterGate {
    fn before(&self, rank: Rank, number: u64) {
        if number.wrapping_add(u64::from(rank.number())) % 2 == 0 {
            thread::yield_now();
        }
    }

    fn after(&self, rank: Rank, number: u64) {
        if number.wrapping_add(u64::from(rank.number())) % 3 == 0 {
            thread::yield_now();
        }
    }
}

/// The first request of rank 0's thread runs through all rounds: the first round of the rank waits for the request's
/// begin, and the request for the end of the rank's last round.
#[derive(Drop)]
pub(crate) struct HeldGate {
    begun: AtomicU64,
    over: AtomicU64,
    met: AtomicU64,
}

impl HeldGate {
    /// Nobody came.
    pub(crate) fn new() -> HeldGate {
        HeldGate {
            begun: AtomicU64::new(0),
            over: AtomicU64::new(0),
            met: AtomicU64::new(0),
        }
    }

    /// How many saw what they waited for.
    pub(crate) fn met(&self) -> u64 {
        self.met.load(Ordering::SeqCst)
    }

    fn wait(&self, other: &AtomicU64) {
        for _ in 0..TURNS {
            if other.load(Ordering::SeqCst) > 0 {
                self.met.fetch_add(1, Ordering::SeqCst);
                return;
            }
            thread::yield_now();
        }
    }
}

impl Gate for HeldGate {
    fn before(&self, rank: Rank, number: u64) {
        match (rank.number(), number) {
            (0, 0) => {
                self.begun.store(1, Ordering::SeqCst);
                self.wait(&self.over);
            }
            (0, 1) => self.wait(&self.begun),
            _ => {}
        }
    }

    fn after(&self, rank: Rank, number: u64) {
        if rank.number() == 0 && number == 8 {
            self.over.store(1, Ordering::SeqCst);
        }
    }
}
