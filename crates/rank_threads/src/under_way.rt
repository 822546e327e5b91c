//! The turns of a round that are under way.

use std::sync::{Condvar, Mutex, Wait};

/// How many turns of a round are under way.
#[derive(Drop)]
pub(crate) struct UnderWay {
    count: Mutex<usize>,
    none: Condvar,
}

impl UnderWay {
    pub(crate) fn new() -> UnderWay {
        UnderWay {
            count: Mutex::new(0),
            none: Condvar::new(),
        }
    }

    /// A turn begins.
    pub(crate) fn begin<R: Wait>(&self, rt: &R) {
        let mut count = self.count.lock(rt);
        *count = count.saturating_add(1);
    }

    /// A turn is over.
    pub(crate) fn end<R: Wait>(&self, rt: &R) {
        if self.left(rt) == 0 {
            self.none.notify_one();
        }
    }

    // Takes one away, and says how many are left.
    fn left<R: Wait>(&self, rt: &R) -> usize {
        let mut count = self.count.lock(rt);
        *count = count.saturating_sub(1);
        *count
    }

    /// Waits until no turn is under way.
    pub(crate) fn wait<R: Wait>(&self, rt: &R) {
        let _none = self
            .none
            .wait_while(rt, self.count.lock(rt), |count| *count != 0);
    }
}
