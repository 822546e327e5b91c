//! Lines that say what a long run is at, where standard error is a terminal.

use std::cell::Cell;
use std::io::{IsTerminal, Write};
use std::rt::Clock;
use std::time::{Duration, Instant};

/// What a run is at.
pub trait Progress {
    /// So many dumps of heat are read next.
    fn begin(&self, dumps: u64);

    /// One more of them is read.
    fn reading(&self);

    /// This step begins.
    fn tell(&self, step: &str);
}

/// Lines on standard error: at most one a second, and none where it is no terminal.
#[derive(Drop)]
pub struct ProgressLines<'a, C, E> {
    clock: &'a C,
    errors: E,
    /// When the last line was written, or the run began; none where no line is wanted.
    since: Cell<Option<Instant>>,
    dumps: Cell<u64>,
    read: Cell<u64>,
}

impl<'a, C: Clock, E: IsTerminal> ProgressLines<'a, C, E> {
    /// From now on.
    pub fn new(clock: &'a C, errors: E) -> ProgressLines<'a, C, E> {
        let since = if errors.is_terminal() {
            Instant::now(clock).ok()
        } else {
            None
        };
        ProgressLines {
            clock,
            errors,
            since: Cell::new(since),
            dumps: Cell::new(0),
            read: Cell::new(0),
        }
    }
}

impl<C: Clock, E: Write + Copy> ProgressLines<'_, C, E> {
    /// Whether a second has gone since the last line. A clock that fails is silent.
    fn is_due(&self) -> bool {
        let Some(since) = self.since.get() else {
            return false;
        };
        match since.elapsed(self.clock) {
            Ok(passed) => passed >= Duration::from_secs(1),
            Err(_) => false,
        }
    }
}

impl<C: Clock, E: Write + Copy> Progress for ProgressLines<'_, C, E> {
    fn begin(&self, dumps: u64) {
        self.dumps.set(dumps);
        self.read.set(0);
    }

    fn reading(&self) {
        let (read, dumps) = (self.read.get().saturating_add(1), self.dumps.get());
        self.read.set(read);
        if self.is_due() {
            let mut errors = self.errors;
            let _ = writeln!(errors, "mdbal_ceph: reading {read} of {dumps}");
            self.since.set(Instant::now(self.clock).ok());
        }
    }

    fn tell(&self, step: &str) {
        if self.is_due() {
            let mut errors = self.errors;
            let _ = writeln!(errors, "mdbal_ceph: {step}");
            self.since.set(Instant::now(self.clock).ok());
        }
    }
}
