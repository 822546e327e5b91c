//! How a heat was left by the last call that touched it.
ghost use Rattle.std.specs.Prelude.{◌≡◌, ◌≤◌, ◌^◌};
ghost use Rattle.heat_decay.specs.Heat.{cooled};

/// A directory's heat in accesses, and the tick at which it had it.
#[derive(Clone, Copy)]
pub struct Touch {
    pub heat: u64,
    pub tick: u64,
}

impl Touch {
    /// What is left of it after `ticks` ticks in all. After 41 ticks more nothing is.
    pub fn cooled(self, ticks: u64) -> u64
        requires past { self.tick ≤ ticks }
        requires cool { self.heat ≤ 2 ^ 40 }
        ensures { result ≡ cooled ticks self }
    {
        let age = ticks - self.tick;
        if age > 40 { 0 } else { self.heat >> age }
    }
}
