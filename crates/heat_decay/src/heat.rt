//! A heat for each directory number.
//!
//! A deposit of n accesses makes a heat `min(2^40, heat + n)`, a tick makes it `heat / 2`, rounded
//! down. So a directory that nobody uses is cold after 41 ticks. The heat of a set of directories
//! is the sum: a directory's own heat doesn't hold that of the directories below it. After the
//! decaying counters of Weil et al., "Ceph", OSDI 2006.
//!
//! Kept are a directory's heat as the last deposit left it and the tick of that deposit. The halvings
//! since are made where the heat is read, so a tick takes no longer with more directories.

ghost use Rattle.std.specs.Prelude.{◌≡◌, ◌<◌, ◌≤◌, ◌^◌};

use crate::ticks_full::TicksFull;
use crate::touch::Touch;
use mds_types::Dir;
use mds_types::limits::{DIR_LIMIT, HEAT_LIMIT};
use std::alloc::{AllocError, Global};
use std::marker::Model;

/// How many ticks the heats can make.
pub const TICK_LIMIT: u64 = 1 << 40;

/// The heats of the directories whose numbers are below a limit. A contract sees the limit, the
/// number of ticks made, the heats, in accesses, by number, and how each heat was left.
#[derive(Drop)]
pub struct Heat {
    limit: u32,
    ticks: u64,
    touches: Vec<Touch>,
}

impl Model for Heat {
    ghost use Rattle.heat_decay.specs.Heat.{AreKept, Heats, heats_of};

    ghost Value = { Heats };

    ghost view = { λ heat. heats_of heat.limit heat.ticks heat.touches.items };

    ghost invariant = { λ heat. AreKept heat.limit heat.ticks heat.touches.items };
}

impl Heat {
    ghost use Rattle.std.specs.Prelude.{◌+◌, ◌-◌, ◌/◌, ◌↔◌, All, IfOk, IsErr, OnOk, OnErr};
    ghost use Rattle.std.specs.Prelude.{length, map, slice_index, slice_index_or};
    ghost use Rattle.heat_decay.specs.Heat.{Heats, after_deposit, after_tick, all_cold, touched};

    /// No directory has heat, and no tick was made. It takes all memory that the heats will need.
    pub fn new(alloc: Global, limit: u32) -> Result<Heat, AllocError>
        requires limit { (1 ≤ limit) × (limit ≤ DIR_LIMIT) }
        ensures { IfOk result (λ heat. heat ≡ all_cold limit 0) }
    {
        Heat::resumed(alloc, limit, 0)
    }

    /// No directory has heat after `ticks` ticks. It takes all memory that the heats will need.
    pub fn resumed(alloc: Global, limit: u32, ticks: u64) -> Result<Heat, AllocError>
        requires limit { (1 ≤ limit) × (limit ≤ DIR_LIMIT) }
        requires ticks { ticks ≤ 2 ^ 40 }
        ensures { IfOk result (λ heat. heat ≡ all_cold limit ticks) }
    {
        let cold = Touch {
            heat: 0,
            tick: ticks,
        };
        let touches = vec![in alloc; cold; limit as usize]?;
        Ok(Heat {
            limit,
            ticks,
            touches,
        })
    }

    /// Gives a directory a heat now.
    fn touch(&mut self, dir: Dir, heat: u64)
        requires dir { dir < self.old.limit }
        requires cool { heat ≤ 2 ^ 40 }
        ensures heats { self.new ≡ touched self.old dir heat }
        ensures here { slice_index self.new.heats dir ≡ heat }
    {
        let tick = self.ticks;
        self.touches[dir.number() as usize] = Touch { heat, tick };
    }

    /// Adds accesses to a directory's heat, which is cut off at the greatest heat.
    pub fn add(&mut self, dir: Dir, accesses: u128)
        requires { dir < self.old.limit }
        ensures heats { self.new ≡ touched self.old dir (after_deposit (slice_index self.old.heats dir) accesses) }
        ensures here { slice_index self.new.heats dir ≡ after_deposit (slice_index self.old.heats dir) accesses }
    {
        let room = HEAT_LIMIT - self.heat(dir);
        let more = accesses.min(u128::from(room)) as u64;
        self.touch(dir, HEAT_LIMIT - room + more);
    }

    /// Halves all heats. It goes to no directory: what is kept of each stays as it was.
    pub fn tick(&mut self) -> Result<(), TicksFull>
        ensures ok { OnOk result (self.new
            ≡ record self.old { ticks = self.old.ticks + 1; heats = map after_tick self.old.heats }) }
        ensures full { IsErr result ↔ (2 ^ 40 ≤ self.old.ticks) }
        ensures err { OnErr result (self.new ≡ self.old) }
    {
        if self.ticks >= TICK_LIMIT {
            return Err(TicksFull);
        }
        self.ticks += 1;
        Ok(())
    }

    /// Makes a directory cold, as one that was just made.
    pub fn clear(&mut self, dir: Dir)
        requires { dir < self.old.limit }
        ensures heats { self.new ≡ touched self.old dir 0 }
        ensures here { slice_index self.new.heats dir ≡ 0 }
    {
        self.touch(dir, 0);
    }

    /// The heat of a directory, in accesses.
    pub fn heat(&self, dir: Dir) -> u64
        requires { dir < self.now.limit }
        ensures value { result ≡ slice_index self.now.heats dir }
        ensures limited { result ≤ 2 ^ 40 }
    {
        let touch = self.touches[dir.number() as usize];
        touch.cooled(self.ticks)
    }

    /// A directory's heat as the last deposit or `clear` left it, in accesses, and how many ticks had
    /// been made by then: 0 and the ticks at the opening where there was none.
    pub fn kept(&self, dir: Dir) -> (u64, u64)
        requires { dir < self.now.limit }
        ensures kept { record { heat = result.0; tick = result.1 }
            ≡ slice_index_or self.now.kept dir (record { heat = result.0; tick = result.1 }) }
        ensures heat { slice_index self.now.heats dir ≡ result.0 / 2 ^ (self.now.ticks - result.1) }
        ensures past { result.1 ≤ self.now.ticks }
    {
        let Touch { heat, tick } = self.touches[dir.number() as usize];
        (heat, tick)
    }

    /// The number from which on directories have no heat here.
    pub fn limit(&self) -> u32
        ensures value { result ≡ self.now.limit }
        ensures size { (length self.now.heats ≡ self.now.limit) × (length self.now.kept ≡ self.now.limit) }
        ensures cool { All (λ heat. heat ≤ 2 ^ 40) self.now.heats }
        ensures ticks { self.now.ticks ≤ 2 ^ 40 }
    {
        self.limit
    }
}
