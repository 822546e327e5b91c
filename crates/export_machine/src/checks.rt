//! Single causes for which an event is refused. No check changes anything or asks for memory.

ghost use Rattle.std.specs.Prelude.{◌≡◌, ℕ, ◌<◌, ◌∷◌, [], length, Some, None, OnOk};
ghost use Rattle.std.specs.Prelude.{not, nat_le, ◌==◌, ◌≢◌, true, false};
ghost use Rattle.std.specs.List.{list_all};
ghost use Rattle.export_protocol.specs.Authority.{is_present, authority, open_export, frozen_by};
ghost use Rattle.export_protocol.specs.Step.{no_dir, no_rank, no_export, rank_stopped, held, held_at};
ghost use Rattle.export_protocol.specs.Step.{authority_stopped, not_served, busy, not_yet, running_on, when};
ghost use Rattle.export_protocol.specs.Step.{history_limit, export_limit, is_root, is_child, any_at, cannot_leave};
ghost use Rattle.export_protocol.specs.Step.{least_fault};
ghost use Rattle.export_machine.specs.Kept.{cause_of, lesser};
ghost use Rattle.export_protocol.specs.declared.step_error.StepError.TheVariants.{HistoryFull, NoDir, NotEmpty};
ghost use Rattle.export_protocol.specs.declared.step_error.StepError.TheVariants.{IsRoot, TreeFull, SameRank};
ghost use Rattle.export_protocol.specs.declared.step_error.StepError.TheVariants.{ExportsFull};

use crate::cluster::Cluster;
use export_protocol::StepError;
use mds_types::{Dir, Rank};

/// How many events a cluster accepts.
const EVENT_LIMIT: u32 = 1_048_576;

/// How many exports can be started.
const EXPORT_LIMIT: u32 = 65_536;

fn refuse_if(test: bool, error: StepError) -> Result<(), StepError>
    ensures cause { cause_of result ≡ when test error }
    ensures passed { OnOk result (test ≡ false) }
{
    if test { Err(error) } else { Ok(()) }
}

impl Cluster {
    pub(crate) fn check_history(&self) -> Result<(), StepError>
        ensures { cause_of result ≡ when (nat_le history_limit self.now.world.events) HistoryFull }
    {
        refuse_if(self.records.events >= EVENT_LIMIT, StepError::HistoryFull)
    }

    pub(crate) fn check_dir(&self, dir: Dir) -> Result<(), StepError>
        ensures { cause_of result ≡ no_dir self.now.world dir }
    {
        refuse_if(!self.records.is_present(dir), StepError::NoDir)
    }

    pub(crate) fn check_rank(&self, rank: Rank) -> Result<(), StepError>
        ensures { cause_of result ≡ no_rank self.now.world rank }
    {
        refuse_if(rank.number() >= self.records.ranks, StepError::NoRank)
    }

    pub(crate) fn check_runs(&self, rank: Rank) -> Result<(), StepError>
        ensures { cause_of result ≡ rank_stopped self.now.world rank }
    {
        refuse_if(self.records.is_stopped(rank), StepError::Stopped(rank))
    }

    pub(crate) fn check_export(&self, export: u32) -> Result<(), StepError>
        ensures cause { cause_of result ≡ no_export self.now.world export }
        ensures near { OnOk result (export < length self.now.world.orders) }
    {
        refuse_if(
            export as usize >= self.records.exports.len(),
            StepError::NoExport,
        )
    }

    pub(crate) fn check_room(&self) -> Result<(), StepError>
        ensures { cause_of result ≡ when (nat_le self.now.world.limit (length self.now.world.parents)) TreeFull }
    {
        refuse_if(
            self.records.dirs.len() >= self.records.limit as usize,
            StepError::TreeFull,
        )
    }

    pub(crate) fn check_exports(&self) -> Result<(), StepError>
        ensures { cause_of result ≡ when (nat_le export_limit (length self.now.world.orders)) ExportsFull }
    {
        refuse_if(
            self.records.exports.len() >= EXPORT_LIMIT as usize,
            StepError::ExportsFull,
        )
    }

    pub(crate) fn check_dirs(&self, dirs: &[Dir]) -> Result<(), StepError>
        ensures cause { cause_of result ≡ when (not (list_all (is_present self.now.world) dirs.now)) NoDir }
        ensures present { OnOk result (list_all (is_present self.now.world) dirs.now ≡ true) }
    {
        refuse_if(!self.records.are_present(dirs), StepError::NoDir)
    }

    pub(crate) fn check_empty(&self, dir: Dir) -> Result<(), StepError>
        ensures { cause_of result ≡ when (any_at (is_child dir) self.now.world.parents) NotEmpty }
    {
        refuse_if(self.children(dir) != 0, StepError::NotEmpty)
    }

    fn check_can_leave(&self, from: Rank, dir: Dir) -> Result<(), StepError>
        ensures { cause_of result ≡ cannot_leave self.now.world from dir }
    {
        self.check_not_busy(dir)?;
        match self.authority(dir) {
            Some(authority) if authority == from => Ok(()),
            Some(authority) => Err(StepError::Elsewhere(authority)),
            None => Err(StepError::NoDir),
        }
    }

    /// Of the directories that can't leave the least is the answer.
    pub(crate) fn check_leaving(&self, from: Rank, dirs: &[Dir]) -> Result<(), StepError>
        requires { list_all (is_present self.now.world) dirs.now ≡ true }
        ensures { cause_of result ≡ least_fault self.now.world from dirs.now (length self.now.world.parents) }
    {
        let mut least: Option<Dir> = None;
        for dir in dirs {
            least = self.least_faulty(from, least, *dir);
        }
        match least {
            Some(dir) => self.check_can_leave(from, dir),
            None => Ok(()),
        }
    }

    /// The lesser of a faulty directory and the next one, where that is faulty.
    fn least_faulty(&self, from: Rank, least: Option<Dir>, dir: Dir) -> Option<Dir>
        ensures free { cannot_leave self.now.world from dir ≡ None → result ≡ least }
        ensures faulty { cannot_leave self.now.world from dir ≢ None → result ≡ Some (lesser least dir) }
    {
        if self.check_can_leave(from, dir).is_ok() {
            return least;
        }
        match least {
            Some(other) if other.number() < dir.number() => Some(other),
            _ => Some(dir),
        }
    }

    /// The answer is to be used only for a directory that has an authority.
    fn check_not_frozen(&self, dir: Dir) -> Result<(), StepError>
        ensures { (rank : ℕ) → authority self.now.world dir ≡ Some rank
            → cause_of result ≡ held (frozen_by self.now.world rank dir) }
    {
        match self.frozen_by(dir) {
            Some(export) => Err(StepError::Frozen(export)),
            None => Ok(()),
        }
    }

    pub(crate) fn check_held(&self, dir: Dir) -> Result<(), StepError>
        ensures { cause_of result ≡ held_at self.now.world dir (authority self.now.world dir) }
    {
        match self.authority(dir) {
            Some(_) => self.check_not_frozen(dir),
            None => Err(StepError::NoDir),
        }
    }

    pub(crate) fn check_authority_runs(&self, dir: Dir) -> Result<(), StepError>
        ensures { cause_of result ≡ authority_stopped self.now.world (authority self.now.world dir) }
    {
        match self.authority(dir) {
            Some(rank) => self.check_runs(rank),
            None => Err(StepError::NoDir),
        }
    }

    pub(crate) fn check_not_busy(&self, dir: Dir) -> Result<(), StepError>
        ensures { cause_of result ≡ busy (open_export self.now.world dir) }
    {
        match self.open_export(dir) {
            Some(export) => Err(StepError::Busy(export)),
            None => Ok(()),
        }
    }

    pub(crate) fn check_idle(&self, dir: Dir) -> Result<(), StepError>
        ensures { cause_of result ≡ not_yet (running_on self.now.world (dir ∷ [])) }
    {
        match self.running_on(dir) {
            0 => Ok(()),
            requests => Err(StepError::NotYet(requests)),
        }
    }

    pub(crate) fn check_served(&self, rank: Rank, dir: Dir) -> Result<(), StepError>
        ensures { cause_of result ≡ not_served self.now.world rank dir (authority self.now.world dir) }
    {
        match self.authority(dir) {
            None => Err(StepError::NoDir),
            Some(authority) if authority != rank => Err(StepError::Elsewhere(authority)),
            Some(_) => self.check_not_frozen(dir),
        }
    }
}

pub(crate) fn check_not_root(dir: Dir) -> Result<(), StepError>
    ensures { cause_of result ≡ when (is_root dir) IsRoot }
{
    refuse_if(dir.number() == 0, StepError::IsRoot)
}

pub(crate) fn check_different(from: Rank, to: Rank) -> Result<(), StepError>
    ensures { cause_of result ≡ when (from == to) SameRank }
{
    refuse_if(from.number() == to.number(), StepError::SameRank)
}
