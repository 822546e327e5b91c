//! What is reported of a plan, as text and as JSON.
ghost use Rattle.std.specs.Prelude.{◌≡◌, ◌<◌, IfOk, slice_index};
ghost use Rattle.mds_types.specs.RankSet.{has_rank};
ghost use Rattle.ceph_report.specs.Told.{IsHottest, heat_of_ranks, bound_term, free_heat, hottest, hottest_bound};
ghost use Rattle.ceph_report.specs.Told.{hottest_now, hottest_place, hottest_planned, is_over, is_told};
ghost use Rattle.ceph_report.specs.Told.{least_pinned, single_load};

use crate::hours::PlannedHour;
use crate::moves::{Move, Sums};
use crate::roots::Roots;
use crate::staying::Stay;
use ceph_pins::Advice;
use ceph_plan::{PinRow, Planned};
use ceph_snapshot::{Directory, Held};
use mds_types::limits::RANK_LIMIT;
use mds_types::{Rank, RankSet};
use std::alloc::{AllocError, Global};

/// What is reported of a plan.
#[derive(Clone, Copy)]
pub struct Facts<'a> {
    /// The directories that were planned.
    pub directories: &'a [Directory],
    /// What holds each of them.
    pub holds: &'a [Held],
    /// How many directories were folded into their parents before.
    pub folded: usize,
    /// How many samples of heat there are.
    pub samples: u64,
    /// How many ranks the file system is to have (`max_mds`).
    pub size: u8,
    /// The ranks that are in the file system.
    pub there: RankSet,
    /// Those of them whose daemons are active.
    pub active: RankSet,
    /// The ranks that may have a part.
    pub ranks: RankSet,
    /// Whether Ceph's balancer is on.
    pub balances: bool,
    /// The plan.
    pub plan: &'a Planned,
    /// The heat of each rank as planned, in thousandths.
    pub planned: &'a [u64],
    /// The hours that were planned for, that of now first.
    pub hours: &'a [PlannedHour],
    /// The names of the hours that were given, and not planned for.
    pub left_hours: &'a [Vec<u8>],
    /// What no assignment of the collected directories to the ranks that may have a part can get below, in thousandths.
    pub bound: u64,
    /// What each rank has now, and what comes and goes.
    pub sums: &'a Sums,
    /// The heat that is held at each rank by pins of others, in thousandths.
    pub pinned: &'a [u64],
    /// The hottest of the collected directories that nothing holds.
    pub hottest: &'a HottestDirectory,
    /// What Ceph's policy of distributed pins on one of these would give, where that has many hot children.
    pub advice: Option<&'a Advice>,
    /// How many roots of subtrees each rank has.
    pub roots: &'a Roots,
    /// What each new pin brings.
    pub moves: &'a [Move],
    /// Each directory's parent, pins and target, as they were planned.
    pub rows: &'a [PinRow],
    /// The rank that each directory is to be at.
    pub goals: &'a [Rank],
    /// Of each directory whether it is left where it is, and why.
    pub stays: &'a [Option<Stay>],
    /// How many changes of pins there are.
    pub changes: usize,
    /// How many pins of an earlier plan stay as they are.
    pub standing: usize,
    /// Whether there is so little heat that nothing is proposed and no ratio means anything.
    pub is_idle: bool,
    /// Whether the plan moves no more inodes than it may, and leaves what is to be left.
    pub is_within: bool,
}

/// A directory that is hottest.
#[derive(Drop)]
pub struct HottestDirectory {
    /// Its path.
    pub path: Vec<u8>,
    /// Its heat, in thousandths.
    pub heat: u64,
}

/// Which of its terms makes the bound.
#[derive(Clone, Copy)]
pub(crate) enum BoundTerm {
    /// The mean load of the ranks.
    Mean,
    /// The hottest directory, at the rank to which least is pinned.
    Hottest,
    /// What is pinned to one rank.
    Pinned,
}

/// The heat of the hottest rank, in thousandths, where `heats[r]` is the heat of rank r.
pub fn hottest(heats: &[u64]) -> u64
    ensures { result ≡ hottest heats.now }
{
    let mut greatest = 0;
    for heat in heats {
        greatest = (*heat).max(greatest);
    }
    greatest
}

/// The place of the greatest number, the first one of several.
fn greatest_place(numbers: &[u64]) -> usize
    ensures { result ≡ hottest_place numbers.now }
{
    let mut greatest = 0;
    for at in 0..numbers.len() {
        if numbers.get(greatest).copied().unwrap_or(0) < numbers[at] {
            greatest = at;
        }
    }
    greatest
}

/// The hottest of directories that have these heats.
pub fn hottest_of(
    alloc: Global,
    directories: &[Directory],
    heats: &[u64],
) -> Result<HottestDirectory, AllocError>
    ensures { IfOk result (IsHottest directories.now heats.now) }
{
    let place = greatest_place(heats);
    let path = match directories.get(place) {
        Some(directory) => directory.path.as_slice().to_vec(alloc)?,
        None => Vec::new(alloc),
    };
    let heat = heats.get(place).copied().unwrap_or(0);
    Ok(HottestDirectory { path, heat })
}

/// The number at a place, 0 where there is none.
pub(crate) fn number_at(numbers: &[u64], at: u8) -> u64
    ensures { result ≡ slice_index numbers.now at }
{
    numbers.get(usize::from(at)).copied().unwrap_or(0)
}

impl Facts<'_> {
    /// The heat of the hottest rank now, in thousandths.
    pub(crate) fn hottest_now(&self) -> u64
        ensures { result ≡ hottest_now self.now }
    {
        hottest(&self.sums.now)
    }

    /// The heat of the hottest rank as planned, in thousandths.
    pub(crate) fn hottest_planned(&self) -> u64
        ensures { result ≡ hottest_planned self.now }
    {
        hottest(self.planned)
    }

    /// What the hottest of all ranks can't get below, in thousandths: the bound of the ranks that may have a part, and
    /// the most that is pinned to any rank.
    pub(crate) fn hottest_bound(&self) -> u64
        ensures { result ≡ hottest_bound self.now }
    {
        self.bound.max(hottest(self.pinned))
    }

    /// The heat of a directory that is planned, in thousandths; 0 of one that is held.
    pub(crate) fn free_heat(&self, at: usize) -> u64
        ensures { result ≡ free_heat self.now at }
    {
        match (self.holds.get(at), self.directories.get(at)) {
            (Some(Held::Pinned(_) | Held::Spread(_)), _) | (_, None) => 0,
            (_, Some(directory)) => directory.heat,
        }
    }

    /// The heat at all ranks now, in thousandths.
    pub(crate) fn heat_now(&self) -> u128
        ensures { result ≡ heat_of_ranks self.now 64 }
    {
        let mut all = 0u128;
        for number in 0..RANK_LIMIT {
            all += u128::from(number_at(&self.sums.now, number));
        }
        all
    }

    /// Whether a directory that is planned is hotter than a fair share of all this heat for each rank.
    pub(crate) fn is_over(&self, all: u128, at: usize) -> bool
        ensures { result ≡ is_over self.now all at }
    {
        u128::from(self.free_heat(at)) * u128::from(self.ranks.len()) > all
    }

    /// The least heat that is pinned to a rank that may have a part, in thousandths.
    fn least_pinned(&self) -> u64
        ensures { result ≡ least_pinned self.now 64 }
    {
        let mut least = u64::MAX;
        for number in 0..RANK_LIMIT {
            if has_number(self.ranks, number) {
                least = number_at(self.pinned, number).min(least);
            }
        }
        least
    }

    /// The heat of the hottest directory with the least that is pinned to a rank.
    #[tactic(auto, unfolding(crate::specs::Told::single_load))]
    fn single_load(&self) -> u64
        ensures { result ≡ single_load self.now }
    {
        self.hottest.heat.saturating_add(self.least_pinned())
    }

    /// Which of its terms makes the bound.
    #[tactic(auto, unfolding(crate::specs::Told::bound_term))]
    pub(crate) fn bound_term(&self) -> BoundTerm
        ensures { result ≡ bound_term self.now }
    {
        let bound = self.hottest_bound();
        if bound <= hottest(self.pinned) {
            BoundTerm::Pinned
        } else if bound == self.single_load() {
            BoundTerm::Hottest
        } else {
            BoundTerm::Mean
        }
    }

    /// Whether a rank is reported: it may have a part, or something is there now.
    pub(crate) fn is_told(&self, number: u8) -> bool
        requires { number < 64 }
        ensures { result ≡ is_told self.now number }
    {
        number_at(&self.sums.now, number) > 0 || has_number(self.ranks, number)
    }
}

/// Whether the set has the rank of this number.
pub(crate) fn has_number(ranks: RankSet, number: u8) -> bool
    ensures { result ≡ has_rank ranks number }
{
    match Rank::new(number) {
        Some(rank) => ranks.has(rank),
        None => false,
    }
}
