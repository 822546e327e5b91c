//! Plans what was collected.
ghost use Rattle.std.specs.Prelude.{◌≡◌, ◌≤◌, ◌+◌, All, IfErr, IfOk, IsOkAnd, length, map, min, string_bytes};
ghost use Rattle.std.specs.Option.{option_map};
ghost use Rattle.ceph_dumps.specs.PathList.{path_bytes};
ghost use Rattle.ceph_folding.specs.Folding.{AreHoursFolded, AreHoursOf, IsFolded, StillKept};
ghost use Rattle.ceph_folding.specs.TooMany.{AreTooMany};
ghost use Rattle.ceph_snapshot.specs.Growth.{IsGrowthError};
ghost use Rattle.ceph_snapshot.specs.Holding.{AreParentsFirst};
ghost use Rattle.ceph_snapshot.specs.Snapshots.{IsSnapshot};
ghost use Rattle.mdbal_ceph.specs.NotMade.{AreTooManyForUnits, IsDecisionFault, IsNotPlanned, IsUsableFault};
ghost use Rattle.mdbal_ceph.specs.Options.{wanted_by};
ghost use Rattle.mdbal_ceph.specs.Outcomes.{AreFreeHeats, AreUnitHours, AreUnits, IsDecision, IsOutcome};
ghost use Rattle.mdbal_ceph.specs.Outcomes.{hours_named};
ghost use Rattle.mdbal_ceph.specs.Past.{AreOfFileSystem};
ghost use Rattle.mdbal_ceph.specs.Usable.{AreUsable};

use crate::collected::Collected;
use crate::hours::{PastHour, given_hours, past_heats, past_hours};
use crate::input::{mask_of, ranks_of};
use crate::no_result::{NoPlan, NoResult};
use crate::past::{EarlierHour, refuse_others};
use crate::planning::{PlanAsked, plan_hours};
use crate::settings::PlanSettings;
use ceph_dumps::{FileSystem, FileSystemRanks};
use ceph_folding::{fold, fold_to_units};
use ceph_pins::{Advice, advised, own_pins, unit_marks};
use ceph_plan::{Proposal, Wanted, heats_bound, one_hour};
use ceph_report::{HottestDirectory, PlannedHour, Sums, goals_of, hottest_of, sums_of};
use ceph_snapshot::{Directory, Held, SnapshotError, free_heats, held_heat, holds, rows_of};
use mds_types::limits::DIR_LIMIT;
use mds_types::{Rank, RankSet};
use std::alloc::{AllocError, Global};

/// What was decided for directories.
#[derive(Drop)]
pub struct Decision {
    /// What holds each directory.
    pub holds: Vec<Held>,
    /// The heat that is held at each rank, in thousandths.
    pub pinned: Vec<u64>,
    /// The plan, and the changes of pins.
    pub proposal: Proposal,
    /// The hours that it is for, that of now first.
    pub hours: Vec<PlannedHour>,
    /// The names of the hours that were given, and not planned for.
    pub left: Vec<Vec<u8>>,
    /// The rank that each directory is to be at.
    pub goals: Vec<Rank>,
    /// What each rank has now, and what comes and goes.
    pub sums: Sums,
}

/// What was planned, and of what.
#[derive(Drop)]
pub(crate) struct Outcome {
    /// Which file system it is of.
    pub file_system: FileSystem,
    /// How many ranks the file system is to have.
    pub size: u8,
    /// The ranks that are in the file system.
    pub there: RankSet,
    /// Those of them whose daemons are active.
    pub active: RankSet,
    /// The ranks that may have a part.
    pub ranks: RankSet,
    /// Whether Ceph's balancer is on.
    pub balances: bool,
    /// How many samples of heat each rank gave.
    pub samples: u64,
    /// The directories that were planned.
    pub directories: Vec<Directory>,
    /// How many directories were folded into their parents before.
    pub folded: usize,
    /// What was decided for them.
    pub decision: Decision,
    /// The hottest of the collected directories that nothing holds.
    pub hottest: HottestDirectory,
    /// What Ceph's policy of distributed pins on a collected directory of many hot children would give.
    pub advice: Option<Advice>,
    /// What no assignment of the collected directories to the ranks can get below, in thousandths of heat.
    pub bound: u64,
}

/// The ranks that may have a part.
fn usable(settings: &PlanSettings, cluster: &FileSystemRanks) -> Result<RankSet, NoResult>
    ensures ranks { IfOk result (AreUsable settings.now.mask (option_map string_bytes cluster.now.mask) cluster.now) }
    ensures failed { IfErr result (IsUsableFault settings.now.mask (option_map string_bytes cluster.now.mask)
        cluster.now) }
{
    let Some(mask) = mask_of(settings.mask, cluster.mask.as_deref()) else {
        return Err(NoResult::NoPlan(NoPlan::BadMask));
    };
    if settings.mask.is_none() && !mask.has(Rank::default()) {
        return Err(NoResult::NoPlan(NoPlan::MaskWithoutZero));
    }
    if !cluster.active.has(Rank::default()) {
        return Err(NoResult::NoPlan(NoPlan::ZeroNotActive));
    }
    Ok(ranks_of(mask, cluster))
}

/// What plan is wanted. While Ceph's balancer is off, what has no pin stays where it is.
fn wanted_by(settings: &PlanSettings, balances: bool) -> Wanted
    ensures { result ≡ wanted_by settings.now balances }
{
    Wanted {
        parts: settings.parts,
        keep: settings.keep,
        most_inodes: settings.most_inodes.unwrap_or(u64::MAX),
        rests: !balances,
    }
}

/// What plan is asked for.
fn asked_by<'a>(
    settings: &PlanSettings,
    balances: bool,
    ranks: RankSet,
    names: &'a [&'a str],
) -> PlanAsked<'a>
    ensures wanted { result.wanted ≡ wanted_by settings.now balances }
    ensures ranks { result.ranks ≡ ranks }
    ensures names { result.names.now ≡ names.entry.now }
    ensures chosen { result.chosen ≡ settings.now.past.hours }
    ensures made { result.made ≡ settings.now.past.made }
{
    PlanAsked {
        wanted: wanted_by(settings, balances),
        ranks,
        names,
        chosen: settings.past.hours,
        made: settings.past.made,
    }
}

/// Plans directories. `spread[r]` is the heat at rank r of what is spread. What is in `leave` is left. `past` are the
/// earlier hours.
fn decided(
    alloc: Global,
    asked: &PlanAsked<'_>,
    directories: &[Directory],
    spread: &[u64],
    leave: &[Vec<u8>],
    past: &[PastHour<'_>],
) -> Result<Decision, NoResult>
    requires spread { length spread.now ≡ 64 }
    requires heats { All (λ hour. length hour.heats.items ≡ length directories.now) past.now }
    requires spreads { All (λ hour. length hour.spread.now ≡ 64) past.now }
    ensures decision { IfOk result (IsDecision directories.now spread.now (path_bytes leave.now) past.now asked.now) }
    ensures failed { IfErr result (IsDecisionFault directories.now spread.now (path_bytes leave.now) past.now
        asked.now) }
{
    let holds = holds(alloc, directories)?;
    let held = holds.as_slice();
    let pinned = held_heat(alloc, directories, held, spread)?;
    let rows = rows_of(alloc, directories, held)?;
    let own = own_pins(alloc, directories, leave)?;
    let present = one_hour(alloc, &rows, &pinned)?;
    let given = given_hours(alloc, directories, held, present, past)?;
    let plan = plan_hours(alloc, asked, directories, held, &rows, &own, &given)?;
    let goals = goals_of(alloc, held, &plan.proposal.rows)?;
    let sums = sums_of(alloc, directories, held, &goals, spread)?;
    Ok(Decision {
        holds,
        pinned,
        proposal: plan.proposal,
        hours: plan.hours,
        left: plan.left,
        goals,
        sums,
    })
}

/// The directories that are planned one by one, and how many others were folded into them. Where subvolumes are pinned
/// by Ceph's own commands, these are the subvolumes and their groups.
fn units(
    alloc: Global,
    subvolumes: bool,
    directories: Vec<Directory>,
    hours: &mut Vec<Vec<u64>>,
) -> Result<(Vec<Directory>, usize), SnapshotError>
    requires { AreHoursOf (length directories.items) hours.old.items }
    ensures hours { IfOk result (λ found. AreUnitHours subvolumes directories.items found.0.items hours.old.items
        hours.new.items) }
    ensures sizes { IfOk result (λ found. AreHoursOf (length found.0.items) hours.new.items) }
    ensures units { IfOk result (λ found. AreUnits subvolumes directories.items found.0.items) }
    ensures kept { IfOk result (λ found. StillKept directories.items found.0.items) }
    ensures count { IfOk result (λ found. length found.0.items + found.1 ≡ length directories.items) }
    ensures first { AreParentsFirst directories.items → IfOk result (λ found. AreParentsFirst found.0.items) }
    ensures many { AreParentsFirst directories.items
        → IfErr result (IsGrowthError (AreTooManyForUnits subvolumes directories.items hours.old.items)) }
{
    if !subvolumes {
        return Ok((directories, 0));
    }
    let marks = unit_marks(alloc, &directories)?;
    fold_to_units(alloc, directories, &marks, hours)
}

/// At most as many directories as the planner takes, with the coldest folded into those above them, and how many were
/// folded.
fn folded(
    alloc: Global,
    directories: Vec<Directory>,
    hours: &mut Vec<Vec<u64>>,
) -> Result<(Vec<Directory>, usize), SnapshotError>
    requires { AreHoursOf (length directories.items) hours.old.items }
    ensures hours { IfOk result (λ found.
        AreHoursFolded directories.items found.0.items hours.old.items hours.new.items) }
    ensures sizes { IfOk result (λ found. AreHoursOf (length found.0.items) hours.new.items) }
    ensures few { IfOk result (λ found. length found.0.items ≡ min (length directories.items) DIR_LIMIT) }
    ensures folded { IfOk result (λ found. IsFolded directories.items found.0.items) }
    ensures kept { IfOk result (λ found. StillKept directories.items found.0.items) }
    ensures same { length directories.items ≤ DIR_LIMIT
        → IsOkAnd result (λ found. found.0.items ≡ directories.items) }
    ensures count { IfOk result (λ found. length found.0.items + found.1 ≡ length directories.items) }
    ensures many { AreParentsFirst directories.items
        → IfErr result (IsGrowthError (AreTooMany directories.items DIR_LIMIT hours.old.items)) }
{
    fold(alloc, directories, DIR_LIMIT as usize, hours)
}

/// The heat of each directory that nothing holds, as it was collected.
fn collected_heats(alloc: Global, directories: &[Directory]) -> Result<Vec<u64>, AllocError>
    requires { AreParentsFirst directories.now }
    ensures { IfOk result (λ heats. AreFreeHeats directories.now heats.items) }
{
    let holds = holds(alloc, directories)?;
    free_heats(alloc, directories, &holds)
}

/// The names of the hours that are given: that of now first.
fn hour_names<'a>(alloc: Global, settings: &PlanSettings<'a>) -> Result<Vec<&'a str>, AllocError>
    ensures { IfOk result (λ names. map (λ name. name.now) names.items ≡ hours_named settings.now) }
{
    let mut names = Vec::new(alloc);
    names.push(settings.folder)?;
    names.extend_from_slice(&settings.past.earlier)?;
    Ok(names)
}

/// Plans what was collected, for its hour and these earlier ones, and leaves these directories where they are.
pub fn planned(
    alloc: Global,
    settings: &PlanSettings,
    collected: Collected,
    earlier: &[EarlierHour<'_>],
    leave: &[Vec<u8>],
) -> Result<Outcome, NoResult>
    requires snapshot { IsSnapshot collected.snapshot }
    requires spread { All (λ hour. length hour.kept.spread.items ≡ 64) earlier.now }
    ensures outcome { IfOk result (IsOutcome collected.snapshot.directories.items collected.snapshot.spread.items
        (path_bytes leave.now) earlier.now settings.now (wanted_by settings.now collected.balances)) }
    ensures same { IfOk result (λ _. AreOfFileSystem collected.file_system earlier.now) }
    ensures ranks { IfOk result (λ outcome. AreUsable settings.now.mask
        (option_map string_bytes collected.cluster.mask) collected.cluster outcome.ranks) }
    ensures there { IfOk result (λ outcome. outcome.there ≡ collected.cluster.ranks) }
    ensures active { IfOk result (λ outcome. outcome.active ≡ collected.cluster.active) }
    ensures file_system { IfOk result (λ outcome. outcome.file_system ≡ collected.file_system) }
    ensures size { IfOk result (λ outcome. outcome.size ≡ collected.cluster.size) }
    ensures balances { IfOk result (λ outcome. outcome.balances ≡ collected.balances) }
    ensures samples { IfOk result (λ outcome. outcome.samples ≡ collected.samples) }
    ensures failed { IfErr result (IsNotPlanned settings.now collected earlier.now (path_bytes leave.now)) }
{
    let Collected {
        file_system,
        cluster,
        balances,
        samples,
        own: _,
        snapshot,
    } = collected;
    refuse_others(alloc, earlier, &file_system)?;
    let ranks = usable(settings, &cluster)?;
    let spread = snapshot.spread;
    let mut hours = past_heats(alloc, &snapshot.directories, earlier)?;
    let heats = collected_heats(alloc, &snapshot.directories)?;
    let hottest = hottest_of(alloc, &snapshot.directories, &heats)?;
    let advice = advised(alloc, &snapshot.directories, &heats, cluster.size)?;
    let (units, others) = units(alloc, settings.subvolumes, snapshot.directories, &mut hours)?;
    let (directories, colder) = folded(alloc, units, &mut hours)?;
    let folded = others + colder;
    let names = hour_names(alloc, settings)?;
    let past = past_hours(alloc, earlier, &hours)?;
    let asked = asked_by(settings, balances, ranks, &names);
    let decision = decided(alloc, &asked, &directories, &spread, leave, &past)?;
    let bound = heats_bound(&heats, &decision.pinned, ranks);
    Ok(Outcome {
        file_system,
        size: cluster.size,
        there: cluster.ranks,
        active: cluster.active,
        ranks,
        balances,
        samples,
        directories,
        folded,
        decision,
        hottest,
        advice,
        bound,
    })
}
