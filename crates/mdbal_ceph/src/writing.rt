//! What is written of a plan: the text for standard output, and the files.
ghost use Rattle.std.specs.Prelude.{◌≡◌, IfErr, IfOk, is_some, true};
ghost use Rattle.mdbal_ceph.specs.NotMade.{IsWritingFault};
ghost use Rattle.ceph_report.specs.Staying.{AreStays};
ghost use Rattle.mdbal_ceph.specs.Writing.{AreFacts, ArePinFiles, IsTold, IsWritten};
ghost use Rattle.mdbal_ceph.specs.Writing.{IsDriverText, gain_of, identity_of, least_for, plan_status};
ghost use Rattle.mdbal_ceph.specs.Hours.{load_now};
ghost use Rattle.mdbal_ceph.specs.Writing.{as_now, bound_now, other_now, other_planned, proposed_changes, worst_now};
ghost use Rattle.mdbal_ceph.specs.Writing.{worst_planned};

use crate::driver_plan::make_driver_text;
use crate::no_result::NoResult;
use crate::outcome::Outcome;
use crate::settings::{Least, PlanSettings};
use ceph_dumps::FileSystem;
use ceph_pins::{MountedFileSystem, changes_back, make_own_list, make_pins_script, standing_pins};
use ceph_plan::{Gain, LeastGain, PinChange, is_worth_it};
use ceph_report::{
    Facts, Move, PlannedHour, Roots, Stay, hottest, inodes_brought, make_json, make_picture,
    make_report, make_script, moves_of, roots_of, stays_of,
};
use ceph_snapshot::Directory;
use mds_types::RankSet;
use std::alloc::{AllocError, Global};

/// The files of `--pins`.
#[derive(Drop)]
pub struct PinFiles {
    /// The script that makes the changes.
    pub script: Vec<u8>,
    /// The script that undoes them.
    pub back: Vec<u8>,
    /// The list of the pins of this program once the first script has run.
    pub own: Vec<u8>,
    /// The changes as the driver of pins reads them.
    pub plan: Vec<u8>,
}

/// What is written of a plan.
#[derive(Drop)]
pub struct PlanOutput {
    /// The report, or the plan as JSON.
    pub text: Vec<u8>,
    /// Whether the plan is worth a proposal.
    pub is_proposed: bool,
    /// The files of `--pins`, where it is given.
    pub pins: Option<PinFiles>,
    /// The record of now, where `--record` is given.
    pub hour_record: Option<Vec<u8>>,
    /// The picture, where `--svg` is given.
    pub picture: Option<Vec<u8>>,
    /// The directories as a script of `mdbal`, where `--script` is given.
    pub script: Option<Vec<u8>>,
}

impl PlanOutput {
    /// The status of the program: 0 where changes are proposed, 3 where none are.
    pub fn status(&self) -> u8
        ensures { result ≡ plan_status self.now.is_proposed }
    {
        if self.is_proposed { 0 } else { 3 }
    }
}

/// The load of each rank in the hour of now, as planned.
fn load_now(hours: &[PlannedHour]) -> &[u64]
    ensures { result.now ≡ load_now hours.now }
{
    match hours.first() {
        Some(hour) => &hour.planned,
        None => &[],
    }
}

/// A heat in an hour with this bound, as it counts beside one of now, and rounded up.
fn as_now(heat: u64, bound: u64, bound_now: u64) -> u64
    ensures { result ≡ as_now heat bound bound_now }
{
    if bound == 0 {
        return heat;
    }
    let whole = u128::from(heat) * u128::from(bound_now) + u128::from(bound - 1);
    u128::from(u64::MAX).min(whole / u128::from(bound)) as u64
}

/// What the bound of the hour of now is.
fn bound_now(hours: &[PlannedHour]) -> u64
    ensures { result ≡ bound_now hours.now }
{
    match hours.first() {
        Some(hour) => hour.bound,
        None => 0,
    }
}

/// The heat of the hottest rank in the earlier hour at a place, where each directory is now, as it counts beside one of
/// now; 0 of the hour of now, and of one that was made.
fn other_now(hours: &[PlannedHour], at: usize) -> u64
    ensures { result ≡ other_now hours.now at }
{
    match hours.get(at) {
        Some(hour) if at > 0 && hour.is_seen => {
            as_now(hottest(&hour.now), hour.bound, bound_now(hours))
        }
        _ => 0,
    }
}

/// The same as planned.
fn other_planned(hours: &[PlannedHour], at: usize) -> u64
    ensures { result ≡ other_planned hours.now at }
{
    match hours.get(at) {
        Some(hour) if at > 0 && hour.is_seen => {
            as_now(hottest(&hour.planned), hour.bound, bound_now(hours))
        }
        _ => 0,
    }
}

/// The greatest of these over the earlier hours.
fn worst_now(hours: &[PlannedHour]) -> u64
    ensures { result ≡ worst_now hours.now }
{
    let mut greatest = 0;
    for at in 0..hours.len() {
        greatest = other_now(hours, at).max(greatest);
    }
    greatest
}

/// The same as planned.
fn worst_planned(hours: &[PlannedHour]) -> u64
    ensures { result ≡ worst_planned hours.now }
{
    let mut greatest = 0;
    for at in 0..hours.len() {
        greatest = other_planned(hours, at).max(greatest);
    }
    greatest
}

/// What the plan of an outcome comes to in the worst of the hours that were seen. Its heat is that of the hottest rank
/// now.
fn gain_of(outcome: &Outcome) -> Gain
    ensures { result ≡ gain_of outcome.now }
{
    let heat = hottest(&outcome.decision.sums.now);
    let hours = outcome.decision.hours.as_slice();
    Gain {
        heat,
        now: worst_now(hours).max(heat),
        planned: worst_planned(hours).max(hottest(load_now(hours))),
        moved: outcome.decision.proposal.plan.moved,
    }
}

/// The heat of an idle rank, in thousandths: that of half a read a second, as Ceph's heat has a half-life of 5 s.
const IDLE_HEAT: u64 = 4000;

/// What a plan for these ranks has to come to.
fn least_for(least: Least, ranks: RankSet) -> LeastGain
    ensures { result ≡ least_for least ranks }
{
    LeastGain {
        heat: least.heat.unwrap_or(IDLE_HEAT * u64::from(ranks.len())),
        percent: least.percent,
        each_thousand: least.each_thousand,
    }
}

/// What is reported of an outcome.
fn facts_of<'a>(
    outcome: &'a Outcome,
    moves: &'a [Move],
    roots: &'a Roots,
    stays: &'a [Option<Stay>],
    standing: usize,
    is_idle: bool,
) -> Facts<'a>
    ensures facts { AreFacts outcome.now is_idle standing result }
    ensures moves { result.moves.now ≡ moves.now }
    ensures roots { result.roots.now ≡ roots.entry.now }
    ensures stays { result.stays.now ≡ stays.now }
{
    Facts {
        directories: &outcome.directories,
        holds: &outcome.decision.holds,
        folded: outcome.folded,
        samples: outcome.samples,
        size: outcome.size,
        there: outcome.there,
        active: outcome.active,
        ranks: outcome.ranks,
        balances: outcome.balances,
        plan: &outcome.decision.proposal.plan,
        planned: load_now(&outcome.decision.hours),
        hours: &outcome.decision.hours,
        left_hours: &outcome.decision.left,
        bound: outcome.bound,
        sums: &outcome.decision.sums,
        pinned: &outcome.decision.pinned,
        hottest: &outcome.hottest,
        advice: outcome.advice.as_ref(),
        roots,
        moves,
        rows: &outcome.decision.proposal.rows,
        goals: &outcome.decision.goals,
        stays,
        changes: outcome.decision.proposal.changes.len(),
        standing,
        is_idle,
        is_within: outcome.decision.proposal.is_within,
    }
}

/// The report, or the plan as JSON.
fn told(
    alloc: Global,
    outcome: &Outcome,
    stays: &[Option<Stay>],
    is_json: bool,
    is_proposed: bool,
    is_idle: bool,
) -> Result<Vec<u8>, AllocError>
    requires { AreStays outcome.now.directories.items stays.now }
    ensures { IfOk result (λ text. IsTold outcome.now is_json is_proposed is_idle text.items) }
{
    let (directories, holds) = (&outcome.directories, &outcome.decision.holds);
    let proposal = &outcome.decision.proposal;
    let (rows, changes) = (&proposal.rows, &proposal.changes);
    let standing = standing_pins(alloc, rows, changes)?;
    let moves = moves_of(alloc, directories, holds, rows, changes)?;
    let roots = roots_of(alloc, directories, rows, changes, &outcome.decision.goals)?;
    let facts = facts_of(outcome, &moves, &roots, stays, standing, is_idle);
    if is_json {
        let changes = changes_of(outcome, is_proposed);
        let back = changes_back(alloc, rows, changes)?;
        make_json(alloc, &facts, changes, &back, is_proposed)
    } else {
        make_report(alloc, &facts, is_proposed)
    }
}

/// The changes that are proposed: none where the plan isn't worth a proposal.
fn changes_of(outcome: &Outcome, is_proposed: bool) -> &[PinChange]
    ensures { result.now ≡ proposed_changes outcome.now is_proposed }
{
    if is_proposed {
        &outcome.decision.proposal.changes
    } else {
        &[]
    }
}

/// What names a plan: the file system and its cluster.
fn identity_of(alloc: Global, file_system: &FileSystem) -> Result<Vec<u8>, AllocError>
    ensures { IfOk result (λ identity. identity.items ≡ identity_of file_system.now) }
{
    let mut identity = file_system.name.as_bytes().to_vec(alloc)?;
    identity.push(b' ')?;
    identity.extend_from_slice(file_system.fsid.as_bytes())?;
    Ok(identity)
}

/// The changes as the driver of pins reads them.
fn driver_text(
    alloc: Global,
    outcome: &Outcome,
    changes: &[PinChange],
) -> Result<Vec<u8>, AllocError>
    ensures { IfOk result (λ text. IsDriverText outcome.now changes.now text.items) }
{
    let decision = &outcome.decision;
    let (directories, rows) = (
        outcome.directories.as_slice(),
        decision.proposal.rows.as_slice(),
    );
    let inodes = inodes_brought(alloc, directories, &decision.holds, rows, changes)?;
    let identity = identity_of(alloc, &outcome.file_system)?;
    make_driver_text(alloc, identity, directories, rows, &inodes, changes)
}

/// The files of `--pins`.
fn pin_files(
    alloc: Global,
    settings: &PlanSettings,
    outcome: &Outcome,
    is_proposed: bool,
) -> Result<PinFiles, NoResult>
    requires { is_some settings.now.pins ≡ true }
    ensures files { IfOk result (ArePinFiles settings.now outcome.now (proposed_changes outcome.now is_proposed)) }
    ensures failed { IfErr result (IsWritingFault settings.now outcome.now) }
{
    let directories = outcome.directories.as_slice();
    let rows = outcome.decision.proposal.rows.as_slice();
    let changes = changes_of(outcome, is_proposed);
    let mounted = MountedFileSystem {
        mount: settings.mount.as_bytes(),
        name: outcome.file_system.name.as_bytes(),
        fsid: outcome.file_system.fsid.as_bytes(),
        by_ceph: settings.subvolumes,
    };
    let back = changes_back(alloc, rows, changes)?;
    Ok(PinFiles {
        script: make_pins_script(alloc, mounted, directories, changes)?,
        back: make_pins_script(alloc, mounted, directories, &back)?,
        own: make_own_list(alloc, directories, rows, changes)?,
        plan: driver_text(alloc, outcome, changes)?,
    })
}

/// What is written of a plan.
pub fn written(
    alloc: Global,
    settings: &PlanSettings,
    outcome: &Outcome,
    hour_record: Option<Vec<u8>>,
) -> Result<PlanOutput, NoResult>
    ensures written { IfOk result (IsWritten settings.now outcome.now) }
    ensures hour_record { IfOk result (λ output. output.hour_record ≡ hour_record) }
    ensures failed { IfErr result (IsWritingFault settings.now outcome.now) }
{
    let (gain, least) = (gain_of(outcome), least_for(settings.least, outcome.ranks));
    let (is_worth, is_idle) = (is_worth_it(gain, least), gain.heat < least.heat);
    let is_proposed = is_worth && outcome.decision.proposal.is_within;
    let directories = outcome.directories.as_slice();
    let stays = stays_of(alloc, directories)?;
    let is_json = settings.is_json;
    let text = told(alloc, outcome, &stays, is_json, is_proposed, is_idle)?;
    let pins = match settings.pins {
        Some(_) => Some(pin_files(alloc, settings, outcome, is_proposed)?),
        None => None,
    };
    let picture = match settings.svg {
        Some(_) => {
            let goals = outcome.decision.goals.as_slice();
            Some(make_picture(alloc, directories, goals, &stays)?)
        }
        None => None,
    };
    let script = match settings.script {
        Some(_) => {
            let holds = outcome.decision.holds.as_slice();
            Some(make_script(alloc, directories, holds, outcome.size)?)
        }
        None => None,
    };
    Ok(PlanOutput {
        text,
        is_proposed,
        pins,
        hour_record,
        picture,
        script,
    })
}
