//! Compares what was collected with the plan that a driver of pins stored, or with a list of pins.
ghost use Rattle.std.specs.Prelude.{◌≡◌, ℕ, IfErr, IfOk, List};
ghost use Rattle.ceph_report.specs.PlanCheck.{does_plan_hold, plan_check_text};
ghost use Rattle.mdbal_ceph.specs.Causes.{IsFolderFault, IsNamedBy};
ghost use Rattle.mdbal_ceph.specs.NotMade.{IsNotCompared, IsStoredFault};
ghost use Rattle.mdbal_ceph.specs.PlanChecks.{IsCompared, IsPlanChecked, IsPlanIn, IsStoredIn, is_driver_text};

use crate::collected::{Collected, read_collected};
use crate::dump_reader::DumpReader;
use crate::files::checked;
use crate::folder::Folder;
use crate::inputs::Inputs;
use crate::no_result::{NoResult, not_stored};
use crate::progress::Progress;
use crate::source::bytes_if_there;
use ceph_report::{PinCheck, check_plan};
use pin_driver::{PinPlan, StoredPlan, read_stored};
use std::alloc::{AllocError, Global};

/// Whether these bytes are for a driver of pins, and no list of pins.
fn is_driver_text(bytes: &[u8]) -> bool
    ensures { result ≡ is_driver_text bytes.now }
{
    bytes.starts_with(b"mdbal_pins ")
}

/// The plan that a driver stored in the file of this name, if there is one for a driver.
fn stored_plan_of<F: Folder>(
    files: &F,
    alloc: Global,
    path: &str,
) -> Result<Option<StoredPlan>, NoResult>
    ensures plan { IfOk result (IsPlanIn (F.reads files.now) path.now) }
    ensures failed { IfErr result (IsNamedBy path.now (IsStoredFault (F.reads files.now) path.now)) }
{
    let Some(bytes) = bytes_if_there(files, alloc, path)? else {
        return Ok(None);
    };
    if !is_driver_text(&bytes) {
        return Ok(None);
    }
    match read_stored(alloc, &bytes) {
        Ok(stored) => Ok(Some(stored)),
        Err(error) => Err(not_stored(alloc, path, error)),
    }
}

/// How a plan holds in what was collected.
fn plan_check(alloc: Global, collected: &Collected, plan: &PinPlan) -> Result<PinCheck, AllocError>
    ensures text { IfOk result (λ found. found.text.items
        ≡ plan_check_text collected.now.snapshot.directories.items collected.now.cluster.ranks plan.now) }
    ensures holds { IfOk result (λ found. found.all_hold
        ≡ does_plan_hold collected.now.snapshot.directories.items collected.now.cluster.ranks plan.now) }
{
    let ranks = collected.cluster.ranks;
    check_plan(alloc, &collected.snapshot.directories, ranks, plan)
}

/// Reads what was collected, and reports how a plan holds.
fn plan_checked<F: Folder, D: DumpReader, P: Progress>(
    inputs: &Inputs<'_, F, D, P>,
    folder: &str,
    stored: &StoredPlan,
) -> Result<PinCheck, NoResult>
    ensures checked { (name : List ℕ) → IsStoredIn (F.reads inputs.now.files.now) name stored.now →
        IfOk result (IsPlanChecked (F.reads inputs.now.files.now) D.says folder.now name) }
    ensures failed { IfErr result (IsFolderFault (F.reads inputs.now.files.now) D.says D.refuses folder.now) }
{
    let collected = read_collected(inputs, folder, None)?;
    let found = plan_check(inputs.alloc, &collected, &stored.plan)?;
    Ok(found)
}

/// Reads what was collected, and reports how a driver's plan or the pins of a list hold.
pub fn compared<F: Folder, D: DumpReader, P: Progress>(
    inputs: &Inputs<'_, F, D, P>,
    folder: &str,
    name: &str,
) -> Result<PinCheck, NoResult>
    ensures compared { IfOk result (IsCompared (F.reads inputs.now.files.now) D.says folder.now name.now) }
    ensures failed { IfErr result (IsNotCompared (F.reads inputs.now.files.now) D.says D.refuses folder.now name.now) }
{
    match stored_plan_of(inputs.files, inputs.alloc, name)? {
        Some(stored) => plan_checked(inputs, folder, &stored),
        None => checked(inputs, folder, name),
    }
}
