//! Reads what was collected, and plans or checks it.
ghost use Rattle.std.specs.Prelude.{IfErr, IfOk, Some};
ghost use Rattle.mdbal_ceph.specs.Causes.{IsCollectFault};
ghost use Rattle.mdbal_ceph.specs.NotMade.{IsNoPlanFor};
ghost use Rattle.mdbal_ceph.specs.Options.{AreSameNames, IsChecked, IsPlanWritten, IsRecordOfNow};

use crate::collected::{Collected, listed, read_collected, read_left};
use crate::dump_reader::DumpReader;
use crate::folder::Folder;
use crate::inputs::Inputs;
use crate::no_result::NoResult;
use crate::outcome::planned;
use crate::past::read_past;
use crate::progress::Progress;
use crate::settings::PlanSettings;
use crate::writing::{PlanOutput, written};
use ceph_dumps::{FileSystem, write_hour};
use ceph_report::{PinCheck, check_pins};
use ceph_snapshot::hour_of;
use std::alloc::{AllocError, Global};

/// The same file system.
fn copied(alloc: Global, file_system: &FileSystem) -> Result<FileSystem, AllocError>
    ensures { IfOk result (AreSameNames file_system.now) }
{
    Ok(FileSystem {
        name: String::from_str(alloc, file_system.name.as_str())?,
        fsid: String::from_str(alloc, file_system.fsid.as_str())?,
    })
}

/// The text of the record of what was collected, where it is asked for.
fn record_of_now(
    alloc: Global,
    settings: &PlanSettings,
    collected: &Collected,
) -> Result<Option<Vec<u8>>, AllocError>
    ensures { IfOk result (IsRecordOfNow settings.now collected.now) }
{
    if settings.record_to.is_none() {
        return Ok(None);
    }
    let file_system = copied(alloc, &collected.file_system)?;
    let kept = hour_of(alloc, file_system, &collected.snapshot)?;
    Ok(Some(write_hour(alloc, &kept)?))
}

/// Reads what was collected, and plans.
pub fn carry_out<F: Folder, D: DumpReader, P: Progress>(
    inputs: &Inputs<'_, F, D, P>,
    settings: &PlanSettings,
) -> Result<PlanOutput, NoResult>
    ensures written { IfOk result (IsPlanWritten (F.reads inputs.now.files.now) D.says settings.now) }
    ensures failed { IfErr result (IsNoPlanFor (F.reads inputs.now.files.now) D.says D.refuses settings.now) }
{
    let (folder, own) = (settings.folder, settings.own);
    let earlier = read_past(inputs, &settings.past.earlier)?;
    let collected = read_collected(inputs, folder, own)?;
    let leave = read_left(inputs.files, inputs.alloc, settings.leave)?;
    let hour_record = record_of_now(inputs.alloc, settings, &collected)?;
    inputs.progress.tell("planning");
    let outcome = planned(inputs.alloc, settings, collected, &earlier, &leave)?;
    inputs.progress.tell("writing");
    let output = written(inputs.alloc, settings, &outcome, hour_record)?;
    Ok(output)
}

/// Reads what was collected, and reports how the pins of a list hold.
pub fn checked<F: Folder, D: DumpReader, P: Progress>(
    inputs: &Inputs<'_, F, D, P>,
    folder: &str,
    own: &str,
) -> Result<PinCheck, NoResult>
    ensures checked { IfOk result (IsChecked (F.reads inputs.now.files.now) D.says folder.now own.now) }
    ensures failed { IfErr result (IsCollectFault (F.reads inputs.now.files.now) D.says D.refuses folder.now
        (Some own.now)) }
{
    let collected = read_collected(inputs, folder, Some(own))?;
    let count = listed(&collected.own).len();
    let found = check_pins(inputs.alloc, &collected.snapshot.directories, count)?;
    Ok(found)
}
