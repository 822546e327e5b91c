//! Reads earlier hours: of each only the record stays that stands for it.
ghost use Rattle.std.specs.Prelude.{◌≡◌, IfErr, IfOk, IfSome, OnOk, map};
ghost use Rattle.mdbal_ceph.specs.Causes.{IsFolderFault, IsNamedBy, IsUnread};
ghost use Rattle.mdbal_ceph.specs.Folder.{Bytes};
ghost use Rattle.mdbal_ceph.specs.NotMade.{AreOthers, IsEarlierFault, IsHourFault, IsOfAnother};
ghost use Rattle.mdbal_ceph.specs.Past.{AreEarlier, AreOfFileSystem, IsRecordOf, IsRecordOfFolder};
ghost use Rattle.mdbal_ceph.specs.Past.{is_same_file_system};

use crate::collected::read_ranks;
use crate::dump_reader::DumpReader;
use crate::folder::Folder;
use crate::inputs::Inputs;
use crate::no_result::{NoResult, PastFault, refused, unread};
use crate::progress::Progress;
use crate::source::file_system_of;
use ceph_dumps::{FileSystem, HourRecord, read_hour};
use ceph_snapshot::hour_of;
use std::alloc::{AllocError, Global};
use std::io::ErrorKind;

/// An earlier hour.
#[derive(Drop)]
pub struct EarlierHour<'a> {
    /// The words of the command line that name its folder or record.
    pub name: &'a str,
    /// What is kept of it.
    pub kept: HourRecord,
}

/// The bytes of the record of this name; none where there is a folder of this name, or nothing.
fn record_bytes<F: Folder>(
    files: &F,
    alloc: Global,
    name: &str,
) -> Result<Option<Vec<u8>>, NoResult>
    ensures found { IfOk result (λ found. IfSome found (λ bytes. F.reads files.now name.now (Bytes bytes.items))) }
    ensures failed { IfErr result (IsNamedBy name.now (IsUnread (F.reads files.now) name.now)) }
{
    match files.read(name) {
        Ok(found) => Ok(found),
        Err(error) if error.kind() == ErrorKind::IsADirectory => Ok(None),
        Err(error) => Err(unread(alloc, name, error)),
    }
}

/// The record of the hour of a folder.
fn folder_record<F: Folder, D: DumpReader, P: Progress>(
    inputs: &Inputs<'_, F, D, P>,
    folder: &str,
) -> Result<HourRecord, NoResult>
    ensures hour { IfOk result (IsRecordOfFolder (F.reads inputs.now.files.now) D.says folder.now) }
    ensures failed { IfErr result (IsFolderFault (F.reads inputs.now.files.now) D.says D.refuses folder.now) }
{
    let file_system = file_system_of(inputs, folder)?;
    let snapshot = read_ranks(inputs, folder)?;
    let kept = hour_of(inputs.alloc, file_system, &snapshot)?;
    Ok(kept)
}

/// The record of this name, or that of the hour of the folder of this name.
fn read_record<F: Folder, D: DumpReader, P: Progress>(
    inputs: &Inputs<'_, F, D, P>,
    name: &str,
) -> Result<HourRecord, NoResult>
    ensures hour { IfOk result (IsRecordOf (F.reads inputs.now.files.now) D.says name.now) }
    ensures failed { IfErr result (IsHourFault (F.reads inputs.now.files.now) D.says D.refuses name.now) }
{
    let Some(bytes) = record_bytes(inputs.files, inputs.alloc, name)? else {
        return folder_record(inputs, name);
    };
    match read_hour(inputs.alloc, &bytes) {
        Ok(kept) => Ok(kept),
        Err(error) => Err(refused(inputs.alloc, name, error)),
    }
}

/// Reads earlier hours, of which one folder at a time is in memory.
pub fn read_past<'a, F: Folder, D: DumpReader, P: Progress>(
    inputs: &Inputs<'_, F, D, P>,
    names: &[&'a str],
) -> Result<Vec<EarlierHour<'a>>, NoResult>
    ensures hours { IfOk result (λ found. AreEarlier (F.reads inputs.now.files.now) D.says
        (map (λ name. name.now) names.now) found.items) }
    ensures failed { IfErr result (IsEarlierFault (F.reads inputs.now.files.now) D.says D.refuses
        (map (λ name. name.now) names.now)) }
{
    let mut found = Vec::new(inputs.alloc);
    for at in 0..names.len() {
        let kept = read_record(inputs, names[at])?;
        found.push(EarlierHour {
            name: names[at],
            kept,
        })?;
    }
    Ok(found)
}

/// Whether these are the same file system of the same cluster.
fn is_same_file_system(one: &FileSystem, other: &FileSystem) -> bool
    ensures { result ≡ is_same_file_system one.now other.now }
{
    one.name == other.name && one.fsid == other.fsid
}

/// An earlier hour is of another file system than that of now.
fn other_file_system(alloc: Global, hour: &EarlierHour<'_>) -> Result<NoResult, AllocError>
    ensures { IfOk result (IsOfAnother hour.now) }
{
    let other = &hour.kept.file_system;
    let name = String::from_str(alloc, other.name.as_str())?;
    let fsid = String::from_str(alloc, other.fsid.as_str())?;
    let hour = String::from_str(alloc, hour.name)?;
    Ok(NoResult::Past(hour, PastFault::OtherFileSystem(name, fsid)))
}

/// Refuses an earlier hour of another file system than that of now.
pub fn refuse_others(
    alloc: Global,
    earlier: &[EarlierHour<'_>],
    present: &FileSystem,
) -> Result<(), NoResult>
    ensures same { OnOk result (AreOfFileSystem present.now earlier.now) }
    ensures failed { IfErr result (AreOthers present.now earlier.now) }
{
    for hour in earlier {
        if !is_same_file_system(&hour.kept.file_system, present) {
            return Err(other_file_system(alloc, hour)?);
        }
    }
    Ok(())
}
