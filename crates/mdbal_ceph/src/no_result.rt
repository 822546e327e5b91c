//! Why a run has no result.
ghost use Rattle.std.specs.Prelude.{◌≡◌, ◌≢◌};
ghost use Rattle.std.specs.IoError.{error_kind};
ghost use Rattle.mdbal_ceph.specs.Causes.{IsNamedBy};
ghost use Rattle.mdbal_ceph.specs.NoResults.{IsRefusedFor, IsStoredFor, claim_error, doubt_error, growth_error};
ghost use Rattle.mdbal_ceph.specs.NoResults.{IsUnwrittenOf, planned_error, script_error};

use ceph_dumps::DumpError;
use ceph_pins::ScriptError;
use ceph_plan::PlanError;
use ceph_snapshot::SnapshotError;
use pin_driver::TextError;
use std::alloc::{AllocError, AllocFailed, Global};
use std::io;
use std::io::ErrorKind;

/// What is wrong with a file.
#[derive(Drop)]
pub enum FileFault {
    /// The device failed.
    Device(io::Error),
    /// There is no such file.
    Missing,
    /// There is no such folder.
    NoFolder,
    /// The collector did not finish the folder, as this file is the last that it writes.
    Unfinished,
    /// Its bytes are not what they have to be.
    Refused(DumpError),
    /// Its bytes are not what a driver of pins stores.
    Stored(TextError),
}

/// Why an earlier hour can't be planned for.
#[derive(Drop)]
pub enum PastFault {
    /// It is of this file system and cluster, and not of those of now.
    OtherFileSystem(String, String),
    /// No directory that had heat then is there now.
    NothingInCommon,
}

/// Why there is no plan, or no script of it.
#[derive(Clone, Copy, Drop)]
pub enum NoPlan {
    /// The cluster's own mask is none.
    BadMask,
    /// The cluster's own mask lacks rank 0.
    MaskWithoutZero,
    /// Rank 0 is not active.
    ZeroNotActive,
    /// The planner refuses the directories.
    Refused(PlanError),
    /// The changes can't be written as a script.
    Unwritable(ScriptError),
}

/// Why a run has no result.
#[derive(Drop)]
pub enum NoResult {
    /// The allocator refused a growth.
    Memory,
    /// This is wrong with the file of this name.
    File(String, FileFault),
    /// There are more directories than can be numbered, or more than can be counted comes together at one.
    TooMany,
    /// What the files of a folder say can't be so.
    Gathered(SnapshotError),
    /// This is wrong with the earlier hour of this name.
    Past(String, PastFault),
    /// There is no plan.
    NoPlan(NoPlan),
    /// The file of this name can't be written.
    Unwritten(String, io::Error),
    /// The text can't be printed.
    Unprinted(io::Error),
}

impl From<AllocError> for NoResult {
    ghost use Rattle.mdbal_ceph.specs.declared.no_result.NoResult.TheVariants as cause;

    ghost from_gives = { λ _ error. error ≡ cause.Memory };

    fn from(_: AllocError) -> NoResult {
        NoResult::Memory
    }
}

impl<T: Drop> From<AllocFailed<T>> for NoResult {
    ghost use Rattle.mdbal_ceph.specs.declared.no_result.NoResult.TheVariants as cause;

    ghost from_gives = { λ _ error. error ≡ cause.Memory };

    fn from(_: AllocFailed<T>) -> NoResult {
        NoResult::Memory
    }
}

impl From<SnapshotError> for NoResult {
    ghost from_gives = { λ from error. error ≡ growth_error from };

    fn from(error: SnapshotError) -> NoResult {
        match error {
            SnapshotError::Memory => NoResult::Memory,
            _ => NoResult::TooMany,
        }
    }
}

/// Why the roots of a rank aren't added: a claim of another rank, and otherwise what any growth fails by.
pub(crate) fn claim_error(error: SnapshotError) -> NoResult
    ensures { result ≡ claim_error error }
{
    match error {
        SnapshotError::TwoClaims { .. } => NoResult::Gathered(error),
        other => other.into(),
    }
}

/// Why there is no snapshot: the dumps do not fit together, and otherwise what any growth fails by.
pub(crate) fn doubt_error(error: SnapshotError) -> NoResult
    ensures { result ≡ doubt_error error }
{
    match error {
        SnapshotError::Elsewhere | SnapshotError::Unclaimed { .. } => NoResult::Gathered(error),
        other => other.into(),
    }
}

impl From<PlanError> for NoResult {
    ghost from_gives = { λ from error. error ≡ planned_error from };

    fn from(error: PlanError) -> NoResult {
        match error {
            PlanError::Memory => NoResult::Memory,
            other => NoResult::NoPlan(NoPlan::Refused(other)),
        }
    }
}

impl From<ScriptError> for NoResult {
    ghost from_gives = { λ from error. error ≡ script_error from };

    fn from(error: ScriptError) -> NoResult {
        match error {
            ScriptError::Memory => NoResult::Memory,
            other => NoResult::NoPlan(NoPlan::Unwritable(other)),
        }
    }
}

/// This is wrong with the file of this name.
pub(crate) fn named(alloc: Global, name: &str, fault: FileFault) -> NoResult
    ensures { IsNamedBy name.now (λ one. one ≡ fault) result }
{
    match String::from_str(alloc, name) {
        Ok(name) => NoResult::File(name, fault),
        Err(_) => NoResult::Memory,
    }
}

/// Its device failed, or memory was refused.
pub(crate) fn unread(alloc: Global, name: &str, error: io::Error) -> NoResult
    ensures { IsNamedBy name.now (λ one. (one ≡ FileFault.Device error)
        × (error_kind error ≢ ErrorKind.OutOfMemory)) result }
{
    match error.kind() {
        ErrorKind::OutOfMemory => NoResult::Memory,
        _ => named(alloc, name, FileFault::Device(error)),
    }
}

/// Its bytes are not what they have to be, or memory was refused.
pub(crate) fn refused(alloc: Global, name: &str, error: DumpError) -> NoResult
    ensures { IsNamedBy name.now (IsRefusedFor error) result }
{
    match error {
        DumpError::Memory => NoResult::Memory,
        error => named(alloc, name, FileFault::Refused(error)),
    }
}

/// Its bytes are not what a driver of pins stores, or memory was refused.
pub(crate) fn not_stored(alloc: Global, name: &str, error: TextError) -> NoResult
    ensures { IsNamedBy name.now (IsStoredFor error) result }
{
    match error {
        TextError::Memory => NoResult::Memory,
        error => named(alloc, name, FileFault::Stored(error)),
    }
}

/// The file of this name can't be written, or memory was refused.
pub(crate) fn unwritten(alloc: Global, name: &str, error: io::Error) -> NoResult
    ensures { IsUnwrittenOf name.now result }
{
    if error.kind() == ErrorKind::OutOfMemory {
        return NoResult::Memory;
    }
    match String::from_str(alloc, name) {
        Ok(name) => NoResult::Unwritten(name, error),
        Err(_) => NoResult::Memory,
    }
}
