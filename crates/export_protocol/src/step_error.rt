//! Why an event was refused.

ghost use Rattle.std.specs.Prelude.{◌≡◌};
ghost use Rattle.export_protocol.specs.declared.step_error.StepError.TheVariants.{Memory};

use crate::exporter::ExporterState;
use mds_types::{Rank, Refusal};
use std::alloc::AllocFailed;
use std::error::Error;
use std::fmt;

/// Why the cluster refused an event, which left it as it was.
///
/// It prints as the numbered refusal that it is, with the value where there is one.
#[derive(Clone, Copy, Debug, PartialEq, Eq)]
pub enum StepError {
    /// The allocator refused a growth.
    Memory,
    /// There is no such directory.
    NoDir,
    /// The directory has a child.
    NotEmpty,
    /// The root can't be removed.
    IsRoot,
    /// All directory numbers were given.
    TreeFull,
    /// The rank isn't one of the cluster's.
    NoRank,
    /// There is no export of that number.
    NoExport,
    /// This rank is the authority.
    Elsewhere(Rank),
    /// The directory is in this open export.
    Busy(u32),
    /// The authority doesn't serve the directory because of this export.
    Frozen(u32),
    /// An export needs two ranks.
    SameRank,
    /// This many requests are running there.
    NotYet(u32),
    /// The export is in this state at its exporter. That state doesn't allow the event or, where the importer asks, the
    /// importer's doesn't.
    Late(ExporterState),
    /// No message of that number was sent.
    NoMessage,
    /// No running request has that ticket.
    NoTicket,
    /// The list is empty, repeats a directory, or its directories aren't connected.
    NotConnected,
    /// As many exports as can be were started.
    ExportsFull,
    /// This rank is stopped.
    Stopped(Rank),
    /// As many events as can be were accepted.
    HistoryFull,
}

impl<T: Drop> From<AllocFailed<T>> for StepError {
    ghost from_gives = { λ _ e. e ≡ Memory };

    fn from(_: AllocFailed<T>) -> Self {
        StepError::Memory
    }
}

impl From<StepError> for Refusal {
    ghost use Rattle.export_protocol.specs.Refused.{refusal_of};

    ghost from_gives = { λ error refusal. refusal ≡ refusal_of error };

    fn from(error: StepError) -> Refusal {
        match error {
            StepError::Memory => Refusal::Memory,
            StepError::NoDir => Refusal::NoDir,
            StepError::NotEmpty => Refusal::NotEmpty,
            StepError::IsRoot => Refusal::IsRoot,
            StepError::TreeFull => Refusal::TreeFull,
            StepError::NoRank => Refusal::NoRank,
            StepError::NoExport => Refusal::NoExport,
            StepError::Elsewhere(rank) => Refusal::Elsewhere(rank),
            StepError::Busy(export) => Refusal::Busy(export),
            StepError::Frozen(export) => Refusal::Frozen(export),
            StepError::SameRank => Refusal::SameRank,
            StepError::NotYet(requests) => Refusal::NotYet(requests),
            StepError::Late(state) => Refusal::Late(state.stage()),
            StepError::NoMessage => Refusal::NoMessage,
            StepError::NoTicket => Refusal::NoTicket,
            StepError::NotConnected => Refusal::NotConnected,
            StepError::ExportsFull => Refusal::ExportsFull,
            StepError::Stopped(rank) => Refusal::Stopped(rank),
            StepError::HistoryFull => Refusal::HistoryFull,
        }
    }
}

impl fmt::Display for StepError {
    ghost use Rattle.std.specs.Prelude.{Some};
    ghost use Rattle.mds_types.specs.Refusal.{words};
    ghost use Rattle.export_protocol.specs.Refused.{refusal_of};

    ghost output = { λ error. Some (words (refusal_of error)) };

    fn fmt<W: fmt::Write>(&self, f: &mut fmt::Formatter<W>) -> fmt::Result {
        fmt::Display::fmt(&Refusal::from(*self), f)
    }
}

impl Error for StepError {}
