//! The states of an export at the rank that gives the directories away.
//!
//! ```text
//! discovering -> freezing -> preparing -> exporting -> logged -> done
//!      |            |            |            |
//!      +------------+------------+------------+-----> aborted
//! ```
//!
//! The export is committed by the journal entry that leads to `Logged`: before it an abort is
//! allowed, after it the export can only go on.

use mds_types::ExportStage;
use std::fmt;

/// The state of an export at its exporter.
#[derive(Clone, Copy, Debug, PartialEq, Eq)]
pub enum ExporterState {
    /// The importer was asked whether it knows the directories.
    Discovering,
    /// New requests are held back, running ones end.
    Freezing,
    /// The importer was asked to make ready.
    Preparing,
    /// The directories were sent.
    Exporting,
    /// The journal has the export: it is committed.
    Logged,
    /// The map names the importer.
    Done,
    /// The directories stay.
    Aborted,
}

impl ExporterState {
    ghost use Rattle.std.specs.Prelude.{◌≡◌};
    ghost use Rattle.export_protocol.specs.Refused.{stage_of};

    /// The same, as a refusal prints it.
    pub fn stage(self) -> ExportStage
        ensures { result ≡ stage_of self }
    {
        match self {
            ExporterState::Discovering => ExportStage::Discovering,
            ExporterState::Freezing => ExportStage::Freezing,
            ExporterState::Preparing => ExportStage::Preparing,
            ExporterState::Exporting => ExportStage::Exporting,
            ExporterState::Logged => ExportStage::Logged,
            ExporterState::Done => ExportStage::Done,
            ExporterState::Aborted => ExportStage::Aborted,
        }
    }
}

impl fmt::Display for ExporterState {
    ghost use Rattle.std.specs.Prelude.{Some};
    ghost use Rattle.mds_types.specs.Refusal.{stage_word};
    ghost use Rattle.export_protocol.specs.Refused.{stage_of};

    ghost output = { λ state. Some (stage_word (stage_of state)) };

    fn fmt<W: fmt::Write>(&self, f: &mut fmt::Formatter<W>) -> fmt::Result {
        f.write_str(self.stage().text())
    }
}
