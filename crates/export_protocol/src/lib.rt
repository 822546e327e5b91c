//! The protocol by which directories move between metadata ranks, with exactly one authority for each at any time.
//!
//! A cluster is a machine with no clock and no thread: an event goes in, a reply or a refusal comes out. Messages
//! may be lost, repeated and reordered by the list of events. `specs/Step.antt` says what an event does, `laws` what
//! holds after every list of events. `export_machine` keeps a cluster in tables and carries events out.
#![tactic(auto)]

pub mod event;
pub mod exporter;
pub mod importer;
pub mod journal;
pub mod laws;
pub mod message;
pub mod moves;
pub mod step_error;

pub use event::{Event, Reply, Request};
pub use exporter::ExporterState;
pub use importer::ImporterState;
pub use journal::JournalEntry;
pub use message::Message;
pub use step_error::StepError;
