//! Two machines that change export pins: [`PinSetter`] sets those of a plan, [`PinRestorer`] takes them back.
//!
//! A machine has no device, no clock and no thread. Its host asks it for a [`Question`], does what that says, and
//! hands it the [`HostAnswer`], until the question is `End`. Any answer may come to any question; one of another kind
//! is nonsense. A run may be ended between any two answers, or while a question is asked, and another host may begin
//! the next one, of either machine, from the text that was stored last:
//!
//! ```text
//! a plan ----------------------> Task { plan, first: (0, 0), pace }
//! text -- read_stored --------> Task { plan, first: mark, pace }
//! Store(mark) -- stored_text -> text
//! ```
//!
//! The setter goes batch by batch. It stores how far pins may be set from now on, then asks for each change whether
//! the cluster is as it was, which inode number and pin the directory has, and to set the pin. Then it looks until
//! all is in place, and stores that the batch is certain. The restorer goes backwards over the changes that may be
//! set; it restores the pins that are ours and leaves the others alone. It does not wait until the directories are
//! back. Both stop at the first trouble ([`Trouble`]), and say what became of each change ([`Note`]).
//!
//! `laws` says what holds for every list of answers: `IsDriven` (`specs/Driven.antt`) of a setter, `IsRestored`
//! (`specs/Restored.antt`) of a restorer, and `AreAccounted` (`specs/Sessions.antt`) of any number of runs of both,
//! each ended anywhere.
//!
//! Not promised, as it depends on the host and on the cluster: that answers are true; that a text which was answered
//! as stored is the one that is read next; that a pin which was set stays, or is read again within ten seconds; that
//! only one run goes on at a time; that nobody changes a pin between `Get` and `Set`, or pins a directory of the plan
//! to the very rank that the plan gives it; that a run ends.
#![tactic(auto)]

pub mod answer;
pub mod bytes;
mod fields;
mod fits;
pub mod laws;
pub mod note;
pub mod plan;
pub mod question;
pub mod restorer;
pub mod restorer_state;
pub mod setter;
pub mod setter_state;
pub mod stored_reader;
pub mod stored_writer;
pub mod task;
pub mod text_error;
mod trouble;

pub use answer::{ClusterState, FoundPin, HostAnswer};
pub use bytes::Bytes;
pub use note::Note;
pub use plan::{EarlierPin, PinPlan, PlannedChange};
pub use question::{Ending, Mark, Question, Trouble};
pub use restorer::PinRestorer;
pub use setter::PinSetter;
pub use stored_reader::{StoredPlan, read_stored};
pub use stored_writer::stored_text;
pub use task::{Pace, Task};
pub use text_error::TextError;
