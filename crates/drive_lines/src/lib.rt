//! Drives the pins of a plan by lines: a host reads questions, and writes answers.
//!
//! A host, such as a shell script or a module of Ceph's manager, first gives the stored text of a plan. Then it is
//! asked what a machine of `pin_driver` asks, one line a question, and answers each in one line. The host decides
//! nothing. `docs/DRIVER.md` says what a host has to do.
//!
//! The contract of `run` says what is read and written (`IsRunResult`, `specs/Outcomes.antt`). The questions are those
//! that the machine asks after the answers that the lines mean. Each is right as `pin_driver` says (`IsRightRun`),
//! whatever bytes the host sends. Where a device fails, a beginning of that was written.
//!
//! Not promised: that a question reaches the host before its answer is read, though the writer is flushed after each
//! question; that what the host says is true.
//!
//! ```text
//! host ---- stored text, and a line `.` ---> read_text
//! host <--- `get /a/b` ----------------------- say_question <--- PinMachine::question
//! host ---- `found 1099511627776 -1` --------> HostReader::answer ---> PinMachine::answer
//! host <--- `note gone /a/b` ----------------- say_note
//! ```
#![tactic(auto)]

mod answers;
pub mod drive_error;
mod driving;
pub mod host;
mod machine;
mod plan_input;
pub mod plan_run_error;
pub mod program;
mod questions;
pub mod run_end;
mod running;
pub mod settings;

pub use drive_error::DriveError;
pub use driving::drive;
pub use host::HostReader;
pub use plan_run_error::PlanRunError;
pub use program::start;
pub use run_end::RunEnd;
pub use running::{drive_status, run};
