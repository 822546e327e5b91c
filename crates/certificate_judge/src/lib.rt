//! Whether plans are best, only by the proofs in their certificates: the program `mdbal_check`, over any files and
//! devices.
#![tactic(auto)]

pub mod answers;
pub mod files;
pub mod judge_error;
pub mod judging;
mod lines;
pub mod program;
mod reading;
pub mod reporting;
pub mod settings;
mod unjudged;

pub use files::{CertificateFiles, SystemFiles};
pub use judge_error::JudgeError;
pub use judging::judge;
pub use program::start;
pub use reporting::report;
