//! The program that answers a script, over any devices.
#![tactic(auto)]

mod hints;
pub mod laws;
pub mod program;
mod proof_files;

pub use program::start;
pub use proof_files::{ProofFiles, SystemProofs};
