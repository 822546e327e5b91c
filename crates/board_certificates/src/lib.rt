//! The certificates of the plans that a board has adopted.
//!
//! A board keeps each change with its reply, so its history has each problem that was opened and each plan that
//! was adopted. Whoever has the certificates can check the plans by their proofs only.
#![tactic(auto)]

pub mod laws;
mod opened;
mod replay;
pub mod unwritten;
pub mod write;

pub use unwritten::Unwritten;
pub use write::write_certificates;
