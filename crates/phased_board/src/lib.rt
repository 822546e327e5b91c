//! The board of a phase: what the threads of ranks share under one lock, and what a phase keeps of its ranks and
//! orders.
//!
//! What a thread finds under the lock is the board with which the phase began. On top of its history there are only, in
//! a phase with requests, those that begin or end and deposits, and in one with exports their events, and stops of the
//! ranks that are to stop: the lock's type says so. Each rank has a desk, with what it has to look after. Each order
//! has a standing, until the phase reports its outcome.
#![tactic(auto)]

pub mod breaks;
pub mod closing;
pub mod desk;
pub mod ending;
pub mod gate;
pub mod laws;
pub mod looks;
pub mod outcome;
pub mod phased;
pub mod side;
pub mod standing;
pub mod starting;
mod stepping;
pub mod unsettled;

pub use breaks::{Breaks, RankStop};
pub use desk::Desk;
pub use ending::first_refusal;
pub use gate::{Gate, OpenGate};
pub use outcome::Outcome;
pub use phased::{Known, Phase, PhaseNames, Phased};
pub use side::ExportSide;
pub use standing::Standing;
pub use unsettled::Unsettled;
