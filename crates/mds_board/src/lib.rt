//! The board: one state, and the stored history that gives it.
//!
//! Each accepted change is kept with its reply, each plan that was adopted is best for the problem that was open, and
//! each directory has exactly one authority.
#![tactic(auto)]

pub mod balancing;
pub mod board;
pub mod board_error;
pub mod change;
pub mod command;
mod counting;
mod directories;
pub mod entry;
pub mod history;
mod judging;
pub mod laws;
mod lookups;
pub mod making;
pub mod opening;
mod ordering;
mod reads;
mod running;
mod settings;
pub mod solver;
pub mod state;
mod state_lookups;
mod stepping;
mod weights;

pub use balancing::Balanced;
pub use board::Board;
pub use board_error::BoardError;
pub use change::{Answer, Change, Hits, KeptEvent, KeptPlan, KeptProblem, Orders};
pub use command::BoardCommand;
pub use entry::Entry;
pub use history::{History, Shown};
pub use making::BoardParts;
pub use opening::{InForce, OpenProblem};
pub use solver::Solver;
pub use state::{BoardState, HISTORY_LIMIT, or_memory};
pub use stepping::is_inner;
pub use weights::Weights;
