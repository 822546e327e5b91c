//! Phases of a board under a lock, in which threads of the ranks work.
//!
//! In a phase of requests each rank's are asked by a thread of its own (`serve_phase`), in one of exports each rank's
//! turns are taken by a thread of its own (`export_phase`), and in `traffic_phase` both go on at once.
#![tactic(auto)]

mod desk;
pub mod exporting;
pub mod laying;
pub mod phase;
mod place;
pub mod route;
mod serving;
mod stopping;
pub mod totals;
pub mod traffic;
mod turn;
mod turns;
mod under_way;
pub mod work;

pub use exporting::{Exported, export_phase, export_phase_from, export_phase_with_stops};
pub use laying::Hands;
pub use phase::{Ranks, serve_phase};
pub use phased_board::{Gate, Known, OpenGate, Outcome, Phase, Phased, RankStop, Unsettled};
pub use route::{OwnRank, Route};
pub use totals::{serve_with_totals, traffic_with_totals};
pub use traffic::{Gates, Tasks, Traffic, traffic_phase};
pub use work::{Work, WorkAnswer, WorkError};
