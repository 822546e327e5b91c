//! Places parts on ranks so that the fewest inodes move, with the prices that show it.
//!
//! Which of several best placings is chosen is left open.
#![tactic(auto)]

mod assigned;
mod chunks;
mod hungarian;
mod moved_inodes;
mod table;
mod ways;

pub use assigned::{Assigned, assign};
pub use moved_inodes::{costs, costs_by, sums};
pub use table::Costs;
