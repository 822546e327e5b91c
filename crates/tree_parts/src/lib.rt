//! The parts of a tree below chosen tops, with their heat and inodes: from tree, pins and heats to a problem, from a
//! plan back to parts, and from parts to export orders.
#![tactic(auto)]

mod division;
pub mod division_laws;
mod found;
mod largest_sets;
mod moves;
mod open_error;
mod opening;
pub mod order_laws;
pub mod plan_parts;
pub mod problem_laws;
mod rows;

pub use division::{Part, greatest_heat, parts};
pub use largest_sets::orders;
pub use open_error::OpenError;
pub use opening::{Opened, open};
pub use plan_parts::PlanPart;
