//! Divides directories into the fewest connected parts whose heat is within a bound.
//!
//! The rows are handled from the leaves up. Each row keeps the heat of the piece that is left
//! around it; where that passes the bound, the hottest pieces of its children are cut off until the
//! rest fits (S. Kundu and J. Misra, "A linear tree partitioning algorithm", SIAM Journal on
//! Computing 6(1), 1977). The table of what was left and cut is the proof that no division within
//! the bound has fewer parts.
#![tactic(auto)]

mod child;
pub mod cut;
mod detach;
mod hottest;
pub mod links;
mod numbering;
pub mod probe;
pub mod subtrees;
mod walk;

pub use cut::{Cut, CutError, cut_at, cut_cool, cut_linked, table_linked};
pub use links::{Links, Walk, link};
pub use probe::{Probe, try_bound};
pub use subtrees::{Subtrees, Weighed, weigh};
