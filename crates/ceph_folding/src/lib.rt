//! Folds directories of a snapshot into those above them: the coldest, where it has more than a plan may have, or all
//! but those that Ceph's commands for subvolumes name.
#![tactic(auto)]

mod amounts;
mod coldest;
pub mod folding;
mod hours;

pub use folding::{fold, fold_to_units};
