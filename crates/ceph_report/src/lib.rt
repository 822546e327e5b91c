//! What a plan for a live CephFS is shown as: a report for people, JSON for programs, a picture, and the same
//! directories as a script of `mdbal`.
#![tactic(auto)]

pub mod check;
pub mod facts;
pub mod hours;
pub mod json;
pub mod laws;
pub mod mdbal_script;
pub mod moves;
mod notes;
pub mod picture;
mod places;
pub mod plan_check;
pub mod report;
pub mod roots;
pub mod spreading;
pub mod staying;
pub mod staying_text;
mod text;

pub use check::{PinCheck, check_pins};
pub use facts::{Facts, HottestDirectory, hottest, hottest_of};
pub use hours::PlannedHour;
pub use json::make_json;
pub use mdbal_script::make_script;
pub use moves::{Move, Sums, goals_of, inodes_brought, moves_of, sums_of};
pub use picture::make_picture;
pub use plan_check::check_plan;
pub use report::make_report;
pub use roots::{Roots, roots_of};
pub use staying::{Stay, stays_of};
