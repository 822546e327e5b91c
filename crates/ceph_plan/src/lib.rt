//! Which rank each directory of a live CephFS is to be at, and the export pins that put it there.
//!
//! The directories are divided into connected parts, several a rank, and the parts are packed on the ranks with what
//! is pinned there (`packing`, `bound`). `pins` and `changes` give the pins for that, and no more of them than it
//! takes. Ceph's rule: the nearest pin at or above a directory decides where it is. The root itself can't be pinned.
//!
//! `quote` makes words for `sh`: any bytes but NUL, in single quotes.
#![tactic(auto)]

pub mod bound;
pub mod candidate;
pub mod changes;
pub mod choice;
mod exchange;
pub mod for_hours;
mod gathered;
mod hold;
pub mod hour_choice;
pub mod hours;
pub mod hours_error;
pub mod laws;
pub mod loads;
pub mod made;
mod moving;
mod order;
pub mod packing;
mod pick;
pub mod pins;
mod placement;
pub mod plan;
pub mod plan_error;
pub mod proposal;
pub mod quote;
mod rank_choice;
pub mod row;
pub mod shares;
mod swaps;
pub mod worth;

pub use bound::{heats_bound, total_heat};
pub use candidate::Candidate;
pub use changes::changes_for;
pub use choice::{PartCount, Wanted, choose_plan};
pub use for_hours::{HOUR_LIMIT, HoursProposal, propose_for};
pub use hour_choice::chosen_hours;
pub use hours::{Hour, one_hour};
pub use hours_error::HoursError;
pub use made::{MADE_WEIGHT, MadeHour, made_hours};
pub use packing::{Packed, Packing, Packings, are_parts, are_pinned, pack};
pub use pins::{are_rows, pins_for};
pub use plan::Planned;
pub use plan_error::PlanError;
pub use proposal::{OwnPins, Proposal, propose};
pub use quote::quoted;
pub use row::{Pin, PinChange, PinRow};
pub use shares::{SCALE, Shares, are_hours, shared};
pub use worth::{Gain, LeastGain, is_worth_it};
