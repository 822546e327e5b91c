//! The values that the crates of the balancer hand to each other, and the definitions that its theorems speak of.
#![tactic(auto)]

pub mod cut_proof;
pub mod dir;
pub mod dirs;
pub mod dual_proof;
pub mod kind;
pub mod laws;
pub mod limits;
pub mod order;
pub mod plan;
pub mod problem;
pub mod rank;
pub mod rank_set;
pub mod refusal;

pub use cut_proof::{CutProof, CutTable, Row};
pub use dir::Dir;
pub use dirs::Dirs;
pub use dual_proof::DualProof;
pub use kind::Kind;
pub use order::Order;
pub use plan::Plan;
pub use problem::{Problem, ProblemError, ProblemRow};
pub use rank::Rank;
pub use rank_set::{BadMask, RankSet};
pub use refusal::{ExportStage, Refusal, RefusalValue};
