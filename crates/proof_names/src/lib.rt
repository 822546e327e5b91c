//! Names that exist only in proofs: of one board, of a log that grows under a lock with what threads have seen of it,
//! and of numbers that are given out, each once.
#![tactic(auto)]

mod log;
mod naming;
mod numbers;
mod numbers_rule;
mod rule;

pub use log::{Growth, Log, LogName, NewLog, Sight};
pub use naming::Naming;
pub use numbers::{Given, NewNumbers, Numbers, NumbersName};
