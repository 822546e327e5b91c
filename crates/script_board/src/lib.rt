//! What a script has made: a board with the shares of its ledger, the requests that wait, the orders of the last
//! plan, and the ranks that are to stop; and what each command of a script does to it.
#![tactic(auto)]

pub mod carried;
mod commands;
mod cost;
mod dealing;
pub mod export_fact;
pub mod fault;
pub mod laws;
pub mod load;
mod looks;
mod moving;
pub mod parts;
pub mod plan;
mod reads;
pub mod script_board;
mod serve;
mod stat;
mod steps;
pub mod traffic;

pub use carried::Carried;
pub use export_fact::ExportFact;
pub use fault::Fault;
pub use load::Load;
pub use parts::Parts;
pub use script_board::ScriptBoard;
