//! What the lines of a script do, and what is printed for them.
#![tactic(auto)]

mod carry_out;
mod cost;
pub mod done;
pub mod hints;
pub mod laws;
mod line_end;
mod looks;
mod moved;
mod page;
pub mod plan;
pub mod print;
pub mod reply;
pub mod report;
pub mod script;
pub mod session;
mod stat;
mod stepped;

pub use done::Done;
pub use hints::{Hints, Silence};
pub use script::{Ended, RunOptions, run};
pub use session::Session;
