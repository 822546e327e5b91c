//! The popularity of directories, as counters that decay.
#![tactic(auto)]

mod heat;
mod ticks_full;
mod touch;

pub use heat::{Heat, TICK_LIMIT};
pub use ticks_full::TicksFull;
