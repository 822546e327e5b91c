//! Reads a script in pieces of any size, and has each of its lines answered by what the caller provides.
//!
//! `run_script` knows nothing of commands. It splits the bytes into lines, counts them, hands each to
//! an `Interpreter`, stops early where the run is strict, and says what holds after a device failed.
#![tactic(auto)]

mod driver;
mod input;
mod interpreter;
pub mod laws;
mod output;
pub mod past;
mod progress;
mod writes;

pub use driver::{RunError, run_script};
pub use input::{Input, ReadFailed};
pub use interpreter::Interpreter;
pub use output::Output;
pub use writes::{WriteFailed, write_fault, write_refusal, write_whole};
