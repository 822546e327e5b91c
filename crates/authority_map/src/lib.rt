//! The published map from directories to ranks: one writer, and readers that take no lock.
//!
//! A reader's answer is that of a beginning of the writer's operations. It never goes back, and it holds all that the
//! reader has learned. Of what two readers hold, or a reader and a token, one is a beginning of the other. Two copies
//! are kept by `left_right`: readers enter the one that is shown, while the writer changes the other.
#![tactic(auto)]

mod found;
mod history;
mod map_error;
mod map_reader;
mod map_writer;
mod operation;
mod publisher;
mod queue;
mod rewriting;
mod runs;
mod table;

pub use found::Found;
pub use history::NewMap;
pub use map_error::MapError;
pub use map_reader::{MapReader, Published};
pub use map_writer::{MapWriter, WriterOf};
pub use publisher::Publisher;
