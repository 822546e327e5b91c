//! A tree of named directories under numbers that are never used again.
#![tactic(auto)]

pub mod laws;
pub mod name;
mod name_key;
mod node;
pub mod path;
pub mod path_guesses;
pub mod tree;
pub mod tree_error;

pub use name::{Name, is_name};
pub use name_key::NameKey;
pub use path_guesses::PathGuesses;
pub use tree::{Tree, TreeRow};
pub use tree_error::TreeError;
