//! The words of `mdbal`'s command line, and files that are made as it asks.
//!
//! `mdbal [--limit N] [--strict] [--proofs FILE] [--quiet]`: what counts as such a line is `clap`'s own reading of it.
#![tactic(auto)]

mod files;
pub mod laws;
mod options_error;
mod settings;

pub use files::create_file;
pub use options_error::OptionsError;
pub use settings::{Settings, options};
