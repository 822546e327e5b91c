//! The published map.

mod maps;
mod opened;
mod published;
mod reopened;
mod watched;
