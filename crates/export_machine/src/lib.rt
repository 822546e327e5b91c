//! A cluster of metadata ranks in tables, by which an event of `export_protocol` takes time by what it touches only.
#![tactic(auto)]

mod applying;
mod changes;
mod checks;
pub mod cluster;
mod connecting;
mod deliveries;
mod dir_table;
mod effects;
mod export_table;
mod reads;
mod records;
mod refusals;
mod searching;
mod stopping;

pub use cluster::Cluster;
