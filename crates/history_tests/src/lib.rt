//! Tests of the export machine, and of boards with their histories, by public calls.
#![tactic(auto)]

#[cfg(test)]
mod boards;
#[cfg(test)]
mod given;
#[cfg(test)]
mod machine;
pub mod memory_laws;
#[cfg(test)]
mod same;
