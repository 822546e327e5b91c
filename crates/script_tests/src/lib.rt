//! Tests of the script's crates, by public calls.
#![tactic(auto)]

#[cfg(test)]
mod pieces;
#[cfg(test)]
mod same;
