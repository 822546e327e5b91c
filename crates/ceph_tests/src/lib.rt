//! Tests of the crates that make pins from a live CephFS, by their public calls.
#![tactic(auto)]

#[cfg(test)]
mod distributed;
#[cfg(test)]
mod doubts;
#[cfg(test)]
mod dumps;
#[cfg(test)]
mod given;
#[cfg(test)]
mod hours;
#[cfg(test)]
mod inodes;
#[cfg(test)]
mod packing;
#[cfg(test)]
mod past_hours;
#[cfg(test)]
mod pins;
#[cfg(test)]
mod plans;
#[cfg(test)]
mod quoting;
#[cfg(test)]
mod random_pins;
#[cfg(test)]
mod refused;
#[cfg(test)]
mod same;
#[cfg(test)]
mod snapshots;
