//! Tests of the phases that carry out exports, alone or beside requests, by their public calls.
#![tactic(auto)]

#[cfg(test)]
mod boards;
#[cfg(test)]
mod gates;
#[cfg(test)]
mod many;
#[cfg(test)]
mod moves;
#[cfg(test)]
mod phase;
#[cfg(test)]
mod refused;
#[cfg(test)]
mod same;
#[cfg(test)]
mod scarce;
#[cfg(test)]
mod steps;
#[cfg(test)]
mod stops;
#[cfg(test)]
mod traffic;
