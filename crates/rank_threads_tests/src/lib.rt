//! Tests of the rank threads: requests of two ranks and of 64, and orders of three; where threads are refused, or the
//! history is full, too.
#![tactic(auto)]

#[cfg(test)]
mod boards;
#[cfg(test)]
mod exports;
#[cfg(test)]
mod full;
#[cfg(test)]
mod gates;
#[cfg(test)]
mod many;
#[cfg(test)]
mod requests;
#[cfg(test)]
mod rows;
#[cfg(test)]
mod same;
#[cfg(test)]
mod threads;
#[cfg(test)]
mod trials;
