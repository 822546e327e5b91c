//! Tests of `pin_driver`, by its public calls.
#![tactic(auto)]

#[cfg(test)]
mod given;
#[cfg(test)]
mod judged;
#[cfg(test)]
mod judged_back;
#[cfg(test)]
mod same;
#[cfg(test)]
mod scripts;
#[cfg(test)]
mod sessions;
#[cfg(test)]
mod texts;
