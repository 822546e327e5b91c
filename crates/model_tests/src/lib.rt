//! Tests of the model, by public calls: heats, problems of random boards, orders, shares and the published map; cuts,
//! placings and plans. `division` and `placing` are a second opinion: they find what is best by trying everything, as
//! plainly as a program can, and have no contract but to be safe and to end.
#![tactic(auto)]

#[cfg(test)]
mod boards;
#[cfg(test)]
mod bounds;
#[cfg(test)]
mod cuts;
#[cfg(test)]
mod division;
#[cfg(test)]
mod given;
#[cfg(test)]
mod heats;
#[cfg(test)]
mod map;
#[cfg(test)]
mod orders;
#[cfg(test)]
mod placing;
#[cfg(test)]
mod placings;
#[cfg(test)]
mod plans;
#[cfg(test)]
mod random;
#[cfg(test)]
mod same;
#[cfg(test)]
mod shares;
