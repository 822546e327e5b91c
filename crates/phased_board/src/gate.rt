//! A gate that each thread calls when it begins a piece of work and when the work is done.

use mds_types::Rank;

/// Callbacks around the pieces of work of a phase.
///
/// In a phase of requests the number is that of the request in the rank's script. `before` is called before its
/// hits, and `after` after its end. In a phase of exports the number is that of the round, from 1 to 8, and each
/// active rank is named in each round. The calling thread calls the gate for a rank that has nothing to look after
/// in a round, after the other ranks were called for their turns. The board is not locked during a call.
pub trait Gate {
    /// A request was asked for, and has counted no hit; or a turn begins.
    fn before(&self, rank: Rank, number: u64);

    /// A request has its answer, or a turn is over.
    fn after(&self, rank: Rank, number: u64);
}

/// A gate that does nothing.
pub struct OpenGate;

impl Gate for OpenGate {
    fn before(&self, _rank: Rank, _number: u64) {}

    fn after(&self, _rank: Rank, _number: u64) {}
}
