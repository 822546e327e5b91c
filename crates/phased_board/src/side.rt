//! What the threads of a phase do to the exports of the board that they share.
ghost use Rattle.std.specs.Prelude.{◌≡◌, ◌≤◌, ℕ, IfSome, true};
ghost use Rattle.mds_board.specs.declared.change.Change.TheVariants as Change;
ghost use Rattle.phased_board.specs.Going.{IsOfPhase};
ghost use Rattle.phased_board.specs.Asked.{is_later};

use export_machine::Cluster;
use export_protocol::Event;
use std::alloc::Global;

/// The exports of a board that is under a lock. Its methods are all that a thread of a phase can do to them.
pub trait ExportSide {
    // How many exports were started before the phase.
    ghost earlier: { ℕ };

    /// The cluster of ranks, with its exports.
    fn cluster(&self) -> &Cluster;

    /// Starts the order of this number if it waits, and returns its export.
    fn start(&mut self, alloc: Global, number: usize) -> Option<u32>;

    /// An event by which exports go on, or an export of the phase is aborted, and whether it was accepted.
    fn step(&mut self, alloc: Global, event: Event) -> bool
        requires later { is_later event ≡ true }
        requires ours { IsOfPhase earlier (Change.Step event) };

    /// Publishes the map, if memory suffices.
    fn publish(&mut self);

    /// The export that was started for the order of this number.
    fn started(&self, number: usize) -> Option<u32>
        ensures { IfSome result (λ x. earlier ≤ x) };
}
