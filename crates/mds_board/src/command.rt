//! What a list asks of a board.

use crate::is_inner;
use dirtree::Name;
use export_protocol::Event;
use mds_types::{Dir, RankSet};

/// What a board is asked for.
#[derive(Drop)]
pub enum BoardCommand {
    /// Makes a directory below this parent, with this name and this number of inodes.
    Make(Dir, Name, u32),
    /// Removes a directory.
    Remove(Dir),
    /// Pins a directory on a rank or, by -1, takes its own pin away.
    Pin(Dir, i32),
    /// Says which ranks the balancer may use.
    Mask(RankSet),
    /// Says how much a read and a write count.
    Weights(u8, u8),
    /// Halves all heats.
    Tick,
    /// An event of the cluster that neither makes nor removes a directory nor begins a request.
    Step(Event),
    /// Opens the problem, solves it and adopts the plan.
    Balance,
}

impl BoardCommand {
    ghost use Rattle.std.specs.Prelude.{◌≡◌};
    ghost use Rattle.mds_board.specs.Commands.{is_fit};

    /// Whether a list may have this command: it is no event that makes or removes a directory or begins a request.
    pub fn is_fit(&self) -> bool
        ensures { result ≡ is_fit self.now }
    {
        match self {
            BoardCommand::Step(event) => is_inner(event),
            _ => true,
        }
    }
}
