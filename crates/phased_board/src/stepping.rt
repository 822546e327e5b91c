//! Single steps on a board.
ghost use Rattle.std.specs.Prelude.{◌≡◌, ◌++◌, ◌∷◌, [], ℕ, false, length, true, All, IfOk, IfErr, OnErr};
ghost use Rattle.mds_board.specs.declared.change.Change.TheVariants.{Step};
ghost use Rattle.mds_board.specs.Steps.{IsDue};
ghost use Rattle.phased_board.specs.Going.{IsOfPhase, WentOnBy, added};

use authority_map::Publisher;
use export_protocol::{Event, Reply};
use mds_board::{Board, BoardError};
use mds_types::Order;
use proof_names::Naming;
use std::alloc::Global;

/// Starts an export, and returns its number.
#[tactic(auto, using(crate::proofs::Going::stays, crate::proofs::Going::adds_none))]
pub(crate) fn start<J: Naming, M: Publisher<J>>(
    board: &mut Board<J, M>,
    alloc: Global,
    order: Order,
) -> Result<u32, BoardError>
    ensures went { WentOnBy false true board.old board.new }
    ensures events { (before : ℕ) → All (λ e. IsOfPhase before e.change) (added board.old board.new) }
    ensures started { IfOk result (λ x. (x ≡ length board.old.state.cluster.orders)
        × (board.new.state.cluster.orders ≡ board.old.state.cluster.orders ++ order ∷ [])) }
    ensures refused { IfErr result (λ e. IsDue board.old.state (Step (Event.Start order.from order.to order.dirs)) e) }
    ensures unchanged { OnErr result (board.new ≡ board.old) }
{
    let Order { from, to, dirs } = order;
    let reply = board.step(alloc, Event::Start(from, to, dirs))?;
    match reply {
        Reply::Export(export, _) => Ok(export),
        _ => unreachable!(),
    }
}
