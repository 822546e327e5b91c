//! The end of a phase.
ghost use Rattle.std.specs.Prelude.{◌≡◌, ◌<◌, ◌≤◌, ◌↔◌, List, [], count_by, true, length, vec_capacity};
ghost use Rattle.export_protocol.specs.Authority.{exporter_of, importer_of};
ghost use Rattle.mds_board.specs.History.{World};
ghost use Rattle.mds_types.specs.declared.order.Order.{Order as TheOrder};
ghost use Rattle.phased_board.specs.declared.outcome.Outcome.TheVariants as told;
ghost use Rattle.phased_board.specs.Asked.{AreAsked, IsAsked, is_begun, is_waiting};
ghost use Rattle.phased_board.specs.Outcomes.{AreOutcomes, IsOutcome, is_started, by_states};

use crate::outcome::Outcome;
use crate::standing::Standing;
use export_machine::Cluster;
use export_protocol::{ExporterState, ImporterState};

/// Adds what became of orders, where there is room for it.
pub fn tell(cluster: &Cluster, standings: &[Standing], outcomes: &mut Vec<Outcome>)
    requires room { length standings.now ≤ vec_capacity outcomes.old }
    requires none { outcomes.old.items ≡ [] }
    ensures told { (first now : World) (orders : List TheOrder) → now.state.cluster ≡ cluster.now.world
        → AreAsked first now orders standings.now → AreOutcomes first now orders outcomes.new.items }
    ensures counted { count_by is_started outcomes.new.items ≡ count_by is_begun standings.now }
{
    for standing in standings {
        outcomes.push_reserved(outcome(cluster, standing));
    }
}

/// What became of an order. One that still waits was taken up by no thread.
pub fn outcome(cluster: &Cluster, standing: &Standing) -> Outcome
    ensures told { (first now : World) (order : TheOrder) → now.state.cluster ≡ cluster.now.world
        → IsAsked first now order standing.now → IsOutcome first now order result }
    ensures counted { is_started result ≡ is_begun standing.now }
    ensures untaken { (result ≡ told.NoThread) ↔ (is_waiting standing.now ≡ true) }
{
    match standing {
        Standing::Waiting(_) => Outcome::NoThread,
        Standing::Refused(error) => Outcome::Refused(*error),
        Standing::Started(export) => outcome_of(cluster, *export),
    }
}

// The outcome of an export.
fn outcome_of(cluster: &Cluster, export: u32) -> Outcome
    ensures told { export < length cluster.now.world.orders
        → result ≡ by_states export (exporter_of cluster.now.world export) (importer_of cluster.now.world export) }
    ensures started { is_started result ≡ true }
{
    match cluster.states(export) {
        Some((_, ImporterState::Imported)) => Outcome::Done(export),
        Some((ExporterState::Aborted, _)) => Outcome::Aborted(export),
        _ => Outcome::Open(export),
    }
}
