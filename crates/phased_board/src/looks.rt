//! What the states of an export ask of its ranks.
ghost use Rattle.std.specs.Prelude.{◌≡◌, ◌<◌, ◌≤◌, ◌||◌, false, length};
ghost use Rattle.export_protocol.specs.Authority.{exporter_of, importer_of};
ghost use Rattle.phased_board.specs.Looks as looks;

use export_machine::Cluster;
use export_protocol::{ExporterState, ImporterState};

/// Whether the exporter has steps to make.
pub fn is_under_way(exporter: ExporterState) -> bool
    ensures { result ≡ looks.is_under_way exporter }
{
    !matches!(exporter, ExporterState::Done | ExporterState::Aborted)
}

/// Whether the exporter has steps to make in an export.
pub fn is_at_work(cluster: &Cluster, export: u32) -> bool
    ensures there { export < length cluster.now.world.orders
        → result ≡ looks.is_under_way (exporter_of cluster.now.world export) }
{
    match cluster.states(export) {
        Some((exporter, _)) => is_under_way(exporter),
        None => false,
    }
}

/// Whether the exporter waits until no request runs on the directories.
pub fn is_freezing(cluster: &Cluster, export: u32) -> bool
    ensures there { export < length cluster.now.world.orders
        → result ≡ looks.is_freezing (exporter_of cluster.now.world export) }
{
    matches!(cluster.states(export), Some((ExporterState::Freezing, _)))
}

/// Whether the exporter has logged the export.
pub fn is_logged(cluster: &Cluster, export: u32) -> bool
    ensures there { export < length cluster.now.world.orders
        → result ≡ looks.is_logged (exporter_of cluster.now.world export) }
{
    matches!(cluster.states(export), Some((ExporterState::Logged, _)))
}

/// Whether the exporter can still give the export up.
pub fn is_before_log(cluster: &Cluster, export: u32) -> bool
    ensures there { export < length cluster.now.world.orders
        → result ≡ looks.is_before_log (exporter_of cluster.now.world export) }
{
    matches!(
        cluster.states(export),
        Some((
            ExporterState::Discovering
                | ExporterState::Freezing
                | ExporterState::Preparing
                | ExporterState::Exporting,
            _
        ))
    )
}

/// Whether messages about an export may still do something: its importer has neither imported nor dropped it, and knows
/// of it where its exporter has aborted it.
pub fn is_awaited(cluster: &Cluster, export: u32) -> bool
    ensures there { export < length cluster.now.world.orders
        → result ≡ looks.is_awaited (exporter_of cluster.now.world export) (importer_of cluster.now.world export) }
{
    match cluster.states(export) {
        Some((_, ImporterState::Imported | ImporterState::Dropped)) => false,
        Some((ExporterState::Aborted, ImporterState::Unknown)) => false,
        Some(_) => true,
        None => false,
    }
}

/// Whether an export may still go on: its exporter has steps to make, or messages about it may still do something.
pub fn is_unsettled(cluster: &Cluster, export: u32) -> bool
    ensures there { export < length cluster.now.world.orders
        → result ≡ (looks.is_under_way (exporter_of cluster.now.world export) || looks.is_awaited
        (exporter_of cluster.now.world export) (importer_of cluster.now.world export)) }
{
    is_at_work(cluster, export) || is_awaited(cluster, export)
}

/// Whether a message may still do something.
pub fn is_wanted(cluster: &Cluster, message: u32) -> bool
    ensures none { length cluster.now.world.sent ≤ message → result ≡ false }
{
    match cluster.to(message) {
        Some((export, _)) => is_awaited(cluster, export),
        None => false,
    }
}
