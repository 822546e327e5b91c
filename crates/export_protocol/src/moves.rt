//! The table of messages: what a message does at the rank that it comes to.

ghost use Rattle.std.specs.Prelude.{◌≡◌, None, Some};
ghost use Rattle.export_protocol.specs.Step.{exporting, importing, telling, move};

use crate::exporter::ExporterState;
use crate::importer::ImporterState;
use crate::journal::JournalEntry;
use crate::message::Message;

/// What a message makes the rank do that it comes to: the export's next state there, if it changes, the entry that the
/// rank journals, and the message that it sends.
#[derive(Clone, Copy)]
pub struct Transition {
    pub exporter: Option<ExporterState>,
    pub importer: Option<ImporterState>,
    pub entry: Option<JournalEntry>,
    pub sends: Option<Message>,
}

fn exporting(
    state: ExporterState,
    entry: Option<JournalEntry>,
    sends: Option<Message>,
) -> Option<Transition>
    ensures { result ≡ exporting state entry sends }
{
    Some(Transition {
        exporter: Some(state),
        importer: None,
        entry,
        sends,
    })
}

fn importing(
    state: ImporterState,
    entry: Option<JournalEntry>,
    sends: Option<Message>,
) -> Option<Transition>
    ensures { result ≡ importing state entry sends }
{
    Some(Transition {
        exporter: None,
        importer: Some(state),
        entry,
        sends,
    })
}

fn telling(message: Message) -> Option<Transition>
    ensures { result ≡ telling message }
{
    Some(Transition {
        exporter: None,
        importer: None,
        entry: None,
        sends: Some(message),
    })
}

/// The move of a message, by the states of its export at exporter and importer. In every state that is in no row a
/// message does nothing.
pub fn move_of(
    message: Message,
    exporter: ExporterState,
    importer: ImporterState,
) -> Option<Transition>
    ensures { result ≡ move message exporter importer }
{
    use ExporterState::{Aborted, Discovering, Done, Exporting, Freezing, Logged, Preparing};
    use ImporterState::{Discovered, Dropped, Imported, Prepared, Started, Unknown};
    use Message::{Cancel, Discover, DiscoverAck, Export, ExportAck, Finish, Prep, PrepAck, Query};

    match (message, exporter, importer) {
        (Discover(x), _, Unknown) => importing(Discovered, None, Some(DiscoverAck(x))),
        (DiscoverAck(_), Discovering, _) => exporting(Freezing, None, None),
        (Prep(x), _, Discovered) => importing(Prepared, None, Some(PrepAck(x))),
        (PrepAck(x), Preparing, _) => exporting(Exporting, None, Some(Export(x))),
        (Export(x), _, Prepared) => {
            importing(Started, Some(JournalEntry::Started(x)), Some(ExportAck(x)))
        }
        (ExportAck(x), Exporting, _) => exporting(Logged, Some(JournalEntry::Exported(x)), None),
        (Finish(x), _, Started) => importing(Imported, Some(JournalEntry::Imported(x)), None),
        (Cancel(_), _, Unknown | Discovered | Prepared) => importing(Dropped, None, None),
        (Cancel(x), _, Started) => importing(Dropped, Some(JournalEntry::Dropped(x)), None),
        (Query(x), Done, _) => telling(Finish(x)),
        (Query(x), Aborted, _) => telling(Cancel(x)),
        _ => None,
    }
}
