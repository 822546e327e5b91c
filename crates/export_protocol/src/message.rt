//! What the two ranks of an export send each other.

/// A message about the export of this number.
#[derive(Clone, Copy, Debug, PartialEq, Eq)]
pub enum Message {
    /// To the importer: do you know these directories?
    Discover(u32),
    /// To the exporter: yes.
    DiscoverAck(u32),
    /// To the importer: make ready.
    Prep(u32),
    /// To the exporter: ready.
    PrepAck(u32),
    /// To the importer: here are the directories.
    Export(u32),
    /// To the exporter: they are in my journal.
    ExportAck(u32),
    /// To the importer: they are yours.
    Finish(u32),
    /// To the importer: forget them.
    Cancel(u32),
    /// To the exporter: what became of the export?
    Query(u32),
}

impl Message {
    ghost use Rattle.std.specs.Prelude.{◌≡◌};
    ghost use Rattle.export_protocol.specs.Step.{about};

    /// The export that it is about.
    pub fn export(self) -> u32
        ensures { result ≡ about self }
    {
        match self {
            Message::Discover(export)
            | Message::DiscoverAck(export)
            | Message::Prep(export)
            | Message::PrepAck(export)
            | Message::Export(export)
            | Message::ExportAck(export)
            | Message::Finish(export)
            | Message::Cancel(export)
            | Message::Query(export) => export,
        }
    }
}
