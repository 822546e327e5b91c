//! The steps that a number names.

/// A step of an export or of a request, with the number of the message, the export or the ticket that it is about.
#[derive(Clone, Copy, Debug, PartialEq, Eq)]
pub enum NumberedStep {
    /// This message comes to the rank that it is for.
    Deliver(u32),
    /// The exporter of this export has waited until no request runs on its directories.
    Froze(u32),
    /// The exporter of this export makes the map name the importer.
    Notify(u32),
    /// The exporter gives this export up.
    Abort(u32),
    /// The importer asks what became of this export.
    Ask(u32),
    /// The request of this ticket ends.
    End(u32),
}
