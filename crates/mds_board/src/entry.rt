//! Entries of a board's history.

use crate::{Answer, Change};

/// An accepted change, with its reply.
#[derive(Drop)]
pub struct Entry {
    /// The change.
    pub change: Change,
    /// The reply that its caller got.
    pub reply: Answer,
}
