//! The texts in which the lines of replies are made.

use std::alloc::Global;

/// Texts that are used again from line to line and from reply to reply, so that no line is a text of its own.
#[derive(Drop)]
pub struct Page {
    /// Lines that are still to be written.
    pub(crate) chunk: String,
    /// The next line.
    pub(crate) line: String,
    /// A field of it: a path, or what became of an order.
    pub(crate) field: String,
}

impl Page {
    /// Empty texts, which have asked for no memory yet.
    pub fn new(alloc: Global) -> Page {
        Page {
            chunk: String::new(alloc),
            line: String::new(alloc),
            field: String::new(alloc),
        }
    }
}
