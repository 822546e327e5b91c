//! The kind of a request.

/// What a request does to the directory, by which its hits are counted.
#[derive(Clone, Copy, Debug, PartialEq, Eq)]
pub enum Kind {
    Read,
    Write,
}
