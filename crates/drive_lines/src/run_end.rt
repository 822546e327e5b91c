//! How a run ended.

use pin_driver::Ending;

/// How a run ended.
#[derive(Clone, Copy, Debug, PartialEq, Eq)]
pub struct RunEnd {
    /// Whether all is done, or why it stopped.
    pub ending: Ending,
    /// Whether the host was asked to set a pin.
    pub was_set: bool,
}
