//! Export pins of directories, as `ceph.dir.pin` sets them, and the directories that no pin holds.
#![tactic(auto)]

pub mod laws;
pub mod pin_error;
pub mod pins;

pub use pin_error::PinError;
pub use pins::Pins;
