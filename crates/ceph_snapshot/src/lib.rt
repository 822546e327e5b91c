//! One picture of a live CephFS from its ranks' dumps: directories with heat and inodes, where each is, what pins it.
#![tactic(auto)]

pub mod directory;
pub mod gathering;
pub mod held;
pub mod mounted;
mod names;
pub mod past_heats;
pub mod policies;
pub mod rows;
pub mod snapshot;
pub mod snapshot_error;
mod tree;

pub use ceph_dumps::EphemeralPin;
pub use directory::{Directory, own_heats};
pub use gathering::Gathering;
pub use held::{Held, held_heat, held_heat_then, holds};
pub use mounted::Mounted;
pub use past_heats::{heats_then, hour_of};
pub use rows::{free_heats, free_heats_then, rows_of};
pub use snapshot::Snapshot;
pub use snapshot_error::SnapshotError;
