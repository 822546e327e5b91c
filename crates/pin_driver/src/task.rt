//! What a driver is to do.

use crate::plan::PinPlan;
use crate::question::Mark;

/// How many looks in a row have to find all in place.
pub const LOOKS: u8 = 3;

/// How many seconds a driver rests first, where pins may be set already: a pin may be read as its old value that long.
pub const REST_SECONDS: u64 = 10;

/// How much a driver changes at a time, and how long it waits.
#[derive(Clone, Copy, Debug)]
pub struct Pace {
    /// After the pins of this many inodes it waits until all is in place.
    pub batch_inodes: u64,
    /// How many seconds it waits between two looks.
    pub poll_seconds: u64,
    /// How many seconds it waits at most, until the directories of a batch are in place.
    pub longest_wait: u64,
}

/// A plan, how far it is at the begin, and at what pace to go on.
#[derive(Drop)]
pub struct Task {
    /// The plan.
    pub plan: PinPlan,
    /// How far it is at the begin, as the stored text says.
    pub first: Mark,
    /// The pace.
    pub pace: Pace,
}
