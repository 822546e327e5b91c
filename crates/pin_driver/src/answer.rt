//! What a host answers to a driver.
ghost use Rattle.std.specs.Prelude.{◌≡◌};
ghost use Rattle.pin_driver.specs.Exchanges.{is_in_place as is_in_place_answer, named_cluster as cluster_of};
ghost use Rattle.pin_driver.specs.Setting.{is_gone as is_gone_answer};

use crate::bytes::Bytes;
use mds_types::Rank;

/// A directory that was looked at.
#[derive(Clone, Copy, Debug, PartialEq, Eq)]
pub struct FoundPin {
    /// Its inode number.
    pub inode: u64,
    /// Its own pin, where it has one.
    pub pin: Option<Rank>,
}

/// What the cluster says of itself.
#[derive(Drop)]
pub struct ClusterState {
    /// The ranks with their daemons and states, in any form that is the same where nothing changed.
    pub ranks: Bytes,
    /// The health warnings that count.
    pub warnings: Vec<Bytes>,
}

/// An answer. Each may come to any question; one that does not fit the question is nonsense.
#[derive(Drop)]
pub enum HostAnswer {
    /// The time is over.
    Waited,
    /// What the cluster says of itself.
    Cluster(ClusterState),
    /// The text is stored.
    Stored,
    /// The directory is there.
    Found(FoundPin),
    /// The pin is set.
    Done,
    /// Whether each directory with a pin is at its rank and none moves.
    InPlace(bool),
    /// There is no such directory.
    Gone,
    /// The question was refused.
    Refused,
    /// Nothing answered.
    NoAnswer,
    /// Something else was answered.
    Nonsense,
}

/// The state of the cluster that an answer names.
pub(crate) fn named_cluster(answer: HostAnswer) -> Option<ClusterState>
    ensures { result ≡ cluster_of answer }
{
    match answer {
        HostAnswer::Cluster(state) => Some(state),
        _ => None,
    }
}

pub(crate) fn is_in_place(answer: &HostAnswer) -> bool
    ensures { result ≡ is_in_place_answer answer.now }
{
    match answer {
        HostAnswer::InPlace(is) => *is,
        _ => false,
    }
}

pub(crate) fn is_gone(answer: &HostAnswer) -> bool
    ensures { result ≡ is_gone_answer answer.now }
{
    match answer {
        HostAnswer::Gone => true,
        _ => false,
    }
}
