//! Changes of export pins that are planned, in their order.
ghost use Rattle.std.specs.Prelude.{◌≡◌};

use crate::bytes::Bytes;
use mds_types::Rank;
use std::marker::Model;

/// A change of the pin of a directory.
#[derive(Drop)]
pub struct PlannedChange {
    /// The path of the directory.
    pub path: Bytes,
    /// Its inode number, where it is known.
    pub inode: Option<u64>,
    /// The pin that it has now, where it has one.
    pub before: Option<Rank>,
    /// The pin that it is to have, if any.
    pub after: Option<Rank>,
    /// How many inodes move.
    pub inodes: u64,
}

/// A pin that this program set, before the changes.
#[derive(Drop)]
pub struct EarlierPin {
    /// The path of the directory.
    pub path: Bytes,
    /// Its inode number, where it is known.
    pub inode: Option<u64>,
    /// The rank that it is pinned to.
    pub rank: Rank,
}

/// Planned changes, in the order in which they are made, and the pins that this program set before them. To a
/// contract it is the record of its parts.
#[derive(Drop)]
pub struct PinPlan {
    identity: Bytes,
    changes: Vec<PlannedChange>,
    earlier: Vec<EarlierPin>,
}

impl Model for PinPlan {
    ghost use Rattle.pin_driver.specs.PinPlan.{PlanParts, made_plan};

    ghost Value = { PlanParts };

    ghost view = { λ plan. made_plan plan.identity plan.changes.items plan.earlier.items };
}

impl PinPlan {
    /// A plan of these changes. `earlier` are the pins that this program set before.
    pub fn new(identity: Bytes, changes: Vec<PlannedChange>, earlier: Vec<EarlierPin>) -> PinPlan
        ensures identity { result.identity ≡ identity }
        ensures changes { result.changes ≡ changes.items }
        ensures earlier { result.earlier ≡ earlier.items }
    {
        PinPlan {
            identity,
            changes,
            earlier,
        }
    }

    /// What names the plan.
    pub fn identity(&self) -> &Bytes
        ensures { result.now ≡ self.entry.now.identity }
    {
        &self.identity
    }

    /// The changes, in order.
    pub fn changes(&self) -> &[PlannedChange]
        ensures { result.now ≡ self.entry.now.changes }
    {
        self.changes.as_slice()
    }

    /// The pins that this program set before the changes.
    pub fn earlier(&self) -> &[EarlierPin]
        ensures { result.now ≡ self.entry.now.earlier }
    {
        self.earlier.as_slice()
    }
}
