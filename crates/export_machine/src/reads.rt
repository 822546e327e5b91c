//! Reads that go by what always holds of the tables.

ghost use Rattle.std.specs.Prelude.{◌≡◌, ℕ, ◌<◌, ◌∷◌, [], length, Some};
ghost use Rattle.export_protocol.specs.Authority.{authority, open_export, frozen_by, order_in};
ghost use Rattle.export_protocol.specs.Step.{running_on};
ghost use Rattle.export_protocol.specs.Roots.{root_rank};
ghost use Rattle.export_machine.specs.Kept.{children_of};

use crate::cluster::Cluster;
use export_protocol::ExporterState;
use mds_types::{Dir, Rank};

impl Cluster {
    /// The authority of a directory that is the root of a subtree.
    pub(crate) fn root_rank(&self, dir: Dir) -> Option<Rank>
        ensures { result ≡ root_rank self.now.world dir }
    {
        match self.records.parent(dir) {
            Some(parent) if dir.number() == 0 || self.authority(dir) != self.authority(parent) => {
                self.authority(dir)
            }
            _ => None,
        }
    }

    pub(crate) fn open_export(&self, dir: Dir) -> Option<u32>
        ensures { result ≡ open_export self.now.world dir }
    {
        self.records.dirs.opened(dir)
    }

    pub(crate) fn running_on(&self, dir: Dir) -> u32
        ensures { result ≡ running_on self.now.world (dir ∷ []) }
    {
        self.records.dirs.running(dir)
    }

    pub(crate) fn children(&self, dir: Dir) -> u32
        ensures { result ≡ children_of self.now.world dir }
    {
        self.records.dirs.children(dir)
    }

    /// The export because of which the authority of a directory doesn't serve it.
    pub(crate) fn frozen_by(&self, dir: Dir) -> Option<u32>
        ensures { (rank : ℕ) → authority self.now.world dir ≡ Some rank
            → result ≡ frozen_by self.now.world rank dir }
    {
        match self.open_export(dir) {
            Some(export) => match self.records.exporter(export) {
                ExporterState::Discovering => None,
                _ => Some(export),
            },
            None => None,
        }
    }

    /// How many requests run on the directories of an export.
    pub(crate) fn running_in(&self, export: u32) -> u32
        requires { export < length self.now.world.orders }
        ensures { result ≡ running_on self.now.world (order_in self.now.world.orders export).dirs }
    {
        let dirs = self.records.dirs(export);
        let mut requests = 0;
        for dir in dirs {
            requests += self.running_on(*dir);
        }
        requests
    }
}
