//! What is found of one directory.
ghost use Rattle.std.specs.Prelude.{◌≡◌, ◌<◌, length, slice_index, true};
ghost use Rattle.authority_map.specs.Operations.{rank_after};
ghost use Rattle.dirtree.specs.Tree.{is_there};
ghost use Rattle.dir_pins.specs.Pins.{nearest_pin};

use crate::board::Board;
use authority_map::{MapReader, Publisher};
use mds_types::{Dir, Rank};
use proof_names::Naming;

impl<J: Naming, M: Publisher<J>> Board<J, M> {
    /// The number that directory numbers are below.
    pub fn limit(&self) -> u32
        ensures limit { result ≡ self.now.state.directories.limit }
        ensures named { result ≡ J.limit }
        ensures pins { length self.now.state.pins.own ≡ result }
        ensures heats { self.now.state.heats.limit ≡ result }
    {
        self.state.limit()
    }

    /// The pin that holds a directory that is there.
    pub fn pin_of(&self, dir: Dir) -> Option<Rank>
        requires { is_there self.now.state.directories.entries dir ≡ true }
        ensures { result ≡ nearest_pin self.now.state.directories.entries self.now.state.pins.own dir }
    {
        self.state.pin_of(dir)
    }

    /// The heat of a directory, in accesses.
    pub fn heat_of(&self, dir: Dir) -> u64
        requires { dir < self.now.state.directories.limit }
        ensures { result ≡ slice_index self.now.state.heats.heats dir }
    {
        self.state.heat_of(dir)
    }

    /// The rank of a directory in all that is published of the map, which any reader finds.
    pub fn rank_published(&self, dir: Dir) -> Option<Rank>
        ensures { result ≡ rank_after self.now.published dir }
    {
        self.state.rank_published(dir)
    }

    /// The rank that a reader finds for a directory in all that is published of the map.
    pub fn find_published(&self, reader: &mut MapReader<J>, dir: Dir) -> Option<Rank>
        ensures { result ≡ rank_after self.now.published dir }
    {
        self.state.find_published(reader, dir)
    }
}
