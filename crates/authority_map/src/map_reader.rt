//! A reader of the map.
ghost use Rattle.std.specs.Prelude.{◌≡◌, ◌≢◌, ◌⊎◌, IsTrue};
ghost use mathlib.Core.List.{IsPrefix};
ghost use Rattle.authority_map.specs.Operations.{rank_after};
ghost use Rattle.authority_map.specs.Answer.{found_of};

use crate::found::Found;
use crate::history::LogPrefix;
use crate::publisher::Publisher;
use crate::table::Table;
use left_right::ReadHandle;
use mds_types::{Dir, Rank};
use proof_names::Naming;
use std::marker::Model;

/// A reader, which one thread has at a time. A contract sees the list of operations that its answers hold.
#[derive(Drop)]
pub struct MapReader<J: Naming> {
    handle: ReadHandle<Table<J>>,
    prefix: LogPrefix<J>,
}

impl<J: Naming> Model for MapReader<J> {
    ghost use Rattle.std.specs.Prelude.{List};
    ghost use Rattle.authority_map.specs.Operations.{Operation};

    ghost Value = { List Operation };

    ghost view = { λ reader. reader.prefix };
}

/// What was published of the board's map when the token was made. A thread hands it to a reader
/// in another thread.
#[derive(Drop)]
pub struct Published<J: Naming> {
    prefix: LogPrefix<J>,
}

impl<J: Naming> Model for Published<J> {
    ghost use Rattle.std.specs.Prelude.{List};
    ghost use Rattle.authority_map.specs.Operations.{Operation};

    ghost Value = { List Operation };

    ghost view = { λ published. published.prefix };
}

impl<J: Naming> Published<J> {
    pub(crate) fn of(prefix: LogPrefix<J>) -> Published<J>
        ensures { result ≡ prefix }
    {
        Published { prefix }
    }

    /// Of what two tokens hold, one is a beginning of the other.
    pub fn beside(&self, other: &Published<J>)
        ensures { IsPrefix self.now other.now ⊎ IsPrefix other.now self.now }
    {
        self.prefix.are_of_one(&other.prefix);
    }
}

impl<J: Naming> MapReader<J> {
    pub(crate) fn over(handle: ReadHandle<Table<J>>, prefix: LogPrefix<J>) -> MapReader<J>
        ensures { result ≡ prefix }
    {
        MapReader { handle, prefix }
    }

    /// The rank of a directory. The answer holds all that earlier answers held and all that the
    /// reader has learned. It takes no lock and no memory, and never waits.
    pub fn find(&mut self, dir: Dir) -> Found
        ensures answer { result ≢ Found.Closed → result ≡ found_of (rank_after self.new dir) }
        ensures prefix { IsPrefix self.old self.new }
    {
        let Some(table) = self.handle.enter() else {
            return Found::Closed;
        };
        if !self.prefix.is_part_of(&table.prefix) {
            return Found::Closed;
        }
        self.prefix = table.prefix.copied();
        match table.rank_of(dir) {
            Some(rank) => Found::Rank(rank),
            None => Found::NoDir,
        }
    }

    /// What the answers hold is a beginning of what was published, or the other way round.
    pub fn beside(&self, published: &Published<J>)
        ensures { IsPrefix self.now published.now ⊎ IsPrefix published.now self.now }
    {
        self.prefix.are_of_one(&published.prefix);
    }

    /// Of what the answers of two readers hold, one is a beginning of the other.
    pub fn beside_reader(&self, other: &MapReader<J>)
        ensures { IsPrefix self.now other.now ⊎ IsPrefix other.now self.now }
    {
        self.prefix.are_of_one(&other.prefix);
    }

    /// Whether the answers hold just what was published then, and nothing later.
    pub fn is_at(&self, published: &Published<J>) -> bool
        ensures same { IsTrue result → self.now ≡ published.now }
        ensures found { self.now ≡ published.now → IsTrue result }
    {
        self.prefix.is_same(&published.prefix)
    }

    /// The rank of a directory in all that is published, for a caller that has the writer. It is what the reader finds.
    /// Where the reader is closed or holds more, which can't happen while the writer lives, the writer's copy answers.
    pub fn find_latest<P: Publisher<J>>(&mut self, publisher: &P, dir: Dir) -> Option<Rank>
        ensures rank { result ≡ rank_after (P.published publisher.now) dir }
        ensures prefix { IsPrefix self.old self.new }
    {
        self.learn(publisher.tell());
        let found = self.find(dir);
        if !self.is_at(&publisher.tell()) {
            return publisher.rank_of(dir);
        }
        match found {
            Found::Rank(rank) => Some(rank),
            Found::NoDir => None,
            Found::Closed => publisher.rank_of(dir),
        }
    }

    /// Learns what was published: from now on the answers hold it.
    pub fn learn(&mut self, published: Published<J>)
        ensures prefix { IsPrefix self.old self.new }
        ensures learned { IsPrefix published self.new }
    {
        let Published { prefix } = published;
        if self.prefix.is_part_of(&prefix) {
            self.prefix = prefix;
        }
    }
}
