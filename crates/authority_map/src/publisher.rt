//! What the writer of a board's map does.
ghost use Rattle.std.specs.Prelude.{◌≡◌, ◌-◌, ◌<◌, ◌≤◌, ◌∷◌, [], ◌++◌, ℕ, List, All, IfErr, IfOk, OnOk, OnErr, vec_len};
ghost use Rattle.authority_map.specs.Operations.{Operation, SetTo, Clear, rank_after};

use crate::map_error::MapError;
use crate::map_reader::{MapReader, Published};
use mds_types::{Dir, Rank};
use proof_names::Naming;
use std::alloc::Global;

/// Publishes the map of the board that `J` names.
///
/// Who holds a writer names this trait and not the writer's type, as no struct can name the
/// library's writer at given copies.
pub trait Publisher<J: Naming> {
    // The operations that are published, in order from the first.
    ghost published: { Self → List Operation };

    // The operations that are to be published next.
    ghost pending: { Self → List Operation };

    // For how many more operations there is room.
    ghost room: { Self → ℕ };

    /// Makes room for one operation.
    fn reserve(&mut self) -> Result<(), MapError>
        ensures room { OnOk result (1 ≤ room self.new) }
        ensures refused { IfErr result (λ e. e ≡ MapError.Memory) }
        ensures same { (published self.new ≡ published self.old) × (pending self.new ≡ pending self.old) };

    /// Gives the directories the rank, from the next `publish` on.
    fn set(&mut self, dirs: Vec<Dir>, rank: Rank)
        requires room { 1 ≤ room self.old }
        requires inside { All (λ dir. dir < J.limit) dirs.items }
        ensures appended { pending self.new ≡ pending self.old ++ SetTo dirs.items rank ∷ [] }
        ensures room { room self.new ≡ room self.old - 1 }
        ensures published { published self.new ≡ published self.old };

    /// Gives one directory the rank, from the next `publish` on.
    fn set_one(&mut self, dir: Dir, rank: Rank)
        requires room { 1 ≤ room self.old }
        requires inside { dir < J.limit }
        ensures appended { pending self.new ≡ pending self.old ++ SetTo (dir ∷ []) rank ∷ [] }
        ensures room { room self.new ≡ room self.old - 1 }
        ensures published { published self.new ≡ published self.old };

    /// Takes the directory's rank away, from the next `publish` on.
    fn clear(&mut self, dir: Dir)
        requires room { 1 ≤ room self.old }
        requires inside { dir < J.limit }
        ensures appended { pending self.new ≡ pending self.old ++ Clear dir ∷ [] }
        ensures room { room self.new ≡ room self.old - 1 }
        ensures published { published self.new ≡ published self.old };

    /// Shows readers all that is pending. It waits for readers still in the copy of the publish before the last.
    fn publish(&mut self) -> Result<(), MapError>
        ensures ok { OnOk result ((published self.new ≡ published self.old ++ pending self.old)
            × (pending self.new ≡ [])) }
        ensures refused { IfErr result (λ e. e ≡ MapError.Memory) }
        ensures unchanged { OnErr result ((published self.new ≡ published self.old)
            × (pending self.new ≡ pending self.old)) };

    /// Opens the map anew, for this many readers, which hold all that is published. Readers of before find it closed.
    /// It waits for those that are still in it.
    fn reopen(&mut self, alloc: Global, readers: u8) -> Result<Vec<MapReader<J>>, MapError>
        requires readers { (1 ≤ readers) × (readers ≤ 64) }
        ensures count { IfOk result (λ made. vec_len made ≡ readers) }
        ensures readers { IfOk result (λ made. All (λ reader. reader ≡ published self.old) made.items) }
        ensures refused { IfErr result (λ e. e ≡ MapError.Memory) }
        ensures same { (published self.new ≡ published self.old) × (pending self.new ≡ pending self.old)
            × (room self.new ≡ room self.old) };

    /// A token of what is published.
    fn tell(&self) -> Published<J>
        ensures { result ≡ published self.now };

    /// The rank of a directory in what is published.
    fn rank_of(&self, dir: Dir) -> Option<Rank>
        ensures { result ≡ rank_after (published self.now) dir };

    /// Ends the map: readers find it closed from now on. It waits for readers that are still in it.
    fn end(self);
}
