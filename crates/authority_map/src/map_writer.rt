//! The writer of the map.
ghost use Rattle.std.specs.Prelude.{◌≡◌, ◌≤◌, ◌↔◌, ◌++◌, [], All, IfOk, IfErr, IsTrue, OnErr, OnOk, vec_len};
ghost use Rattle.left_right.specs.Handles.{published, pending};
ghost use Rattle.authority_map.specs.LogEntries.{operations_of};

use crate::history::{LogPrefix, NewMap};
use crate::map_error::MapError;
use crate::map_reader::{MapReader, Published};
use crate::operation::OperationKind;
use crate::publisher::Publisher;
use crate::queue::{Logged, Queue, hand_all};
use crate::table::Table;
use left_right::{Absorb, WriteHandle};
use mds_types::limits::DIR_LIMIT;
use mds_types::{Dir, Rank};
use proof_names::Naming;
use std::alloc::Global;
use std::mem;
use std::sync::Wait;

/// The writer of a board's map. It can't be dropped, only ended by `end`.
///
/// It is generic in the copies' types, since a struct can't name the library's writer at given
/// ones: a struct that holds a writer repeats these parameters.
pub struct WriterOf<J: Naming, T: Absorb<O> + Drop, O: Drop, R: Wait + Drop + Copy> {
    rt: R,
    copies: WriteHandle<T, O, R>,
    queue: Queue<J>,
}

/// The writer of the map of the board that `J` names.
pub type MapWriter<J, R> = WriterOf<J, Table<J>, Logged<J>, R>;

// A reader for each place. They hold what the copies begin with.
fn readers_of<J: Naming, R: Wait + Drop>(
    alloc: Global,
    copies: &WriteHandle<Table<J>, Logged<J>, R>,
    start: &LogPrefix<J>,
    readers: u8,
) -> Result<Vec<MapReader<J>>, MapError>
    ensures count { IfOk result (λ list. vec_len list ≡ readers) }
    ensures readers { IfOk result (λ list. All (λ reader. reader ≡ start.now) list.items) }
{
    let mut list = Vec::with_capacity(alloc, readers as usize)?;
    for made in 0..readers {
        let Ok(handle) = copies.handle() else {
            return Err(MapError::NoReader);
        };
        list.push_reserved(MapReader::over(handle, start.copied()));
    }
    Ok(list)
}

// The writer of these copies, and its readers.
fn open_copies<J: Naming, R: Wait + Drop>(
    rt: R,
    alloc: Global,
    first: Table<J>,
    second: Table<J>,
    readers: u8,
) -> Result<(WriteHandle<Table<J>, Logged<J>, R>, Vec<MapReader<J>>), MapError>
    requires alike { first.prefix ≡ second.prefix }
    requires readers { 1 ≤ readers }
    ensures copies { IfOk result (λ t. ((published t.0).prefix ≡ first.prefix) × (pending t.0 ≡ [])) }
    ensures count { IfOk result (λ t. vec_len t.1 ≡ readers) }
    ensures readers { IfOk result (λ t. All (λ reader. reader ≡ first.prefix) t.1.items) }
{
    let start = first.prefix.copied();
    let copies = WriteHandle::new(alloc, rt, first, second, readers as usize)?;
    let list = readers_of(alloc, &copies, &start, readers)?;
    Ok((copies, list))
}

// The same over copies that have no operation.
fn open_empty<J: Naming, R: Wait + Drop>(
    rt: R,
    alloc: Global,
    start: &LogPrefix<J>,
    limit: u32,
    readers: u8,
) -> Result<(WriteHandle<Table<J>, Logged<J>, R>, Vec<MapReader<J>>), MapError>
    requires start { start.now ≡ [] }
    requires limit { (limit ≡ J.limit) × (1 ≤ limit) }
    requires readers { 1 ≤ readers }
    ensures copies { IfOk result (λ t. ((published t.0).prefix ≡ []) × (pending t.0 ≡ [])) }
    ensures count { IfOk result (λ t. vec_len t.1 ≡ readers) }
    ensures readers { IfOk result (λ t. All (λ reader. reader ≡ []) t.1.items) }
{
    let first = Table::new(alloc, limit, start.copied())?;
    let second = Table::new(alloc, limit, start.copied())?;
    open_copies(rt, alloc, first, second, readers)
}

// The same over copies of what is published.
fn open_again<J: Naming, R: Wait + Drop>(
    rt: R,
    alloc: Global,
    shown: &Table<J>,
    readers: u8,
) -> Result<(WriteHandle<Table<J>, Logged<J>, R>, Vec<MapReader<J>>), MapError>
    requires readers { 1 ≤ readers }
    ensures copies { IfOk result (λ t. ((published t.0).prefix ≡ shown.now.prefix) × (pending t.0 ≡ [])) }
    ensures count { IfOk result (λ t. vec_len t.1 ≡ readers) }
    ensures readers { IfOk result (λ t. All (λ reader. reader ≡ shown.now.prefix) t.1.items) }
{
    let first = shown.copied(alloc)?;
    let second = shown.copied(alloc)?;
    open_copies(rt, alloc, first, second, readers)
}

// Whether readers see each operation that the copies were handed.
fn is_each_shown<J: Naming, R: Wait + Drop>(copies: &WriteHandle<Table<J>, Logged<J>, R>) -> bool
    ensures { IsTrue result ↔ (pending copies.now ≡ []) }
{
    !copies.has_pending_operations()
}

// Whether readers see each operation that there is.
fn is_all_shown<J: Naming, R: Wait + Drop>(
    copies: &WriteHandle<Table<J>, Logged<J>, R>,
    queue: &Queue<J>,
) -> bool
    ensures { IsTrue result ↔ ((pending copies.now ≡ []) × (queue.now.waiting ≡ [])) }
{
    queue.is_empty() && is_each_shown(copies)
}

// Shows readers all that is pending. Most calls of `publish` find nothing pending. So this is a function of its own:
// the room for the results of what it calls is cleared only here.
#[inline(never)]
fn show_all<J: Naming, R: Wait + Drop>(
    copies: &mut WriteHandle<Table<J>, Logged<J>, R>,
    queue: &mut Queue<J>,
) -> Result<(), MapError>
    ensures ok { OnOk result (((published copies.new).prefix ≡ (published copies.old).prefix
        ++ (operations_of (pending copies.old) ++ queue.old.waiting))
        × (operations_of (pending copies.new) ++ queue.new.waiting ≡ [])) }
    ensures refused { IfErr result (λ e. e ≡ MapError.Memory) }
    ensures unchanged { OnErr result (((published copies.new).prefix ≡ (published copies.old).prefix)
        × (operations_of (pending copies.new) ++ queue.new.waiting
        ≡ operations_of (pending copies.old) ++ queue.old.waiting)) }
{
    if !hand_all(copies, queue) {
        return Err(MapError::Memory);
    }
    match copies.flush() {
        Ok(()) => Ok(()),
        Err(_) => Err(MapError::Memory),
    }
}

impl<J: Naming, R: Wait + Drop + Copy> WriterOf<J, Table<J>, Logged<J>, R> {
    /// A map of the directories below the limit, none of which has a rank yet, with this many
    /// readers. Where it is refused, it returns what was opened.
    pub fn open(
        rt: R,
        alloc: Global,
        opened: NewMap,
        limit: u32,
        readers: u8,
    ) -> Result<(MapWriter<J, R>, Vec<MapReader<J>>), (MapError, NewMap)>
        requires name { opened ≡ J.map }
        requires limit { (limit ≡ J.limit) × (1 ≤ limit) × (limit ≤ DIR_LIMIT) }
        requires readers { (1 ≤ readers) × (readers ≤ 64) }
        ensures writer { IfOk result (λ t. ((published t.0.copies).prefix ≡ []) × (pending t.0.copies ≡ [])
            × (t.0.queue.waiting ≡ [])) }
        ensures count { IfOk result (λ t. vec_len t.1 ≡ readers) }
        ensures readers { IfOk result (λ t. All (λ reader. reader ≡ []) t.1.items) }
        ensures err { IfErr result (λ e. e.1 ≡ opened) }
    {
        let start = opened.start::<J>();
        match open_empty(rt, alloc, &start, limit, readers) {
            Err(error) => Err((error, opened)),
            Ok((copies, list)) => {
                let queue = Queue::new(alloc, opened.into_count::<J>(), start);
                Ok((WriterOf { rt, copies, queue }, list))
            }
        }
    }
}

impl<J: Naming, R: Wait + Drop + Copy> Publisher<J> for WriterOf<J, Table<J>, Logged<J>, R> {
    ghost use Rattle.std.specs.Prelude.{◌++◌};
    ghost use Rattle.left_right.specs.Handles.{published, pending};
    ghost use Rattle.authority_map.specs.LogEntries.{operations_of};

    ghost published = { λ writer. (published writer.copies).prefix };

    ghost pending = { λ writer. operations_of (pending writer.copies) ++ writer.queue.waiting };

    ghost room = { λ writer. writer.queue.room };

    fn reserve(&mut self) -> Result<(), MapError> {
        self.queue.reserve()
    }

    fn set(&mut self, dirs: Vec<Dir>, rank: Rank) {
        self.queue.push(OperationKind::Set(dirs, rank));
    }

    fn set_one(&mut self, dir: Dir, rank: Rank) {
        self.queue.push(OperationKind::SetOne(dir, rank));
    }

    fn clear(&mut self, dir: Dir) {
        self.queue.push(OperationKind::Clear(dir));
    }

    fn publish(&mut self) -> Result<(), MapError> {
        if is_all_shown(&self.copies, &self.queue) {
            return Ok(());
        }
        show_all(&mut self.copies, &mut self.queue)
    }

    fn reopen(&mut self, alloc: Global, readers: u8) -> Result<Vec<MapReader<J>>, MapError> {
        // Operations that the copies were handed, and don't show, can't be taken back from them.
        if !is_each_shown(&self.copies) {
            return Err(MapError::Memory);
        }
        match open_again(self.rt, alloc, self.copies.published(), readers) {
            Ok((copies, list)) => {
                mem::replace(&mut self.copies, copies).take();
                Ok(list)
            }
            Err(_) => Err(MapError::Memory),
        }
    }

    fn tell(&self) -> Published<J> {
        Published::of(self.copies.published().prefix.copied())
    }

    fn rank_of(&self, dir: Dir) -> Option<Rank> {
        self.copies.published().rank_of(dir)
    }

    fn end(self) {
        let WriterOf {
            rt: _rt,
            copies,
            queue: _queue,
        } = self;
        copies.take();
    }
}
