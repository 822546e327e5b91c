//! The table of directories: a row for each, by number. To a contract it is a list for each of its columns.

ghost use Rattle.std.specs.Prelude.{◌≡◌, ◌<◌, ℕ, ◌+◌, ◌-◌, ◌≤◌, ◌++◌, ◌∷◌, [], length, Some, None, true, if◌then◌else◌};
ghost use Rattle.std.specs.Prelude.{IfOk, OnOk, IsOk, slice_index_or, slice_set};
ghost use Rattle.export_protocol.specs.Authority.{is_among};
ghost use Rattle.export_protocol.specs.Step.{map_at};

use mds_types::{Dir, Rank};
use std::alloc::{AllocError, Global};
use std::marker::Model;

/// What a cluster keeps of one directory.
#[derive(Clone, Copy)]
struct DirRow {
    /// Its parent, while it is there.
    parent: Option<Dir>,
    /// The rank that the map names for it.
    named: Option<Rank>,
    /// Its authority.
    owner: Option<Rank>,
    /// The open export that it is in.
    opened: Option<u32>,
    /// How many requests run on it.
    running: u32,
    /// How many children it has.
    children: u32,
}

/// The rows of all directories, those that are gone too.
#[derive(Drop)]
pub(crate) struct DirTable {
    rows: Vec<DirRow>,
}

impl Model for DirTable {
    ghost use Rattle.export_machine.specs.Columns.{DirColumns, columns_of};

    ghost Value = { DirColumns };

    ghost view = { λ table. columns_of table.rows };
}

impl DirTable {
    /// Only directory 0, its own parent, of this rank.
    pub(crate) fn new(alloc: Global, rank: Rank) -> Result<Self, AllocError>
        ensures { IfOk result (λ table. table ≡ record {
          parents = Some 0 ∷ [];
          named = Some rank ∷ [];
          owners = Some rank ∷ [];
          opened = None ∷ [];
          running = 0 ∷ [];
          children = 0 ∷ [];
          spare = table.spare;
        }) }
    {
        let rows = Vec::with_capacity(alloc, 1)?;
        let mut table = DirTable { rows };
        table.push_reserved(Dir::ROOT, rank);
        Ok(table)
    }

    /// How many directories there are, with those that are gone.
    pub(crate) fn len(&self) -> usize
        ensures { result ≡ length self.now.parents }
    {
        self.rows.len()
    }

    pub(crate) fn parent(&self, dir: Dir) -> Option<Dir>
        ensures { result ≡ slice_index_or self.now.parents dir None }
    {
        self.rows.get(dir.number() as usize)?.parent
    }

    pub(crate) fn named(&self, dir: Dir) -> Option<Rank>
        ensures { result ≡ slice_index_or self.now.named dir None }
    {
        self.rows.get(dir.number() as usize)?.named
    }

    pub(crate) fn owner(&self, dir: Dir) -> Option<Rank>
        ensures { result ≡ slice_index_or self.now.owners dir None }
    {
        self.rows.get(dir.number() as usize)?.owner
    }

    pub(crate) fn opened(&self, dir: Dir) -> Option<u32>
        ensures { result ≡ slice_index_or self.now.opened dir None }
    {
        self.rows.get(dir.number() as usize)?.opened
    }

    pub(crate) fn running(&self, dir: Dir) -> u32
        ensures { result ≡ slice_index_or self.now.running dir 0 }
    {
        match self.rows.get(dir.number() as usize) {
            Some(row) => row.running,
            None => 0,
        }
    }

    pub(crate) fn children(&self, dir: Dir) -> u32
        ensures { result ≡ slice_index_or self.now.children dir 0 }
    {
        match self.rows.get(dir.number() as usize) {
            Some(row) => row.children,
            None => 0,
        }
    }

    /// Takes room for one more directory.
    pub(crate) fn reserve(&mut self) -> Result<(), AllocError>
        ensures others { self.new ≡ record self.old { spare = self.new.spare } }
        ensures room { OnOk result (self.new.spare ≡ true) }
        ensures ready { self.old.spare ≡ true → IsOk result }
        ensures spare { self.old.spare ≡ true → self.new.spare ≡ true }
    {
        self.rows.reserve(1)
    }

    /// One more directory, below this parent and of this rank.
    pub(crate) fn push_reserved(&mut self, parent: Dir, rank: Rank)
        requires room { self.old.spare ≡ true }
        ensures { self.new ≡ record {
          parents = self.old.parents ++ Some parent ∷ [];
          named = self.old.named ++ Some rank ∷ [];
          owners = self.old.owners ++ Some rank ∷ [];
          opened = self.old.opened ++ None ∷ [];
          running = self.old.running ++ 0 ∷ [];
          children = self.old.children ++ 0 ∷ [];
          spare = self.new.spare;
        } }
    {
        self.rows.push_reserved(DirRow {
            parent: Some(parent),
            named: Some(rank),
            owner: Some(rank),
            opened: None,
            running: 0,
            children: 0,
        });
    }

    /// The directory is gone.
    pub(crate) fn remove(&mut self, dir: Dir)
        requires near { dir < length self.old.parents }
        ensures { self.new ≡ record self.old {
          parents = slice_set self.old.parents dir None;
          named = slice_set self.old.named dir None;
          owners = slice_set self.old.owners dir None;
        } }
    {
        let row = &mut self.rows[dir.number() as usize];
        row.parent = None;
        row.named = None;
        row.owner = None;
    }

    /// The directory has one child more.
    pub(crate) fn add_child(&mut self, dir: Dir)
        requires near { dir < length self.old.children }
        requires few { slice_index_or self.old.children dir 0 < 4294967295 }
        ensures { self.new ≡ record self.old {
          children = slice_set self.old.children dir (slice_index_or self.old.children dir 0 + 1);
        } }
    {
        self.rows[dir.number() as usize].children += 1;
    }

    /// The directory has one child less.
    pub(crate) fn take_child(&mut self, dir: Dir)
        requires near { dir < length self.old.children }
        requires some { 1 ≤ slice_index_or self.old.children dir 0 }
        ensures { self.new ≡ record self.old {
          children = slice_set self.old.children dir (slice_index_or self.old.children dir 0 - 1);
        } }
    {
        self.rows[dir.number() as usize].children -= 1;
    }

    /// One request more runs on the directory.
    pub(crate) fn begin(&mut self, dir: Dir)
        requires near { dir < length self.old.running }
        requires few { slice_index_or self.old.running dir 0 < 4294967295 }
        ensures { self.new ≡ record self.old {
          running = slice_set self.old.running dir (slice_index_or self.old.running dir 0 + 1);
        } }
    {
        self.rows[dir.number() as usize].running += 1;
    }

    /// One request less runs on the directory.
    pub(crate) fn end(&mut self, dir: Dir)
        requires near { dir < length self.old.running }
        requires some { 1 ≤ slice_index_or self.old.running dir 0 }
        ensures { self.new ≡ record self.old {
          running = slice_set self.old.running dir (slice_index_or self.old.running dir 0 - 1);
        } }
    {
        self.rows[dir.number() as usize].running -= 1;
    }

    fn set_named(&mut self, dir: Dir, rank: Rank)
        requires near { dir < length self.old.named }
        ensures { self.new ≡ record self.old { named = slice_set self.old.named dir (Some rank) } }
    {
        self.rows[dir.number() as usize].named = Some(rank);
    }

    fn set_owner(&mut self, dir: Dir, rank: Rank)
        requires near { dir < length self.old.owners }
        ensures { self.new ≡ record self.old { owners = slice_set self.old.owners dir (Some rank) } }
    {
        self.rows[dir.number() as usize].owner = Some(rank);
    }

    fn set_opened(&mut self, dir: Dir, export: Option<u32>)
        requires near { dir < length self.old.opened }
        ensures { self.new ≡ record self.old { opened = slice_set self.old.opened dir export } }
    {
        self.rows[dir.number() as usize].opened = export;
    }

    /// The map names the same rank for each of the directories.
    pub(crate) fn mark_named(&mut self, dirs: &[Dir], rank: Rank)
        requires near { (d : ℕ) → is_among dirs.now d ≡ true → d < length self.old.named }
        ensures { self.new ≡ record self.old {
          named = map_at (λ d old. if is_among dirs.now d then Some rank else old) self.old.named;
        } }
    {
        for dir in dirs {
            self.set_named(*dir, rank);
        }
    }

    /// The directories have the same authority.
    pub(crate) fn mark_owner(&mut self, dirs: &[Dir], rank: Rank)
        requires near { (d : ℕ) → is_among dirs.now d ≡ true → d < length self.old.owners }
        ensures { self.new ≡ record self.old {
          owners = map_at (λ d old. if is_among dirs.now d then Some rank else old) self.old.owners;
        } }
    {
        for dir in dirs {
            self.set_owner(*dir, rank);
        }
    }

    /// The directories are in the same open export, or in none.
    pub(crate) fn mark_opened(&mut self, dirs: &[Dir], export: Option<u32>)
        requires near { (d : ℕ) → is_among dirs.now d ≡ true → d < length self.old.opened }
        ensures { self.new ≡ record self.old {
          opened = map_at (λ d old. if is_among dirs.now d then export else old) self.old.opened;
        } }
    {
        for dir in dirs {
            self.set_opened(*dir, export);
        }
    }
}
