//! Whether a list of directories is connected, in three walks over it: mark, count and clear.

ghost use Rattle.std.specs.Prelude.{◌≡◌, ℕ, true, false, None, IsTrue, not, length};
ghost use Rattle.std.specs.Prelude.{count_by, slice_index_or, vec_capacity};
ghost use Rattle.std.specs.List.{list_all};
ghost use Rattle.export_protocol.specs.Authority.{is_among, is_present};
ghost use Rattle.export_protocol.specs.Step.{repeats, is_connected};
ghost use Rattle.export_machine.specs.Kept.{is_listed, parent_marked};

use crate::changes::put;
use crate::cluster::Cluster;
use crate::dir_table::DirTable;
use crate::records::value_at;
use mds_types::Dir;

fn is_listed(table: &DirTable, dir: Dir) -> bool
    ensures { result ≡ is_listed table.now.parents dir }
{
    table.parent(dir).is_some()
}

/// Marks the directories, up to the first that isn't there or has its mark already.
fn mark_once(marks: &mut Vec<bool>, table: &DirTable, dirs: &[Dir]) -> bool
    requires places { length marks.old.items ≡ length table.now.parents }
    requires unmarked { (d : ℕ) → slice_index_or marks.old.items d false ≡ false }
    ensures places { length marks.new.items ≡ length marks.old.items }
    ensures within { (d : ℕ) → slice_index_or marks.new.items d false ≡ true → is_among dirs.now d ≡ true }
    ensures all { IsTrue result → (d : ℕ) → slice_index_or marks.new.items d false ≡ is_among dirs.now d }
    ensures capacity { vec_capacity marks.new ≡ vec_capacity marks.old }
    ensures once { list_all (is_listed table.now.parents) dirs.now ≡ true → result ≡ not (repeats dirs.now) }
{
    for dir in dirs {
        let index = dir.number() as usize;
        if !is_listed(table, *dir) || marks[index] {
            return false;
        }
        marks[index] = true;
    }
    true
}

/// Takes the marks of the directories away.
fn unmark(marks: &mut Vec<bool>, dirs: &[Dir])
    requires within { (d : ℕ) → slice_index_or marks.old.items d false ≡ true → is_among dirs.now d ≡ true }
    ensures places { length marks.new.items ≡ length marks.old.items }
    ensures unmarked { (d : ℕ) → slice_index_or marks.new.items d false ≡ false }
    ensures capacity { vec_capacity marks.new ≡ vec_capacity marks.old }
{
    for dir in dirs {
        put(marks, dir.number() as usize, false);
    }
}

fn has_marked_parent(table: &DirTable, marks: &[bool], dir: Dir) -> bool
    ensures { result ≡ parent_marked marks.now dir (slice_index_or table.now.parents dir None) }
{
    match table.parent(dir) {
        Some(parent) => {
            parent.number() != dir.number() && value_at(marks, parent.number() as usize, false)
        }
        None => false,
    }
}

/// How many of the directories have no parent with a mark.
fn tops(table: &DirTable, marks: &[bool], dirs: &[Dir]) -> usize
    ensures { result
        ≡ count_by (λ d. not (parent_marked marks.now d (slice_index_or table.now.parents d None))) dirs.now }
{
    dirs.iter()
        .filter(|dir| !has_marked_parent(table, marks, **dir))
        .count()
}

impl Cluster {
    /// Whether the directories are some, none twice, and connected: only one of them has no parent among them. The
    /// answer is to be used only where all of them are there.
    pub(crate) fn connects(&mut self, dirs: &[Dir]) -> bool
        ensures same { self.new ≡ self.old }
        ensures connected { list_all (is_present self.old.world) dirs.now ≡ true
            → result ≡ is_connected self.old.world dirs.now }
    {
        let connected = mark_once(&mut self.records.marks, &self.records.dirs, dirs)
            && tops(&self.records.dirs, &self.records.marks, dirs) == 1;
        unmark(&mut self.records.marks, dirs);
        connected
    }
}
