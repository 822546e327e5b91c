//! Whether a list of directories is connected, without marks.

ghost use Rattle.std.specs.Prelude.{◌≡◌, ◌↔◌, IsTrue, true};
ghost use Rattle.std.specs.List.Sorted.{IsStrictlyIncreasing};
ghost use Rattle.export_protocol.specs.Authority.{is_among};
ghost use Rattle.export_protocol.specs.Step.{repeats, parent_among, is_connected};
ghost use Rattle.export_protocol.specs.Roots.{parent_of};
ghost use Rattle.export_machine.specs.Kept.{world_of};

use crate::records::Records;
use mds_types::Dir;

/// A list of directories in which members are looked up: by halves where it rises, else one after the other.
#[derive(Clone, Copy)]
struct Members<'a> {
    dirs: &'a [Dir],
    rising: bool,
    ghost in_order: { rising ≡ true → IsStrictlyIncreasing dirs.now },
}

fn is_rising(dirs: &[Dir]) -> bool
    ensures { IsTrue result ↔ IsStrictlyIncreasing dirs.now }
{
    dirs.is_sorted_by(|dir, next| dir.number() < next.number())
}

/// A look-up by halves.
fn is_found(dirs: &[Dir], dir: Dir) -> bool
    requires in_order { IsStrictlyIncreasing dirs.now }
    ensures { result ≡ is_among dirs.now dir }
{
    dirs.binary_search(&dir).is_ok()
}

/// A look-up of one after the other.
fn is_among(dirs: &[Dir], dir: Dir) -> bool
    ensures { result ≡ is_among dirs.now dir }
{
    dirs.iter().any(|other| other.number() == dir.number())
}

fn repeats(dirs: &[Dir]) -> bool
    ensures { result ≡ repeats dirs.now }
{
    for at in 0..dirs.len() {
        if is_among(&dirs[at + 1..], dirs[at]) {
            return true;
        }
    }
    false
}

impl<'a> Members<'a> {
    fn new(dirs: &'a [Dir]) -> Members<'a>
        ensures { result.dirs.now ≡ dirs.now }
    {
        let rising = is_rising(dirs);
        Members { dirs, rising }
    }

    fn has(&self, dir: Dir) -> bool
        ensures { result ≡ is_among self.now.dirs.now dir }
    {
        if self.rising {
            is_found(self.dirs, dir)
        } else {
            is_among(self.dirs, dir)
        }
    }

    fn repeat(&self) -> bool
        ensures { result ≡ repeats self.now.dirs.now }
    {
        !self.rising && repeats(self.dirs)
    }
}

impl Records {
    fn has_parent_in(&self, members: &Members<'_>, dir: Dir) -> bool
        ensures { result ≡ parent_among members.now.dirs.now dir (parent_of (world_of self.now) dir) }
    {
        match self.parent(dir) {
            Some(parent) => parent.number() != dir.number() && members.has(parent),
            None => false,
        }
    }

    /// Whether the directories are some, none twice, and connected: only one of them has no parent among them. A
    /// list that rises takes time in proportion to n log n, any other to n squared.
    pub(crate) fn is_connected(&self, dirs: &[Dir]) -> bool
        ensures { result ≡ is_connected (world_of self.now) dirs.now }
    {
        let members = Members::new(dirs);
        if members.repeat() {
            return false;
        }
        let tops = dirs
            .iter()
            .filter(|dir| !self.has_parent_in(&members, **dir))
            .count();
        tops == 1
    }
}
