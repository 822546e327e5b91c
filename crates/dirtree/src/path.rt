//! Paths of directories, and where they lead.
ghost use Rattle.std.specs.Prelude.{◌≡◌, ◌≢◌, ◌↔◌, ◌<◌, ◌==◌, ◌++◌, ◌∷◌, [], ℕ, All, List, Ok, Err, IfOk, IsOkUnless};
ghost use Rattle.std.specs.Prelude.{IsTrue, MatchOption, IfSome, OnErr, OnOk, drop, map, reverse, string_bytes};
ghost use Rattle.std.specs.Prelude.{true, false};
ghost use Rattle.std.specs.List.{flat_map, slice_split};
ghost use Rattle.dirtree.specs.Path.{find, names_up, path_of, walk};
ghost use Rattle.dirtree.specs.Tree.{is_there, name_of};

use crate::name::is_name;
use crate::tree::Tree;
use crate::tree_error::TreeError;
use arrayvec::ArrayVec;
use mds_types::Dir;
use std::alloc::{AllocError, Global};

/// How many names a path has mostly at most. For a longer one memory is asked.
const USUAL_DEPTH: usize = 16;

impl Tree {
    /// The directory that a path names: only `/`, or names that each follow a `/`.
    ///
    /// The names are read from left to right. The first that is no name, or isn't there, decides the error.
    pub fn find(&self, path: &str) -> Result<Dir, TreeError>
        ensures dir { result ≡ find self.now.entries path.now }
        ensures below { IfOk result (λ dir. dir < self.now.limit) }
        ensures there { IfOk result (λ dir. is_there self.now.entries dir ≡ true) }
    {
        let Some(names) = path.strip_prefix('/') else {
            return Err(TreeError::BadName);
        };
        if names.is_empty() {
            let _ = self.numbers();
            return Ok(Dir::ROOT);
        }
        self.walk(names)
    }

    /// The directory that a path names, as `find` answers. No byte after the path's first one is a slash.
    pub(crate) fn find_below_root(&self, path: &str) -> Result<Dir, TreeError>
        requires { All (λ byte. (byte == 47) ≡ false) (drop 1 path.now) }
        ensures dir { result ≡ find self.now.entries path.now }
        ensures below { IfOk result (λ dir. dir < self.now.limit) }
        ensures there { IfOk result (λ dir. is_there self.now.entries dir ≡ true) }
    {
        let Some(name) = path.strip_prefix('/') else {
            return Err(TreeError::BadName);
        };
        if name.is_empty() {
            let _ = self.numbers();
            return Ok(Dir::ROOT);
        }
        self.step(Dir::ROOT, name)
    }

    fn walk(&self, names: &str) -> Result<Dir, TreeError>
        ensures dir { result ≡ walk self.now.entries 0 (slice_split (λ c. c == 47) names.now) }
        ensures below { IfOk result (λ dir. dir < self.now.limit) }
        ensures there { IfOk result (λ dir. is_there self.now.entries dir ≡ true) }
    {
        let mut at = Dir::ROOT;
        let mut rest = names;
        while let Some((name, more)) = rest.split_once('/') {
            at = self.step(at, name)?;
            rest = more;
        }
        self.step(at, rest)
    }

    // A child's name is a name, so only what names no child is looked at.
    fn step(&self, from: Dir, name: &str) -> Result<Dir, TreeError>
        ensures child { result ≡ walk self.now.entries from (name.now ∷ []) }
        ensures below { IfOk result (λ child. child < self.now.limit) }
        ensures there { IfOk result (λ child. is_there self.now.entries child ≡ true) }
    {
        match self.child(from, name) {
            Some(child) => Ok(child),
            None if is_name(name) => Err(TreeError::NoDir),
            None => Err(TreeError::BadName),
        }
    }

    /// Whether a path names this directory, as `find` would answer. Names are compared from the directory up to the
    /// root, and none is looked up.
    pub fn leads_to(&self, path: &str, dir: Dir) -> bool
        ensures leads { IsTrue result ↔ (find self.now.entries path.now ≡ Ok dir) }
        ensures below { IsTrue result → dir < self.now.limit }
        ensures there { IsTrue result → is_there self.now.entries dir ≡ true }
    {
        let _ = self.numbers();
        if !self.contains(dir) {
            return false;
        }
        if dir == Dir::ROOT {
            return path == "/";
        }
        self.is_way_down(path.as_bytes(), dir)
    }

    // Whether these are the names down to a directory, each after a slash.
    fn is_way_down(&self, path: &[u8], dir: Dir) -> bool
        requires { is_there self.now.entries dir ≡ true }
        ensures { IsTrue result ↔ (path.now ≡ flat_map (λ name. 47 ∷ name) (reverse (names_up self.now.entries dir))) }
    {
        let mut rest = path;
        let mut at = dir;
        while at != Dir::ROOT {
            let Some(node) = self.node(at) else {
                unreachable!()
            };
            let Some(above) = before_name(rest, node.name.as_str().as_bytes()) else {
                return false;
            };
            rest = above;
            at = Dir::new(node.parent);
        }
        rest.is_empty()
    }

    /// The path of a directory, from which `find` leads back to it.
    pub fn path(&self, alloc: Global, dir: Dir) -> Result<String, TreeError>
        ensures path { IfOk result (λ path. string_bytes path ≡ path_of self.now.entries dir) }
        ensures gone { is_there self.now.entries dir ≡ false → result ≡ Err TreeError.NoDir }
        ensures there { is_there self.now.entries dir ≡ true → IsOkUnless result TreeError.Memory }
    {
        let mut path = String::new(alloc);
        self.write_path(alloc, dir, &mut path)?;
        Ok(path)
    }

    /// Writes the path of a directory to a text, in place of what it held. A text that is used again grows no more
    /// once it had room for the longest path; a list of the names on the way takes memory only where they are many.
    pub fn write_path(&self, alloc: Global, dir: Dir, path: &mut String) -> Result<(), TreeError>
        ensures path { OnOk result (string_bytes path.new ≡ path_of self.now.entries dir) }
        ensures gone { is_there self.now.entries dir ≡ false → result ≡ Err TreeError.NoDir }
        ensures there { is_there self.now.entries dir ≡ true → IsOkUnless result TreeError.Memory }
        ensures empty { OnErr result (string_bytes path.new ≡ []) }
    {
        path.clear();
        if !self.contains(dir) {
            return Err(TreeError::NoDir);
        }
        match self.add_names(alloc, dir, path) {
            Ok(()) => Ok(()),
            Err(_) => {
                path.clear();
                Err(TreeError::Memory)
            }
        }
    }

    // Writes the path of a directory to an empty text.
    fn add_names(&self, alloc: Global, dir: Dir, path: &mut String) -> Result<(), AllocError>
        requires there { is_there self.now.entries dir ≡ true }
        requires empty { string_bytes path.old ≡ [] }
        ensures { OnOk result (string_bytes path.new ≡ path_of self.now.entries dir) }
    {
        match self.short_way_up(dir) {
            Some(way) => self.add_way(dir, way, path),
            None => self.add_long_way(alloc, dir, path),
        }
    }

    // Writes the names of the directories on the way down to an empty text.
    fn add_way(
        &self,
        dir: Dir,
        way: ArrayVec<u32, USUAL_DEPTH>,
        path: &mut String,
    ) -> Result<(), AllocError>
        requires names { map (name_of self.now.entries) way.items ≡ names_up self.now.entries dir }
        requires there { All (λ at. is_there self.now.entries at ≡ true) way.items }
        requires empty { string_bytes path.old ≡ [] }
        ensures { OnOk result (string_bytes path.new ≡ path_of self.now.entries dir) }
    {
        let mut way = way;
        if way.is_empty() {
            path.push_str("/")?;
        }
        while let Some(at) = way.pop() {
            let Some(node) = self.node(Dir::new(at)) else {
                unreachable!()
            };
            path.push('/')?;
            path.push_str(node.name.as_str())?;
        }
        Ok(())
    }

    // Writes the path of a directory to an empty text, however many names it has.
    fn add_long_way(&self, alloc: Global, dir: Dir, path: &mut String) -> Result<(), AllocError>
        requires there { is_there self.now.entries dir ≡ true }
        requires empty { string_bytes path.old ≡ [] }
        ensures { OnOk result (string_bytes path.new ≡ path_of self.now.entries dir) }
    {
        let mut names = self.names_up(alloc, dir)?;
        if names.is_empty() {
            path.push_str("/")?;
        }
        while let Some(name) = names.pop() {
            path.push('/')?;
            path.push_str(name)?;
        }
        Ok(())
    }

    // The directories from one up to the root, which is left out, if they are few.
    fn short_way_up(&self, dir: Dir) -> Option<ArrayVec<u32, USUAL_DEPTH>>
        requires { is_there self.now.entries dir ≡ true }
        ensures names { IfSome result (λ way. map (name_of self.now.entries) way.items
            ≡ names_up self.now.entries dir) }
        ensures there { IfSome result (λ way. All (λ at. is_there self.now.entries at ≡ true) way.items) }
    {
        let mut way = ArrayVec::new();
        let mut at = dir;
        while at != Dir::ROOT {
            if way.is_full() {
                return None;
            }
            let Some(node) = self.node(at) else {
                unreachable!()
            };
            way.push(at.number());
            at = Dir::new(node.parent);
        }
        Some(way)
    }

    /// The names from a directory up to the root, whose own name is left out.
    fn names_up(&self, alloc: Global, dir: Dir) -> Result<Vec<&str>, AllocError>
        requires { is_there self.now.entries dir ≡ true }
        ensures { IfOk result (λ names. map (λ name. name.now) names.items ≡ names_up self.now.entries dir) }
    {
        let mut names = Vec::with_capacity(alloc, USUAL_DEPTH)?;
        let mut at = dir;
        while at != Dir::ROOT {
            let Some(node) = self.node(at) else {
                unreachable!()
            };
            names.push(node.name.as_str())?;
            at = Dir::new(node.parent);
        }
        Ok(names)
    }
}

// What is before a slash and this name at the end of a path.
fn before_name<'a>(path: &'a [u8], name: &[u8]) -> Option<&'a [u8]>
    ensures { MatchOption result ((front : List ℕ) → path.now ≢ front ++ 47 ∷ name.now)
        (λ front. path.now ≡ front.now ++ 47 ∷ name.now) }
{
    match path.strip_suffix(name) {
        Some(above) => above.strip_suffix(b"/"),
        None => None,
    }
}
