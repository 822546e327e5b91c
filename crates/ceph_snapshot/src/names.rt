//! Numbers for paths: a path gets its number when it is first named, after the paths above it.
ghost use Rattle.std.specs.Prelude.{◌≡◌, [], ℕ, IfOk, List, None, OnErr, OnOk, Some, if◌then◌else◌};
ghost use Rattle.std.specs.Str.{bytes_eq};
ghost use Rattle.ceph_snapshot.specs.Names.{path_number};

use std::alloc::{AllocError, Global};
use std::collections::HashMap;

/// The number of each path that was named. In a tree parents are named before children, and the root, whose path is
/// empty, has number 0.
#[derive(Drop)]
pub struct Names {
    numbers: HashMap<Vec<u8>, u32>,
}

impl Names {
    /// Only the root.
    pub fn new(alloc: Global) -> Result<Names, AllocError>
        ensures { IfOk result (λ names. (path : List ℕ) → path_number names path
            ≡ (if bytes_eq [] path then Some 0 else None)) }
    {
        let mut numbers = HashMap::new(alloc);
        numbers.insert(Vec::new(alloc), 0)?;
        Ok(Names { numbers })
    }

    /// No path, not even the root.
    pub fn none(alloc: Global) -> Names
        ensures { (path : List ℕ) → path_number result path ≡ None }
    {
        Names {
            numbers: HashMap::new(alloc),
        }
    }

    /// The number of a path, where it has one.
    pub fn number(&self, path: &[u8]) -> Option<u32>
        ensures { result ≡ path_number self.now path.now }
    {
        self.numbers.get(path).copied()
    }

    /// Gives a path this number.
    pub fn insert(&mut self, path: Vec<u8>, number: u32) -> Result<(), AllocError>
        ensures put { OnOk result ((other : List ℕ) → path_number self.new other
            ≡ (if bytes_eq path.items other then Some number else path_number self.old other)) }
        ensures same { OnErr result ((other : List ℕ) → path_number self.new other ≡ path_number self.old other) }
    {
        self.numbers.insert(path, number)?;
        Ok(())
    }
}
