//! Lists of directories.

ghost use Rattle.std.specs.Prelude.{◌≡◌, IfOk};

use crate::dir::Dir;
use std::alloc::{AllocError, Global};
use std::marker::Model;

/// Directories in the order in which they were named. To a contract it is the list of their numbers.
#[derive(Debug, Drop)]
pub struct Dirs {
    list: Vec<Dir>,
}

impl Model for Dirs {
    ghost use Rattle.std.specs.Prelude.{ℕ, List};

    ghost Value = { List ℕ };

    ghost view = { λ dirs. dirs.list.items };
}

impl PartialEq for Dirs {
    ghost use Rattle.std.specs.Prelude.{nat_eq};
    ghost use Rattle.std.specs.Cmp.{partial_equiv_from_equiv};
    ghost use Rattle.std.specs.Cmp.Lexicographic.{nat_list_eq_equiv, pointwise};

    ghost eq = { pointwise nat_eq };

    ghost laws = { partial_equiv_from_equiv nat_list_eq_equiv };

    fn eq(&self, other: &Dirs) -> bool {
        self.list == other.list
    }
}

impl Dirs {
    /// The directories of a list.
    pub fn new(list: Vec<Dir>) -> Self
        ensures { result ≡ list.items }
    {
        Dirs { list }
    }

    /// The directories.
    pub fn as_slice(&self) -> &[Dir]
        ensures { result.now ≡ self.now }
    {
        &self.list
    }

    /// The list that the directories are in.
    pub fn into_vec(self) -> Vec<Dir>
        ensures { result.items ≡ self }
    {
        self.list
    }

    /// The same directories.
    pub fn copied(&self, alloc: Global) -> Result<Dirs, AllocError>
        ensures { IfOk result (λ copy. copy ≡ self.now) }
    {
        let list = self.list.as_slice().to_vec(alloc)?;
        Ok(Dirs { list })
    }
}
