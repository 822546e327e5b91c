//! The number of a directory.

use std::marker::Model;

/// A directory, by its number. The root has 0. To a contract it is its number.
#[derive(Clone, Copy, Debug, PartialEq, Eq, PartialOrd, Ord, Hash)]
pub struct Dir {
    number: u32,
}

impl Model for Dir {
    ghost use Rattle.std.specs.Prelude.{ℕ};

    ghost Value = { ℕ };

    ghost view = { λ dir. dir.number };

    ghost inverse = { λ n. record { number = n } };
}

impl Dir {
    ghost use Rattle.std.specs.Prelude.{◌≡◌};

    /// The directory that every tree begins with.
    pub const ROOT: Dir = Dir { number: 0 };

    /// The directory of this number.
    pub fn new(number: u32) -> Self
        ensures { result ≡ number }
    {
        Dir { number }
    }

    /// Its number.
    pub fn number(self) -> u32
        ensures { result ≡ self }
    {
        self.number
    }
}
