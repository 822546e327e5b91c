//! Why a tree refused a call.
ghost use Rattle.std.specs.Prelude.{◌≡◌};
ghost use Rattle.dirtree.specs.declared.tree_error.TreeError.TheVariants.{Memory};
ghost use Rattle.dirtree.specs.TreeError.{refusal_of, words};

use mds_types::Refusal;
use std::alloc::{AllocError, AllocFailed};
use std::error::Error;
use std::fmt;

/// Why a tree refused a call, which left it as it was.
///
/// It prints as the numbered refusal that it is.
#[derive(Clone, Copy, Debug, PartialEq, Eq)]
pub enum TreeError {
    /// The allocator refused a growth.
    Memory,
    /// There is no such directory.
    NoDir,
    /// The parent has a child of that name.
    Exists,
    /// The text is no name, or no path.
    BadName,
    /// The directory has a child.
    NotEmpty,
    /// The root can't be removed.
    IsRoot,
    /// All numbers were given.
    TreeFull,
}

impl TreeError {
    /// Its number and name, as they are printed.
    pub fn text(self) -> &'static str
        ensures { result.now ≡ words self }
    {
        Refusal::from(self).text()
    }
}

impl From<TreeError> for Refusal {
    ghost from_gives = { λ error refusal. refusal ≡ refusal_of error };

    fn from(error: TreeError) -> Refusal {
        match error {
            TreeError::Memory => Refusal::Memory,
            TreeError::NoDir => Refusal::NoDir,
            TreeError::Exists => Refusal::Exists,
            TreeError::BadName => Refusal::BadName,
            TreeError::NotEmpty => Refusal::NotEmpty,
            TreeError::IsRoot => Refusal::IsRoot,
            TreeError::TreeFull => Refusal::TreeFull,
        }
    }
}

impl fmt::Display for TreeError {
    ghost use Rattle.std.specs.Prelude.{Some};

    ghost output = { λ e. Some (words e) };

    fn fmt<W: fmt::Write>(&self, f: &mut fmt::Formatter<W>) -> fmt::Result {
        f.write_str(self.text())
    }
}

impl Error for TreeError {}

impl From<AllocError> for TreeError {
    ghost from_gives = { λ _ e. e ≡ Memory };

    fn from(_e: AllocError) -> TreeError {
        TreeError::Memory
    }
}

impl<T: Drop> From<AllocFailed<T>> for TreeError {
    ghost from_gives = { λ _ e. e ≡ Memory };

    fn from(_e: AllocFailed<T>) -> TreeError {
        TreeError::Memory
    }
}
