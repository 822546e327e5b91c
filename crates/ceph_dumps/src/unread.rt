//! Why a dump isn't read.
ghost use Rattle.std.specs.Prelude.{◌≡◌};
ghost use Rattle.ceph_dumps.specs.declared.unread.Unfit.TheVariants as unfit;
ghost use Rattle.ceph_dumps.specs.declared.unread.Unread.TheVariants as unread;

use json::Reader;
use std::alloc::{AllocError, AllocFailed};

/// Why a value isn't what it has to be.
#[derive(Clone, Copy)]
pub(crate) enum Unfit {
    /// The allocator refused a growth.
    Memory,
    /// What was expected, in words for people.
    Misfit(&'static str),
}

impl Unfit {
    /// The same of the value that begins at this byte of the text.
    pub(crate) fn at(self, at: usize) -> Unread
        ensures { self ≡ unfit.Memory → result ≡ unread.Memory }
    {
        match self {
            Unfit::Memory => Unread::Memory,
            Unfit::Misfit(reason) => Unread::Misfit { at, reason },
        }
    }
}

impl From<AllocError> for Unfit {
    ghost from_gives = { λ _ error. error ≡ unfit.Memory };

    fn from(_: AllocError) -> Unfit {
        Unfit::Memory
    }
}

impl<T: Drop> From<AllocFailed<T>> for Unfit {
    ghost from_gives = { λ _ error. error ≡ unfit.Memory };

    fn from(_: AllocFailed<T>) -> Unfit {
        Unfit::Memory
    }
}

/// Why a text isn't read.
#[derive(Clone, Copy)]
pub(crate) enum Unread {
    /// The allocator refused a growth.
    Memory,
    /// What begins at this byte of the text isn't what it has to be.
    Misfit {
        /// The byte.
        at: usize,
        /// What was expected, in words for people.
        reason: &'static str,
    },
}

impl Unread {
    /// What begins at this byte isn't what it has to be.
    pub(crate) fn misfit(at: usize, reason: &'static str) -> Unread {
        Unread::Misfit { at, reason }
    }

    /// The text is no JSON where the reader stands.
    pub(crate) fn no_json(reader: &Reader<'_>) -> Unread {
        Unread::misfit(reader.offset(), "this is no JSON, or it is cut off")
    }
}

impl From<AllocError> for Unread {
    ghost from_gives = { λ _ error. error ≡ unread.Memory };

    fn from(_: AllocError) -> Unread {
        Unread::Memory
    }
}

impl<T: Drop> From<AllocFailed<T>> for Unread {
    ghost from_gives = { λ _ error. error ≡ unread.Memory };

    fn from(_: AllocFailed<T>) -> Unread {
        Unread::Memory
    }
}
