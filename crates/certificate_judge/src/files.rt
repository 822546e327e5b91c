//! The files that certificates are read from.

use std::fs::{File, Files};
use std::io;
use std::io::Read;

/// Files that can be opened by their names.
pub trait CertificateFiles {
    ghost use Rattle.std.specs.Prelude.{◌≡◌, ℕ, List, Option, Some, IfOk, IfSome};

    type File: Read + Drop;

    // The bytes of the file of a name, where they are known.
    ghost holds: { Self → List ℕ → Option (List ℕ) };

    /// Opens the file of this name.
    fn open(&self, name: &str) -> io::Result<Self::File>
        ensures { IfOk result (λ file. IfSome (holds self.now name.now)
            (λ bytes. Self.File.remaining file ≡ Some bytes)) };
}

/// The files of the system. No contract says what bytes they have.
#[derive(Clone, Copy, Drop)]
pub struct SystemFiles<'a, T> {
    pub runtime: &'a T,
}

impl<T: Files> CertificateFiles for SystemFiles<'_, T> {
    ghost use Rattle.std.specs.Prelude.{None};

    type File = T::File;

    ghost holds = { λ _ _. None };

    fn open(&self, name: &str) -> io::Result<T::File> {
        File::open(self.runtime, name)
    }
}
