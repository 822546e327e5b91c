//! The file for certificates.

use command_line::create_file;
use std::fs::Files;
use std::io;
use std::io::Write;

/// Makes the file that `--proofs` names, and keeps what is written to it.
pub trait ProofFiles {
    ghost use Rattle.std.specs.Prelude.{◌≡◌, [], ℕ, List, Option, Some, IfOk, IfSome, is_some, true};

    type File: Write + Drop;

    // The bytes of the file of a name, where they are known.
    ghost holds: { Self → List ℕ → Option (List ℕ) };

    /// Makes the file of this name, or empties the one that is there.
    fn create(&mut self, name: &str) -> io::Result<Self::File>
        ensures { IfOk result (λ file. IfSome (holds self.new name.now) (λ _. Self.File.contents file ≡ Some [])) };

    /// Closes a file. Then the name has what was written to it.
    fn keep(&mut self, name: &str, file: Self::File)
        ensures { IfSome (holds self.new name.now) (λ bytes. (is_some (holds self.old name.now) ≡ true)
            × (Self.File.contents file ≡ Some bytes)) };
}

/// The files of the system. No contract says what bytes they have.
#[derive(Clone, Copy, Drop)]
pub struct SystemProofs<'a, T> {
    pub runtime: &'a T,
}

impl<T: Files> ProofFiles for SystemProofs<'_, T> {
    ghost use Rattle.std.specs.Prelude.{None};

    type File = T::File;

    ghost holds = { λ _ _. None };

    fn create(&mut self, name: &str) -> io::Result<T::File> {
        create_file(self.runtime, name)
    }

    fn keep(&mut self, _name: &str, _file: T::File) {}
}
