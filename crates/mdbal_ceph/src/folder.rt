//! The files that are read, by their names: those of a folder that `ceph/collect` wrote, and lists.

use std::io::ErrorKind;
use std::rt::Files;
use std::{fs, io};

/// Files that are read by their names.
pub trait Folder {
    ghost use Rattle.std.specs.Prelude.{◌≡◌, ◌≢◌, ℕ, List, IfErr, IfOk, false};
    ghost use Rattle.std.specs.IoError.{error_kind};
    ghost use Rattle.mdbal_ceph.specs.Folder.{Failed, FileContent, Missing, content_of};

    // Whether this may be read of a name.
    ghost reads: { Self → List ℕ → FileContent → Type 0 };

    /// The bytes of the file of a name, or none where there is no such file.
    fn read(&self, name: &str) -> io::Result<Option<Vec<u8>>>
        ensures found { IfOk result (λ found. reads self.now name.now (content_of found)) }
        ensures failed { IfErr result (λ error. error_kind error ≢ ErrorKind.OutOfMemory
            → reads self.now name.now Failed) };

    /// Whether there is a file of a name.
    fn has(&self, name: &str) -> io::Result<bool>
        ensures missing { IfOk result (λ there. there ≡ false → reads self.now name.now Missing) }
        ensures failed { IfErr result (λ error. error_kind error ≢ ErrorKind.OutOfMemory
            → reads self.now name.now Failed) };
}

/// The files of the system. No contract says what bytes they have.
#[derive(Clone, Copy, Drop)]
pub struct SystemFolder<'a, T> {
    /// The system.
    pub runtime: &'a T,
}

impl<T: Files + AllocGlobal> Folder for SystemFolder<'_, T> {
    ghost use Rattle.std.specs.Prelude.{⊤};

    ghost reads = { λ _ _ _. ⊤ };

    fn read(&self, name: &str) -> io::Result<Option<Vec<u8>>> {
        let bytes: io::Result<Vec<u8>> = fs::read(self.runtime, name);
        match bytes {
            Ok(bytes) => Ok(Some(bytes)),
            Err(error) if error.kind() == ErrorKind::NotFound => Ok(None),
            Err(error) => Err(error),
        }
    }

    fn has(&self, name: &str) -> io::Result<bool> {
        fs::exists(self.runtime, name)
    }
}
