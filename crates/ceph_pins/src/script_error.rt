//! Why changes of pins can't be written as a script.
ghost use Rattle.std.specs.Prelude.{◌≡◌};

use std::alloc::{AllocError, AllocFailed};

/// Why changes of pins can't be written as a script.
#[derive(Clone, Copy, Debug, PartialEq, Eq)]
pub enum ScriptError {
    /// The allocator refused a growth.
    Memory,
    /// A path, the mount or a name of the file system has a NUL byte, which no word of a shell script can have.
    Nul,
    /// A change names this directory, which does not exist.
    NoDirectory(u32),
}

impl From<AllocError> for ScriptError {
    ghost use Rattle.ceph_pins.specs.declared.script_error.ScriptError.TheVariants as cause;

    ghost from_gives = { λ _ error. error ≡ cause.Memory };

    fn from(_: AllocError) -> ScriptError {
        ScriptError::Memory
    }
}

impl<T: Drop> From<AllocFailed<T>> for ScriptError {
    ghost use Rattle.ceph_pins.specs.declared.script_error.ScriptError.TheVariants as cause;

    ghost from_gives = { λ _ error. error ≡ cause.Memory };

    fn from(_: AllocFailed<T>) -> ScriptError {
        ScriptError::Memory
    }
}
