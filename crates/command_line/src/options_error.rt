//! Why a command line gives no settings.
ghost use Rattle.std.specs.Prelude.{◌≡◌, ◌≢◌};
ghost use Rattle.command_line.specs.Outcome.{EndsWith, StandsFor};
ghost use Rattle.command_line.specs.declared.options_error.OptionsError.TheVariants.{Memory};

use clap::Error;
use clap::error::ErrorKind;
use std::alloc::AllocError;
use std::io::Write;

/// Why a command line gives no settings. It prints as the text for the user, with the end of its last line.
#[derive(Debug, Drop, thiserror::Error)]
pub enum OptionsError {
    /// The allocator refused a growth.
    #[error("mdbal: 0 Memory\n")]
    Memory,
    /// The line asks for help, and this is its text.
    #[error("{0}")]
    Help(Error),
    /// The line asks for the version, and this is its text.
    #[error("{0}")]
    Version(Error),
    /// The line is refused, and this text says why.
    #[error("{0}")]
    Refused(Error),
}

impl OptionsError {
    /// Prints the help and the version to `writer`, and all else to `errors`. Gives the status that the program ends
    /// with: 0 where the help or the version was written, 3 where it could not be, otherwise 2.
    pub fn print<W: Write, E: Write>(&self, writer: &mut W, errors: &mut E) -> u8
        ensures status { EndsWith self.now result }
        ensures unprinted { result ≡ 2 → writer.new ≡ writer.old }
        ensures silent { result ≢ 2 → errors.new ≡ errors.old }
    {
        match self {
            OptionsError::Help(_) | OptionsError::Version(_) => match write!(writer, "{self}") {
                Ok(()) => 0,
                Err(_) => 3,
            },
            OptionsError::Memory | OptionsError::Refused(_) => {
                let _ = write!(errors, "{self}");
                2
            }
        }
    }
}

impl From<AllocError> for OptionsError {
    ghost from_gives = { λ _ e. e ≡ Memory };

    fn from(_: AllocError) -> OptionsError {
        OptionsError::Memory
    }
}

impl From<Error> for OptionsError {
    ghost from_gives = { StandsFor };

    fn from(error: Error) -> OptionsError {
        match error.kind() {
            ErrorKind::OutOfMemory => OptionsError::Memory,
            ErrorKind::DisplayHelp => OptionsError::Help(error),
            ErrorKind::DisplayVersion => OptionsError::Version(error),
            _ => OptionsError::Refused(error),
        }
    }
}
