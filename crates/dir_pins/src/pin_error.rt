//! Why a pin was refused.
ghost use Rattle.std.specs.Prelude.{◌≡◌};
ghost use Rattle.dir_pins.specs.PinError.{refusal_of, words};

use mds_types::Refusal;
use std::error::Error;
use std::fmt;

/// Why the pins refused a call, which left them as they were.
///
/// It prints as the numbered refusal that it is.
#[derive(Clone, Copy, Debug, PartialEq, Eq)]
pub enum PinError {
    /// There is no such directory.
    NoDir,
    /// The value is neither -1 nor an active rank.
    NoRank,
}

impl PinError {
    /// Its number and name, as they are printed.
    pub fn text(self) -> &'static str
        ensures { result.now ≡ words self }
    {
        Refusal::from(self).text()
    }
}

impl From<PinError> for Refusal {
    ghost from_gives = { λ error refusal. refusal ≡ refusal_of error };

    fn from(error: PinError) -> Refusal {
        match error {
            PinError::NoDir => Refusal::NoDir,
            PinError::NoRank => Refusal::NoRank,
        }
    }
}

impl fmt::Display for PinError {
    ghost use Rattle.std.specs.Prelude.{Some};

    ghost output = { λ e. Some (words e) };

    fn fmt<W: fmt::Write>(&self, f: &mut fmt::Formatter<W>) -> fmt::Result {
        f.write_str(self.text())
    }
}

impl Error for PinError {}
