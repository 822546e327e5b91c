//! Why a call on the map is refused.

use mds_types::Refusal;
use std::alloc::AllocError;
use std::error::Error;
use std::fmt;

/// Why a call on the map is refused. What was published stays, and what was pending stays pending.
///
/// It prints as the numbered refusal that it is.
#[derive(Clone, Copy, Debug)]
pub enum MapError {
    /// The allocator refused a growth.
    Memory,
    /// The copies gave no place for a reader.
    NoReader,
}

impl From<MapError> for Refusal {
    ghost use Rattle.std.specs.Prelude.{◌≡◌};
    ghost use Rattle.authority_map.specs.Refused.{refusal_of};

    ghost from_gives = { λ error refusal. refusal ≡ refusal_of error };

    fn from(error: MapError) -> Refusal {
        match error {
            MapError::Memory => Refusal::Memory,
            MapError::NoReader => Refusal::NoReader,
        }
    }
}

impl fmt::Display for MapError {
    ghost use Rattle.std.specs.Prelude.{Some};
    ghost use Rattle.mds_types.specs.Refusal.{words};
    ghost use Rattle.authority_map.specs.Refused.{refusal_of};

    ghost output = { λ error. Some (words (refusal_of error)) };

    fn fmt<W: fmt::Write>(&self, f: &mut fmt::Formatter<W>) -> fmt::Result {
        fmt::Display::fmt(&Refusal::from(*self), f)
    }
}

impl Error for MapError {}

impl From<AllocError> for MapError {
    ghost use Rattle.std.specs.Prelude.{◌≡◌};
    ghost use Rattle.authority_map.specs.declared.map_error.MapError.TheVariants.{Memory};

    ghost from_gives = { λ _ e. e ≡ Memory };

    fn from(_: AllocError) -> MapError {
        MapError::Memory
    }
}
