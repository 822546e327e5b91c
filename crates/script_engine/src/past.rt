//! The bytes that went through a device. They exist only in proofs: in memory they take two bytes at any length.
ghost use Rattle.std.specs.Prelude.{◌≡◌, ◌++◌, ◌∷◌, []};
ghost use Rattle.script_engine.specs.Past.{bytes_of};

use std::snapshot::Snapshot;

/// All bytes from the first on.
#[derive(Drop)]
pub enum Past {
    Start,
    Then(Snapshot<Past>, u8),
}

impl Past {
    fn with(&self, byte: u8) -> Past
        ensures { bytes_of result ≡ bytes_of self.now ++ byte ∷ [] }
    {
        Past::Then(Snapshot::of(self), byte)
    }

    /// Adds the bytes of a piece.
    pub(crate) fn add(&mut self, piece: &[u8])
        ensures { bytes_of self.new ≡ bytes_of self.old ++ piece.now }
    {
        for byte in piece {
            *self = self.with(*byte);
        }
    }
}
