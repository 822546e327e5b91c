//! The key of the hash by which names are found.
ghost use Rattle.std.specs.Prelude.{◌≡◌};
ghost use Rattle.std.specs.Hash.FoldHasher as folding;

use std::hash::{FoldHasher, Hasher};

/// The key of the hash by which a tree finds names. No answer depends on it.
///
/// Without the key nobody who names directories can pick many names of one hash, which would be slow to
/// find.
#[derive(Clone, Copy, Default)]
pub struct NameKey(pub [u8; 8]);

impl NameKey {
    pub(crate) fn hasher(self) -> FoldHasher
        ensures { result ≡ folding.write folding.initial self.0 }
    {
        let mut hasher = FoldHasher::default();
        hasher.write(&self.0);
        hasher
    }
}
