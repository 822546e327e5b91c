//! What was read of a file and not yet judged.
ghost use Rattle.std.specs.Prelude.{◌≤◌, vec_len};

/// What was read of a file and not yet judged.
#[derive(Drop)]
pub(crate) struct Unjudged {
    /// What was read last.
    pub(crate) bytes: Vec<u8>,
    /// How many of these bytes were judged.
    pub(crate) judged: usize,
    /// How many lines were judged.
    pub(crate) lines: u64,
    ghost within: { judged ≤ vec_len bytes },
}
