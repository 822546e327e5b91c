//! How many ranks a script asks for.
ghost use Rattle.std.specs.Prelude.{◌≤◌};

/// How many ranks are active, 1 to 64.
#[derive(Clone, Copy, Debug)]
pub struct RankCount {
    pub number: u8,
    ghost some: { 1 ≤ number },
    ghost few: { number ≤ 64 },
}
