//! Sets of metadata ranks, as `bal_rank_mask` gives them: a bit map with one bit a rank.
//!
//! A mask is written `-1`, for all ranks, or `0x` and 1 to 16 hexadecimal digits. (The CephFS
//! documentation, "Configuring multiple active MDS daemons".)
ghost use Rattle.std.specs.Prelude.{◌≡◌, ℕ, if◌then◌else◌, Some, None};
ghost use Rattle.std.specs.Str.Parse.{digits_value};
ghost use Rattle.mds_types.specs.Mask.{is_hex};

use crate::limits::RANK_LIMIT;
use crate::rank::Rank;
use crate::refusal::Refusal;
use std::error::Error;
use std::fmt;
use std::marker::Model;

/// A set of ranks. To a contract it is a number whose bit r is 1 where rank r is in the set.
#[derive(Clone, Copy, Debug, PartialEq, Eq)]
pub struct RankSet {
    bits: u64,
}

impl Model for RankSet {
    ghost use Rattle.std.specs.Prelude.{ℕ};

    ghost Value = { ℕ };

    ghost view = { λ set. set.bits };

    ghost inverse = { λ n. record { bits = n } };
}

/// The text is not a mask.
#[derive(Clone, Copy, Debug, PartialEq, Eq)]
pub struct BadMask;

impl From<BadMask> for Refusal {
    ghost use Rattle.mds_types.specs.declared.refusal.Refusal.TheVariants as refusal;

    ghost from_gives = { λ _ given. given ≡ refusal.BadMask };

    fn from(_: BadMask) -> Refusal {
        Refusal::BadMask
    }
}

impl fmt::Display for BadMask {
    ghost use Rattle.mds_types.specs.declared.refusal.Refusal.TheVariants as refusal;
    ghost use Rattle.mds_types.specs.Refusal.{words};

    ghost output = { λ _. Some (words refusal.BadMask) };

    fn fmt<W: fmt::Write>(&self, f: &mut fmt::Formatter<W>) -> fmt::Result {
        fmt::Display::fmt(&Refusal::from(*self), f)
    }
}

impl Error for BadMask {}

// One digit holds four ranks.
const DIGIT_LIMIT: usize = 16;

/// The number that 1 to 16 hexadecimal digits write.
fn from_hex(digits: &str) -> Option<u64>
    ensures { result ≡ (if is_hex digits.now then Some (digits_value 16 digits.now) else None) }
{
    if digits.len() > DIGIT_LIMIT || digits.starts_with('+') {
        return None;
    }
    u64::from_str_radix(digits, 16).ok()
}

impl RankSet {
    ghost use Rattle.std.specs.Prelude.{◌≡◌, ◌<◌, ◌≤◌, ◌↔◌, ◌&&◌, IsTrue, nat_lt, true};
    ghost use Rattle.std.specs.Result.{result_ok};
    ghost use Rattle.mds_types.specs.Mask.{mask_bits};
    ghost use Rattle.mds_types.specs.RankSet.{below_rank, has_rank, rank_count};

    /// The set of the ranks whose bit is 1.
    pub fn from_bits(bits: u64) -> RankSet
        ensures { result ≡ bits }
    {
        RankSet { bits }
    }

    /// The set that a mask writes.
    pub fn parse(text: &str) -> Result<RankSet, BadMask>
        ensures { result_ok result ≡ mask_bits text.now }
    {
        if text == "-1" {
            return Ok(RankSet { bits: u64::MAX });
        }
        let digits = text.strip_prefix("0x").ok_or(BadMask)?;
        let bits = from_hex(digits).ok_or(BadMask)?;
        Ok(RankSet { bits })
    }

    /// The ranks of the set below `active`.
    pub fn among(self, active: u8) -> RankSet
        ensures ranks { (rank : ℕ) → has_rank result rank ≡ (nat_lt rank active && has_rank self rank) }
        ensures bits { result ≡ below_rank self active }
    {
        if active >= RANK_LIMIT {
            return self;
        }
        RankSet {
            bits: self.bits & ((1 << active) - 1),
        }
    }

    /// Whether the set has this rank.
    pub fn has(self, rank: Rank) -> bool
        ensures { result ≡ has_rank self rank }
    {
        self.has_number(rank.number())
    }

    fn has_number(self, number: u8) -> bool
        requires { number < 64 }
        ensures { result ≡ has_rank self number }
    {
        (self.bits >> number) & 1 == 1
    }

    /// How many ranks the set has, at most 64.
    pub fn len(self) -> u8
        ensures count { result ≡ rank_count self }
        ensures few { result ≤ 64 }
    {
        let mut count = 0;
        for number in 0..64 {
            if self.has_number(number) {
                count += 1;
            }
        }
        count
    }

    /// Whether the set has no rank.
    pub fn is_empty(self) -> bool
        ensures { IsTrue result ↔ (rank_count self ≡ 0) }
    {
        self.len() == 0
    }
}
