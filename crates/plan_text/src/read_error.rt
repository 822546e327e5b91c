//! Why a text is no certificate.
ghost use Rattle.std.specs.Prelude.{◌≡◌};
ghost use Rattle.plan_text.specs.declared.read_error.ReadError.TheVariants.{Memory};

use std::alloc::AllocError;
use thiserror::Error;

/// How a line of a certificate is written. Numbers are decimal, without leading zeros.
#[derive(Clone, Copy, Debug, PartialEq, Eq, Error)]
pub enum Expected {
    /// The first line of a certificate.
    #[error("certificate 1 or certificate 2")]
    First,
    /// The ranks that may have a part.
    #[error("mask 0xDIGITS, the ranks that may have a part")]
    Mask,
    /// How many rows the problem has.
    #[error("rows NUMBER")]
    Rows,
    /// A row of the problem.
    #[error("row PARENT HEAT INODES RANK")]
    Row,
    /// Rows that make a problem.
    #[error("parents before children, heats up to 1099511627776, up to 65536 rows and a rank")]
    Problem,
    /// The name of a row's directory.
    #[error("name NAME, one for each row: a directory's name, or /")]
    Name,
    /// How many rows the plan has parts for.
    #[error("parts NUMBER")]
    Parts,
    /// The part of a row.
    #[error("part NUMBER")]
    Part,
    /// How many parts the plan has.
    #[error("ranks NUMBER, at most 64")]
    Ranks,
    /// The rank of a part.
    #[error("rank NUMBER, 0 to 63")]
    Rank,
    /// The greatest heat.
    #[error("greatest HEAT")]
    Greatest,
    /// The inodes that move.
    #[error("moved INODES")]
    Moved,
    /// The cut proof.
    #[error("cut zero, cut heavy ROW or cut table")]
    Cut,
    /// How many rows the table has.
    #[error("cells NUMBER")]
    Cells,
    /// A row of the table.
    #[error("cell CUTS REST PRICE 0 or 1")]
    Cell,
    /// How many prices of parts there are.
    #[error("part_prices NUMBER")]
    PartPrices,
    /// How many prices of ranks there are.
    #[error("rank_prices NUMBER")]
    RankPrices,
    /// A price.
    #[error("price NUMBER")]
    Price,
    /// The last line of a certificate.
    #[error("end")]
    End,
    /// The line as it would be written.
    #[error("one blank between fields, no leading zeros, no capital digits and a newline")]
    Plain,
}

/// Why bytes are not the text of certificates.
#[derive(Clone, Copy, Debug, PartialEq, Eq, Error)]
pub enum ReadError {
    /// The allocator refused a growth.
    #[error("0 Memory")]
    Memory,
    /// This line, counted from 1, isn't written as it should be.
    #[error("{0}: expected {1}")]
    Line(u64, Expected),
}

impl From<AllocError> for ReadError {
    ghost from_gives = { λ _ e. e ≡ Memory };

    fn from(_: AllocError) -> ReadError {
        ReadError::Memory
    }
}
