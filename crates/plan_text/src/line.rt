//! What has a line of its own in a certificate.
ghost use Rattle.std.specs.Prelude.{◌≡◌, IfOk, string_bytes};
ghost use Rattle.plan_text.specs.Fields.{read_view};
ghost use Rattle.plan_text.specs.Reading.{read_cell, read_label, read_number, read_price, read_rank, read_row};
ghost use Rattle.plan_text.specs.Text.{cell_line, label_line, price_line, rank_line, row_line};
ghost use Rattle.plan_text.specs.Writable.{FitsCell, FitsPart, FitsPrice, FitsRank, FitsRow};

use crate::fields::{number, signed, word};
use crate::read_error::Expected;
use mds_types::{ProblemRow, Rank, Row};
use std::alloc::{AllocError, Global};

/// What has a line of its own in a certificate.
pub(crate) trait Line: Copy {
    ghost use Rattle.std.specs.Prelude.{◌≡◌, ℕ, List};
    ghost use Rattle.plan_text.specs.Fields.{Read, read_view};

    ghost line: { Self → List ℕ };

    // What the front of a text is read as.
    ghost at: { List ℕ → Read Self };

    ghost fits: { Self → Type 0 };

    /// Its line, with the newline.
    fn to_line(self, alloc: Global) -> Result<String, AllocError>
        ensures { IfOk result (λ made. string_bytes made ≡ line self) };

    /// Reads it from its line, and returns the text after it, too.
    fn from_line(text: &[u8]) -> Option<(Self, &[u8])>
        ensures { read_view (λ x. x) result ≡ at text.now };

    /// How its line is written.
    fn expected() -> Expected;

    /// It is within its type.
    fn known(self)
        ensures { fits self };
}

impl Line for ProblemRow {
    ghost line = { row_line };

    ghost at = { read_row };

    ghost fits = { FitsRow };

    fn to_line(self, alloc: Global) -> Result<String, AllocError> {
        let (parent, heat, inodes) = (self.parent, self.heat, self.inodes);
        let now = self.now.number();
        format!(in alloc; "row {parent} {heat} {inodes} {now}\n")
    }

    #[tactic(auto, unfolding(crate::specs::Reading::read_row))]
    fn from_line(text: &[u8]) -> Option<(Self, &[u8])> {
        let rest = word(text, b"row")?;
        let (parent, rest) = number(rest, u64::from(u32::MAX))?;
        let (heat, rest) = number(rest, u64::MAX)?;
        let (inodes, rest) = number(rest, u64::from(u32::MAX))?;
        let Some((now, rest)) = rank(rest) else {
            return None;
        };
        let row = ProblemRow {
            parent: parent as u32,
            heat,
            inodes: inodes as u32,
            now,
        };
        Some((row, rest))
    }

    fn expected() -> Expected {
        Expected::Row
    }

    fn known(self) {
        let _now = self.now.number();
    }
}

/// The rank that the first field writes.
fn rank(text: &[u8]) -> Option<(Rank, &[u8])>
    ensures { read_view (λ rank. rank) result ≡ read_number 6 text.now }
{
    let (number, rest) = number(text, 63)?;
    let rank = Rank::new(number as u8)?;
    Some((rank, rest))
}

impl Line for u32 {
    ghost line = { label_line };

    ghost at = { read_label };

    ghost fits = { FitsPart };

    fn to_line(self, alloc: Global) -> Result<String, AllocError> {
        format!(in alloc; "part {self}\n")
    }

    #[tactic(auto, unfolding(crate::specs::Reading::read_label))]
    fn from_line(text: &[u8]) -> Option<(Self, &[u8])> {
        let rest = word(text, b"part")?;
        let (part, rest) = number(rest, u64::from(u32::MAX))?;
        Some((part as u32, rest))
    }

    fn expected() -> Expected {
        Expected::Part
    }

    fn known(self) {}
}

impl Line for Rank {
    ghost line = { rank_line };

    ghost at = { read_rank };

    ghost fits = { FitsRank };

    fn to_line(self, alloc: Global) -> Result<String, AllocError> {
        let number = self.number();
        format!(in alloc; "rank {number}\n")
    }

    #[tactic(auto, unfolding(crate::specs::Reading::read_rank))]
    fn from_line(text: &[u8]) -> Option<(Self, &[u8])> {
        let rest = word(text, b"rank")?;
        rank(rest)
    }

    fn expected() -> Expected {
        Expected::Rank
    }

    fn known(self) {
        let _number = self.number();
    }
}

impl Line for Row {
    ghost line = { cell_line };

    ghost at = { read_cell };

    ghost fits = { FitsCell };

    fn to_line(self, alloc: Global) -> Result<String, AllocError> {
        let (cuts, rest, price) = (self.cuts, self.rest, self.price);
        let cut: u8 = if self.cut { 1 } else { 0 };
        format!(in alloc; "cell {cuts} {rest} {price} {cut}\n")
    }

    #[tactic(auto, unfolding(crate::specs::Reading::read_cell))]
    fn from_line(text: &[u8]) -> Option<(Self, &[u8])> {
        let text = word(text, b"cell")?;
        let (cuts, text) = number(text, u64::from(u32::MAX))?;
        let (rest, text) = number(text, u64::MAX)?;
        let (price, text) = number(text, u64::MAX)?;
        let (cut, text) = number(text, 1)?;
        let row = Row {
            rest,
            price,
            cuts: cuts as u32,
            cut: cut == 1,
        };
        Some((row, text))
    }

    fn expected() -> Expected {
        Expected::Cell
    }

    fn known(self) {}
}

impl Line for i64 {
    ghost line = { price_line };

    ghost at = { read_price };

    ghost fits = { FitsPrice };

    fn to_line(self, alloc: Global) -> Result<String, AllocError> {
        format!(in alloc; "price {self}\n")
    }

    #[tactic(auto, unfolding(crate::specs::Reading::read_price))]
    fn from_line(text: &[u8]) -> Option<(Self, &[u8])> {
        let rest = word(text, b"price")?;
        signed(rest)
    }

    fn expected() -> Expected {
        Expected::Price
    }

    fn known(self) {}
}
