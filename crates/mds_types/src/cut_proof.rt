//! The certificate of a least greatest heat: why no division has a smaller one.
//!
//! A table's rows say what is left of each subtree once its hottest pieces are cut off, from the
//! leaves up (S. Kundu and J. Misra, "A linear tree partitioning algorithm", SIAM Journal on
//! Computing 6(1), 1977). What makes such a table a proof is `IsCutProof` of `specs/Certificate`.
ghost use Rattle.std.specs.Prelude.{◌≡◌, IfOk};

use std::alloc::{AllocError, Global};
use std::marker::Model;

/// A row of a table that shows that no division has fewer parts within a bound.
#[derive(Clone, Copy, Debug, PartialEq, Eq)]
pub struct Row {
    /// The heat of the piece that is left at this row, in accesses.
    pub rest: u64,
    /// What cutting one more child would take from the rest, at most.
    pub price: u64,
    /// How many rows below this one are cut from their parents.
    pub cuts: u32,
    /// Whether this row is cut from its parent.
    pub cut: bool,
}

/// A table, a row of it for each row of the problem. To a contract it is the list of its rows.
#[derive(Debug, Drop)]
pub struct CutTable {
    rows: Vec<Row>,
}

impl Model for CutTable {
    ghost use Rattle.std.specs.Prelude.{List};
    ghost use Rattle.mds_types.specs.declared.cut_proof.Row.{Row};

    ghost Value = { List Row };

    ghost view = { λ table. table.rows.items };
}

impl CutTable {
    /// The table with these rows.
    pub fn new(rows: Vec<Row>) -> CutTable
        ensures { result ≡ rows.items }
    {
        CutTable { rows }
    }

    /// Its rows.
    pub fn rows(&self) -> &[Row]
        ensures { result.now ≡ self.now }
    {
        self.rows.as_slice()
    }

    /// An equal table.
    pub fn copied(&self, alloc: Global) -> Result<Self, AllocError>
        ensures { IfOk result (λ copy. copy ≡ self.now) }
    {
        Ok(CutTable {
            rows: self.rows.as_slice().to_vec(alloc)?,
        })
    }
}

/// Why no division into as many parts has a smaller greatest heat.
#[derive(Debug, Drop)]
pub enum CutProof {
    /// The greatest heat is 0.
    Zero,
    /// One row, by its number, has the greatest heat by itself.
    Heavy(u32),
    /// Below the greatest heat more parts than ranks are needed. A row of the table is a row of the
    /// problem.
    Table(CutTable),
}

impl CutProof {
    /// An equal proof.
    pub fn copied(&self, alloc: Global) -> Result<Self, AllocError>
        ensures { IfOk result (λ copy. copy ≡ self.now) }
    {
        Ok(match self {
            CutProof::Zero => CutProof::Zero,
            CutProof::Heavy(row) => CutProof::Heavy(*row),
            CutProof::Table(table) => CutProof::Table(table.copied(alloc)?),
        })
    }
}
