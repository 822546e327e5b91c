//! The name of one board, as a type parameter.
//!
//! What comes out of a lock or another thread is known only by its type. So whatever belongs to
//! one board carries the board's name in its type: a share or a token of another board is a type
//! error. The name exists only in proofs. A program picks it once, where it opens its board, as
//! the names of the parts that it has just opened.

use std::marker::Brand;

/// Names a board: the tokens of its ledger of hits, the directories that it has room for, and the
/// log of its map's operations.
pub trait Naming {
    ghost use Rattle.std.specs.Prelude.{ℕ};
    ghost use Rattle.atomic_table.specs.Seated.{TableId};
    ghost use Rattle.logbook.specs.Pages.{Book};

    ghost ledger: { TableId };

    ghost limit: { ℕ };

    ghost map: { Book };
}

impl Naming for Brand {
    ghost use Rattle.proof_names.specs.Names.{no_table, no_log};

    ghost ledger = { no_table };

    ghost limit = { 0 };

    ghost map = { no_log };
}
