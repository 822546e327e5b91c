//! A book that has no name yet.
ghost use Rattle.std.specs.Prelude.{◌≡◌};

use crate::tally;
use crate::tally::{Token, TokenTable};
use std::alloc::{AllocError, Global};
use std::marker::Model;
use std::sync::Arc;

/// What a book begins with. Its one value in a contract is the name that a program picks for its
/// board. Nothing has been counted.
#[derive(Drop)]
pub struct NewBook {
    pub(crate) tokens: Arc<TokenTable, Global>,
    pub(crate) token: Token,
}

impl Model for NewBook {
    ghost use Rattle.std.specs.Prelude.{◌≡◌, []};
    ghost use Rattle.std.specs.Arc.{arc_value};
    ghost use Rattle.atomic_table.specs.Seated.{TableId, table_id_coded};
    ghost use Rattle.heat_ledger.specs.Tally.{authority_state, all_parts, IsTokenOf};

    ghost Value = { TableId };

    ghost coded = { table_id_coded };

    ghost view = { λ opened. (arc_value opened.tokens).shared.table_id };

    ghost invariant = { λ opened. IsTokenOf (arc_value opened.tokens).shared.table_id opened.token
        × (opened.token.me.0 ≡ authority_state all_parts []) };
}

impl NewBook {
    /// A book with a name of its own.
    pub fn new(alloc: Global) -> Result<NewBook, AllocError> {
        let (tokens, token) = tally::open(alloc)?;
        let tokens = Arc::new(alloc, tokens)?;
        Ok(NewBook { tokens, token })
    }
}
