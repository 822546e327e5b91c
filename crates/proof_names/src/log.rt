//! The log and what was seen of it.
ghost use Rattle.std.specs.Prelude.{◌≡◌, [], IfOk};
ghost use mathlib.Core.List.{IsPrefix};

use crate::rule;
use crate::rule::{Token, TokenTable};
use std::alloc::{AllocError, Global};
use std::marker::{Brand, Model, PhantomData};
use std::mem::replace;

/// Names a log. It exists in proofs only, and a caller picks it.
pub trait LogName {
    ghost use Rattle.atomic_table.specs.Seated.{TableId};

    ghost log: { TableId };
}

impl LogName for Brand {
    ghost use Rattle.proof_names.specs.Growing.{no_name};

    ghost log = { no_name };
}

/// What a log becomes. It exists in proofs only, and a caller picks it.
pub trait Growth<E> {
    ghost use Rattle.std.specs.Prelude.{List};

    ghost log: { List E };
}

impl<E> Growth<E> for Brand {
    ghost use Rattle.std.specs.Prelude.{[]};

    ghost log = { [] };
}

/// A log without entries that has no name yet. Its one value in a contract is the name that it can have.
#[derive(Drop)]
pub struct NewLog<E> {
    table: TokenTable<E>,
    token: Token<E>,
}

impl<E> Model for NewLog<E> {
    ghost use Rattle.std.specs.Prelude.{◌≡◌, [], true};
    ghost use Rattle.atomic_table.specs.Seated.{TableId, table_id_coded};
    ghost use Rattle.proof_names.specs.Growing.{IsSeatOf, state};

    ghost Value = { TableId };

    ghost coded = { table_id_coded };

    ghost view = { λ new. new.table.shared.table_id };

    ghost invariant = { λ new. IsSeatOf new.table.shared.table_id new.token
        × (new.token.me.0 ≡ state true [] []) };
}

impl<E> NewLog<E> {
    /// A log with a name of its own.
    pub fn new(alloc: Global) -> Result<NewLog<E>, AllocError> {
        let (table, token) = rule::open::<E>(alloc)?;
        Ok(NewLog { table, token })
    }

    /// The log that `N` names.
    pub fn named<N: LogName>(self) -> Log<E, N>
        requires { self ≡ N.log }
        ensures { result ≡ [] }
    {
        let NewLog { table, token } = self;
        Log {
            table,
            token,
            of: PhantomData,
        }
    }
}

/// A log. To a contract it is its entries.
#[derive(Drop)]
pub struct Log<E, N: LogName> {
    table: TokenTable<E>,
    token: Token<E>,
    of: PhantomData<N>,
}

impl<E, N: LogName> Model for Log<E, N> {
    ghost use Rattle.std.specs.Prelude.{◌≡◌, List, true};
    ghost use Rattle.proof_names.specs.Growing.{IsSeatOf};

    ghost Value = { List E };

    ghost view = { λ l. l.token.me.0.log };

    ghost invariant = { λ l. IsSeatOf l.table.shared.table_id l.token × (l.table.shared.table_id ≡ N.log)
        × (l.token.me.0.leads ≡ true) };
}

/// What a thread has seen of a log. To a contract it is the log's entries at that time. It takes no bytes.
#[derive(Drop)]
pub struct Sight<E, N: LogName> {
    token: Token<E>,
    of: PhantomData<N>,
}

impl<E, N: LogName> Model for Sight<E, N> {
    ghost use Rattle.std.specs.Prelude.{◌≡◌, List, []};

    ghost Value = { List E };

    ghost view = { λ s. s.token.me.0.log };

    ghost invariant = { λ s. (s.token.table_id ≡ N.log) × (s.token.me.1 ≡ []) };
}

impl<E, N: LogName> Log<E, N> {
    /// The log goes on to what `G` says. The caller picks `G` by the argument.
    pub fn grow<G: Growth<E>, T>(&mut self, _told: &T)
        requires { IsPrefix self.old G.log }
        ensures { self.new ≡ G.log }
    {
        let table = &self.table;
        rule::grow::<E, G>(&table.shared, &mut self.token)
    }

    /// What a thread knows that sees the log now.
    pub fn seen(&mut self) -> Sight<E, N>
        ensures seen { result ≡ self.old }
        ensures log { self.new ≡ self.old }
    {
        let table = &self.table;
        let token = rule::split(&table.shared, &mut self.token);
        Sight {
            token,
            of: PhantomData,
        }
    }

    /// Shows the log to a thread. It begins with what the thread saw before.
    pub fn show(&mut self, seen: &mut Sight<E, N>)
        ensures seen { seen.new ≡ self.old }
        ensures before { IsPrefix seen.old self.old }
        ensures log { self.new ≡ self.old }
    {
        let table = &self.table;
        let token = rule::split(&table.shared, &mut self.token);
        let old = replace(&mut seen.token, token);
        rule::join(&table.shared, &mut self.token, old);
    }
}
