//! Numbers that are given out, and who has them.
ghost use Rattle.std.specs.Prelude.{◌≡◌, ◌≤◌, ◌+◌, [], ◌∷◌, ◌++◌};
ghost use Rattle.proof_names.specs.Numbers.{AreApart};

use crate::numbers_rule;
use crate::numbers_rule::{Holder, HolderTable};
use std::alloc::{AllocError, Global};
use std::marker::{Brand, Model, PhantomData};

/// Names a giver of numbers. It exists in proofs only, and a caller picks it.
pub trait NumbersName {
    ghost use Rattle.atomic_table.specs.Seated.{TableId};

    ghost numbers: { TableId };
}

impl NumbersName for Brand {
    ghost use Rattle.proof_names.specs.Growing.{no_name};

    ghost numbers = { no_name };
}

/// A giver of numbers that has no name yet. Its one value in a contract is the name that it can have.
#[derive(Drop)]
pub struct NewNumbers {
    table: HolderTable,
    token: Holder,
}

impl Model for NewNumbers {
    ghost use Rattle.std.specs.Prelude.{◌≡◌, [], true};
    ghost use Rattle.atomic_table.specs.Seated.{TableId, table_id_coded};
    ghost use Rattle.proof_names.specs.Growing.{IsSeatOf};
    ghost use Rattle.proof_names.specs.Numbers.{holding};

    ghost Value = { TableId };

    ghost coded = { table_id_coded };

    ghost view = { λ new. new.table.shared.table_id };

    ghost invariant = { λ new. IsSeatOf new.table.shared.table_id new.token
        × (new.token.me.0 ≡ holding true 0 []) };
}

impl NewNumbers {
    /// A giver with a name of its own.
    pub fn new(alloc: Global) -> Result<NewNumbers, AllocError> {
        let (table, token) = numbers_rule::open(alloc)?;
        Ok(NewNumbers { table, token })
    }

    /// The giver that `N` names.
    pub fn named<N: NumbersName>(self) -> Numbers<N>
        requires { self ≡ N.numbers }
        ensures { result ≡ 0 }
    {
        let NewNumbers { table, token } = self;
        Numbers {
            table,
            token,
            of: PhantomData,
        }
    }
}

/// Gives out numbers. To a contract it is the number from which on none was given.
#[derive(Drop)]
pub struct Numbers<N: NumbersName> {
    table: HolderTable,
    token: Holder,
    of: PhantomData<N>,
}

impl<N: NumbersName> Model for Numbers<N> {
    ghost use Rattle.std.specs.Prelude.{◌≡◌, ℕ, true};
    ghost use Rattle.proof_names.specs.Growing.{IsSeatOf};

    ghost Value = { ℕ };

    ghost view = { λ n. n.token.me.0.next };

    ghost invariant = { λ n. IsSeatOf n.table.shared.table_id n.token × (n.table.shared.table_id ≡ N.numbers)
        × (n.token.me.0.leads ≡ true) };
}

/// The numbers that a thread was given, in order. It takes no bytes.
#[derive(Drop)]
pub struct Given<N: NumbersName> {
    token: Holder,
    of: PhantomData<N>,
}

impl<N: NumbersName> Model for Given<N> {
    ghost use Rattle.std.specs.Prelude.{◌≡◌, ℕ, List, []};

    ghost Value = { List ℕ };

    ghost view = { λ g. g.token.me.0.numbers };

    ghost invariant = { λ g. (g.token.table_id ≡ N.numbers) × (g.token.me.1 ≡ []) };
}

impl<N: NumbersName> Numbers<N> {
    /// No number yet.
    pub fn none(&self) -> Given<N>
        ensures { result ≡ [] }
    {
        let token = numbers_rule::enter(&self.table.shared);
        Given {
            token,
            of: PhantomData,
        }
    }

    /// Gives a number that is above all that were given.
    pub fn give(&mut self, given: &mut Given<N>, number: u32)
        requires { self.old ≤ number }
        ensures given { given.new ≡ given.old ++ number ∷ [] }
        ensures next { self.new ≡ number + 1 }
    {
        let table = &self.table;
        let token = numbers_rule::hand::<Brand>(&table.shared, &mut self.token, number);
        numbers_rule::join(&table.shared, &mut given.token, token);
    }

    /// Joins what two threads were given, which has no number twice.
    pub fn join(&self, given: &mut Given<N>, other: Given<N>)
        ensures given { given.new ≡ given.old ++ other }
        ensures apart { AreApart given.new }
    {
        let Given { token, of: _of } = other;
        numbers_rule::join(&self.table.shared, &mut given.token, token);
    }
}
