//! All operations of a map, in order, and how far somebody knows them.
//!
//! The list is in proofs only, in a book of `logbook` that only grows. In memory there is its length: the writer's word
//! `Count`, and a number in each `LogPrefix`, a beginning of the list, which is known by its number.
ghost use Rattle.std.specs.Prelude.{◌≡◌, ◌<◌, ◌^◌, ◌++◌, ◌∷◌, [], ◌⊎◌, length, IfSome, IsTrue, MatchBool};
ghost use mathlib.Core.List.{IsPrefix};
ghost use Rattle.authority_map.specs.Log.{counter_of};

use crate::operation::MapOperation;
use logbook::{Gain, Offer, Opening, Plain, Play, Rule, Seen, Start, Word};
use proof_names::Naming;
use std::marker::{Model, PhantomData};

/// The book's rule: its word has the length of its list.
pub struct Counted;

impl Rule<MapOperation, u64> for Counted {
    ghost use Rattle.std.specs.Prelude.{[]};
    ghost use base.Fml.{ftrue};
    ghost use Rattle.authority_map.specs.Log.{IsCounted};

    ghost holds = { IsCounted };

    ghost first = { [] };

    ghost hinted = { λ _ _. Unit {0} };

    ghost shows = { λ _. [] };

    ghost keeps = { λ _ _. ftrue };

    ghost moves = { λ _ _ _ _. Unit {0} };
}

// A book opens with an empty list.
struct Empty;

impl Opening<(), MapOperation> for Empty {
    ghost use Rattle.std.specs.Prelude.{[]};

    ghost log = { λ _ _. [] };
}

// A step gives its caller nothing to keep.
struct Nothing;

impl Gain<MapOperation, u64> for Nothing {
    ghost use base.Fml.{ftrue};

    ghost after = { λ _ _ _. ftrue };
}

// The step that appends an operation.
struct Append;

impl Play<MapOperation, u64> for Append {
    ghost use Rattle.authority_map.specs.Log.{Appends};

    ghost then = { Appends };
}

impl Plain<MapOperation, MapOperation, u64> for Append {
    ghost use Rattle.std.specs.Prelude.{None};

    ghost ask = { λ operation. operation };

    ghost state = { λ _. None };
}

/// What a map begins with, no operation. Its one value in a contract is the name that a program picks for its board.
#[derive(Drop)]
pub struct NewMap {
    count: Word<MapOperation, u64, Counted>,
    seen: Seen<MapOperation, u64, Counted>,
}

impl Model for NewMap {
    ghost use Rattle.std.specs.Prelude.{◌≡◌, []};
    ghost use Rattle.logbook.specs.Pages.{Book, book_coded};
    ghost use Rattle.authority_map.specs.Log.{counter_of};

    ghost Value = { Book };

    ghost coded = { book_coded };

    ghost view = { λ opened. opened.seen.book };

    ghost invariant = { λ opened. (opened.seen.log ≡ []) × (opened.count ≡ counter_of opened.seen.book) };
}

impl NewMap {
    /// A map with a name of its own. It takes no memory.
    pub fn new() -> NewMap {
        let (seen, mut pens) = Seen::open_row::<(), Empty>(&(), Start::alone(), 1);
        let mut pen = pens.take();
        NewMap {
            count: Word::tracked(0, &mut pen),
            seen,
        }
    }

    // The beginning that has no operation.
    pub(crate) fn start<J: Naming>(&self) -> LogPrefix<J>
        requires { self.now ≡ J.map }
        ensures { result ≡ [] }
    {
        LogPrefix {
            count: 0,
            seen: self.seen.again(),
            of: PhantomData,
        }
    }

    // The word that counts the operations.
    pub(crate) fn into_count<J: Naming>(self) -> Count<J>
        requires { self ≡ J.map }
    {
        let NewMap { count, seen: _seen } = self;
        Count {
            count,
            of: PhantomData,
        }
    }
}

/// How many operations there are. Only its holder appends.
#[derive(Drop)]
pub struct Count<J: Naming> {
    count: Word<MapOperation, u64, Counted>,
    of: PhantomData<J>,
    ghost named: { count ≡ counter_of J.map },
}

/// A beginning of the list of operations. In memory it is its length.
#[derive(Drop)]
pub struct LogPrefix<J: Naming> {
    count: u64,
    seen: Seen<MapOperation, u64, Counted>,
    of: PhantomData<J>,
}

impl<J: Naming> Model for LogPrefix<J> {
    ghost use Rattle.std.specs.Prelude.{◌≡◌, List, length};
    ghost use Rattle.authority_map.specs.Operations.{Operation};

    ghost Value = { List Operation };

    ghost view = { λ prefix. prefix.seen.log };

    ghost invariant = { λ prefix. (prefix.count ≡ length prefix.seen.log) × (prefix.seen.book ≡ J.map) };
}

impl<J: Naming> LogPrefix<J> {
    pub(crate) fn len(&self) -> u64
        ensures { result ≡ length self.now }
    {
        self.count
    }

    pub(crate) fn copied(&self) -> LogPrefix<J>
        ensures { result ≡ self.now }
    {
        LogPrefix {
            count: self.count,
            seen: self.seen.again(),
            of: PhantomData,
        }
    }

    // A token of a list that both are beginnings of.
    fn beside(&self, other: &LogPrefix<J>) -> Seen<MapOperation, u64, Counted>
        ensures mine { IsPrefix self.now result.log }
        ensures theirs { IsPrefix other.now result.log }
    {
        let mut whole = self.seen.again();
        whole.learn(&other.seen);
        whole
    }

    /// Both are beginnings of one list, so one of them is a beginning of the other.
    pub(crate) fn are_of_one(&self, other: &LogPrefix<J>)
        ensures { IsPrefix self.now other.now ⊎ IsPrefix other.now self.now }
    {
        let _part = self.is_part_of(other);
    }

    /// Whether the other one begins with this one. Where it doesn't, this one begins with the other.
    pub(crate) fn is_part_of(&self, other: &LogPrefix<J>) -> bool
        ensures { MatchBool result (IsPrefix self.now other.now) (IsPrefix other.now self.now) }
    {
        let _whole = self.beside(other);
        self.count <= other.count
    }

    /// Whether both are the same.
    pub(crate) fn is_same(&self, other: &LogPrefix<J>) -> bool
        ensures same { IsTrue result → self.now ≡ other.now }
        ensures found { self.now ≡ other.now → IsTrue result }
    {
        let _whole = self.beside(other);
        self.count == other.count
    }

    /// This beginning with one operation more, or `None` where the list is longer already: its writer never sees that.
    pub(crate) fn with(&self, count: &Count<J>, operation: &MapOperation) -> Option<LogPrefix<J>>
        requires { length self.now < 2 ^ 62 }
        ensures { IfSome result (λ prefix. prefix ≡ self.now ++ operation.now ∷ []) }
    {
        let expected = self.count;
        let mut seen = self.seen.again();
        let mut pen = seen.no_pen();
        let mut offer: Offer<MapOperation, u64, Counted, Nothing> = seen.plain::<
            Nothing,
            MapOperation,
            Append,
        >(operation);
        let found = count
            .count
            .compare_exchange::<Append, Nothing>(
                expected,
                expected + 1,
                &mut seen,
                &mut offer,
                &mut pen,
            );
        if found != expected {
            return None;
        }
        Some(LogPrefix {
            count: expected + 1,
            seen,
            of: PhantomData,
        })
    }
}
