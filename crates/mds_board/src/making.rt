//! A new board.
ghost use Rattle.std.specs.Prelude.{◌≡◌, ◌≤◌, [], ◌∷◌, ◌++◌, IfErr, IfOk, OnOk, replicate, true, Some};
ghost use Rattle.dirtree.specs.Tree.{root};
ghost use Rattle.dir_pins.specs.Pins.{no_pins};
ghost use Rattle.heat_decay.specs.Heat.{all_cold};
ghost use Rattle.heat_ledger.specs.Opening.{fresh_share};
ghost use Rattle.export_protocol.specs.Step.{start as first_world};
ghost use Rattle.mds_board.specs.State.{first_operations, start};

use crate::state::BoardState;
use crate::weights::Weights;
use authority_map::Publisher;
use dir_pins::Pins;
use dirtree::{NameKey, Tree};
use export_machine::Cluster;
use heat_decay::Heat;
use heat_ledger::{Book, NewBook, Share};
use mds_types::{Dir, Rank, RankSet};
use proof_names::Naming;
use std::alloc::{AllocError, Global};
use std::marker::PhantomData;

/// What was opened for the board that `J` names: its ledger, and its map. The map has no operation yet, or only the
/// first one, after a board wasn't made because memory was refused. Since the writer of a map can't be dropped,
/// neither can this.
pub struct BoardParts<J: Naming, M: Publisher<J>> {
    book: NewBook,
    map: M,
    key: NameKey,
    has_root: bool,
    of: PhantomData<J>,
    ghost named: { book ≡ J.ledger },
    ghost operations: { M.published map ++ M.pending map ≡ first_operations has_root },
}

impl<J: Naming, M: Publisher<J>> BoardParts<J, M> {
    /// These parts.
    pub fn new(book: NewBook, map: M) -> BoardParts<J, M>
        requires named { book ≡ J.ledger }
        requires unwritten { (M.published map ≡ []) × (M.pending map ≡ []) }
    {
        BoardParts::keyed(book, map, NameKey::default())
    }

    /// These parts, and a key for the hash by which the board's tree finds names.
    pub fn keyed(book: NewBook, map: M, key: NameKey) -> BoardParts<J, M>
        requires named { book ≡ J.ledger }
        requires unwritten { (M.published map ≡ []) × (M.pending map ≡ []) }
    {
        BoardParts::of(book, map, key, false)
    }

    // The same, where the map may have its first operation.
    fn of(book: NewBook, map: M, key: NameKey, has_root: bool) -> BoardParts<J, M>
        requires named { book ≡ J.ledger }
        requires operations { M.published map ++ M.pending map ≡ first_operations has_root }
    {
        BoardParts {
            book,
            map,
            key,
            has_root,
            of: PhantomData,
        }
    }

    /// Ends the map of a board that wasn't made.
    pub fn end(self) {
        let BoardParts {
            book: _book,
            map,
            key: _key,
            has_root: _has_root,
            of: _of,
        } = self;
        map.end();
    }
}

impl<J: Naming, M: Publisher<J>> BoardState<J, M> {
    /// Only the root, at rank 0 of `active` active ranks, with room for the directory numbers below `limit`, and a
    /// share of the ledger for each rank. The map has one operation, which gives the root to rank 0, and it is
    /// published. Where memory is refused, it returns the parts, and the map may have this operation then.
    pub fn new(
        alloc: Global,
        parts: BoardParts<J, M>,
        limit: u32,
        active: u8,
    ) -> Result<(BoardState<J, M>, Vec<Share<J>>), BoardParts<J, M>>
        requires limit { limit ≡ J.limit }
        requires low { 1 ≤ limit }
        requires high { limit ≤ 65536 }
        requires some { 1 ≤ active }
        requires few { active ≤ 64 }
        ensures state { IfOk result (λ r. r.0 ≡ record {
          state = start limit active;
          is_open = true;
          shares = active;
          published = first_operations true;
        }) }
        ensures shares { IfOk result (λ r. r.1.items ≡ replicate active (fresh_share limit)) }
    {
        let BoardParts {
            book,
            mut map,
            key,
            has_root,
            of: _of,
        } = parts;
        let Ok(tables) = Tables::new(alloc, limit, active, key) else {
            return Err(BoardParts::of(book, map, key, has_root));
        };
        match publish_root::<J, M>(&mut map, has_root) {
            Ok(()) => {}
            Err(has_root) => return Err(BoardParts::of(book, map, key, has_root)),
        }
        let (book, shares) = match Book::open(alloc, book, limit, active) {
            Ok(opened) => opened,
            Err(failed) => return Err(BoardParts::of(failed.value, map, key, true)),
        };
        let Tables {
            tree,
            pins,
            heat,
            cluster,
        } = tables;
        let state = BoardState {
            tree,
            pins,
            heat,
            weights: Weights { read: 1, write: 1 },
            mask: RankSet::from_bits(0),
            book,
            cluster,
            map,
            opened: None,
            in_force: None,
            events: 0,
        };
        Ok((state, shares))
    }
}

// Gives the root to rank 0, unless the map has that operation already, and publishes it. Where memory is refused, the
// error says whether the map has the operation.
fn publish_root<J: Naming, M: Publisher<J>>(map: &mut M, has_root: bool) -> Result<(), bool>
    requires inside { 1 ≤ J.limit }
    requires operations { M.published map.old ++ M.pending map.old ≡ first_operations has_root }
    ensures published { OnOk result ((M.published map.new ≡ first_operations true) × (M.pending map.new ≡ [])) }
    ensures err { IfErr result (λ has_root. M.published map.new ++ M.pending map.new ≡ first_operations has_root) }
{
    if !has_root {
        if map.reserve().is_err() {
            return Err(false);
        }
        map.set_one(Dir::ROOT, Rank::default());
    }
    match map.publish() {
        Ok(()) => Ok(()),
        Err(_) => Err(true),
    }
}

// The tables of a board that has only the root.
#[derive(Drop)]
struct Tables {
    tree: Tree,
    pins: Pins,
    heat: Heat,
    cluster: Cluster,
}

impl Tables {
    fn new(alloc: Global, limit: u32, active: u8, key: NameKey) -> Result<Tables, AllocError>
        requires low { 1 ≤ limit }
        requires high { limit ≤ 65536 }
        requires some { 1 ≤ active }
        requires few { active ≤ 64 }
        ensures tree { IfOk result (λ t. t.tree ≡ record { limit = limit; entries = Some root ∷ [] }) }
        ensures pins { IfOk result (λ t. t.pins ≡ no_pins limit active) }
        ensures heat { IfOk result (λ t. t.heat ≡ all_cold limit 0) }
        ensures cluster { IfOk result (λ t. t.cluster.world ≡ first_world limit active) }
    {
        Ok(Tables {
            tree: Tree::keyed(alloc, limit, key)?,
            pins: Pins::new(alloc, limit, active)?,
            heat: Heat::new(alloc, limit)?,
            cluster: Cluster::new(alloc, limit, active)?,
        })
    }
}
