//! Orders while their directories are found.
ghost use Rattle.std.specs.Prelude.{◌≡◌, ◌<◌, ◌++◌, ◌∷◌, [], length, slice_index};
ghost use Rattle.std.specs.Prelude.{slice_index_or, slice_set, IfOk, OnOk};
ghost use Rattle.tree_parts.specs.Found.{begun, no_order, with_dir};

use crate::moves::Move;
use mds_types::{Dir, Dirs, Order, Rank};
use std::alloc::{AllocError, Global};
use std::marker::Model;

/// An order that directories are still added to. To a contract it is the order.
#[derive(Drop)]
pub(crate) struct Draft {
    from: Rank,
    to: Rank,
    dirs: Vec<Dir>,
}

impl Model for Draft {
    ghost use Rattle.mds_types.specs.declared.order.Order.{Order};

    ghost Value = { Order };

    ghost view = { λ draft. record { from = draft.from; to = draft.to; dirs = draft.dirs.items } };
}

impl Draft {
    fn new(alloc: Global, made: &Move, top: Dir) -> Result<Draft, AllocError>
        ensures { IfOk result (λ draft. draft ≡ begun made.now top) }
    {
        let mut dirs = Vec::new(alloc);
        dirs.push(top)?;
        Ok(Draft {
            from: made.from,
            to: made.to,
            dirs,
        })
    }

    fn add(&mut self, dir: Dir) -> Result<(), AllocError>
        ensures { OnOk result (self.new ≡ with_dir self.old dir) }
    {
        self.dirs.push(dir)?;
        Ok(())
    }

    fn into_order(self) -> Order
        ensures { result ≡ self }
    {
        Order {
            from: self.from,
            to: self.to,
            dirs: Dirs::new(self.dirs),
        }
    }
}

/// The orders that are found so far, by rising tops.
///
/// `places[d]` is the place among them of the order that directory d is in.
#[derive(Drop)]
pub(crate) struct FoundSets {
    pub(crate) orders: Vec<Draft>,
    pub(crate) places: Vec<usize>,
}

impl FoundSets {
    /// No order yet, with room for the places of this many numbers.
    pub(crate) fn new(alloc: Global, numbers: u32) -> Result<FoundSets, AllocError>
        ensures orders { IfOk result (λ found. found.orders.items ≡ []) }
        ensures places { IfOk result (λ found. length found.places.items ≡ numbers) }
    {
        Ok(FoundSets {
            orders: Vec::new(alloc),
            places: vec![in alloc; 0; numbers as usize]?,
        })
    }

    /// Begins an order for this move with the directory at its top.
    pub(crate) fn begin(&mut self, alloc: Global, made: &Move, top: Dir) -> Result<(), AllocError>
        requires { top < length self.old.places.items }
        ensures orders { OnOk result (self.new.orders.items ≡ self.old.orders.items ++ begun made.now top ∷ []) }
        ensures places { OnOk result (self.new.places.items
            ≡ slice_set self.old.places.items top (length self.old.orders.items)) }
    {
        let place = self.orders.len();
        self.orders.push(Draft::new(alloc, made, top)?)?;
        self.places[top.number() as usize] = place;
        Ok(())
    }

    /// Adds a directory to the order that its parent is in.
    pub(crate) fn join(&mut self, parent: Dir, dir: Dir) -> Result<(), AllocError>
        requires parent { parent < length self.old.places.items }
        requires dir { dir < length self.old.places.items }
        requires place { slice_index self.old.places.items parent < length self.old.orders.items }
        ensures orders { OnOk result (let place = slice_index self.old.places.items parent in
            self.new.orders.items ≡ slice_set self.old.orders.items place
            (with_dir (slice_index_or self.old.orders.items place no_order) dir)) }
        ensures places { OnOk result (self.new.places.items
            ≡ slice_set self.old.places.items dir (slice_index self.old.places.items parent)) }
    {
        let place = self.places[parent.number() as usize];
        self.orders[place].add(dir)?;
        self.places[dir.number() as usize] = place;
        Ok(())
    }

    /// The orders.
    pub(crate) fn into_orders(self, alloc: Global) -> Result<Vec<Order>, AllocError>
        ensures { IfOk result (λ orders. orders.items ≡ self.orders.items) }
    {
        let FoundSets {
            orders: drafts,
            places: _places,
        } = self;
        let mut orders = Vec::with_capacity(alloc, drafts.len())?;
        for draft in drafts {
            orders.push(draft.into_order())?;
        }
        Ok(orders)
    }
}
