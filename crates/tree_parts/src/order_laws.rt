//! What the definition of orders means: laws, each the contract of a function that does nothing.
ghost use Rattle.std.specs.Prelude.{◌≡◌, ℕ, List, Option};
ghost use Rattle.mds_types.specs.declared.order.Order.{Order};
ghost use Rattle.dirtree.specs.Tree.{Entry, IsTree};
ghost use Rattle.tree_parts.specs.Largest.{AreOrders};
ghost use Rattle.tree_parts.specs.Orders.{orders};

/// In every tree the orders are the largest connected sets that go from one rank to another, and
/// each directory that is to move is in one of them.
pub fn orders_are_largest()
    ensures { (entries : List (Option Entry)) (now target : List (Option ℕ)) → IsTree entries
        → AreOrders entries now target (orders entries now target) }
{}

/// There is one list of orders, and no other: the words of sets leave nothing open.
pub fn orders_are_unique()
    ensures { (entries : List (Option Entry)) (now target : List (Option ℕ)) (some others : List Order)
        → AreOrders entries now target some → AreOrders entries now target others → some ≡ others }
{}
