//! Laws of pins, each the contract of a function that does nothing.
ghost use Rattle.std.specs.Prelude.{◌≡◌, ℕ, List, Option, Some, false};
ghost use Rattle.dirtree.specs.Tree.{Entry, IsTree};
ghost use Rattle.dir_pins.specs.Pins.{IsAbove, IsNoneOrTree, is_unpinned, nearest_pin, unpinned};

/// Nothing below a directory that a pin holds is unpinned.
pub fn nothing_below_a_pin_is_unpinned()
    ensures { (entries : List (Option Entry)) (own : List (Option ℕ)) (d c rank : ℕ) → IsTree entries
        → nearest_pin entries own d ≡ Some rank → IsAbove entries d c → is_unpinned entries own c ≡ false }
{}

/// The unpinned directories are none, or a tree with the root at its top.
pub fn unpinned_directories_are_a_tree()
    ensures { (entries : List (Option Entry)) (own : List (Option ℕ)) → IsTree entries
        → IsNoneOrTree entries (unpinned entries own) }
{}
