//! What the definitions of a tree come to: laws, each the contract of a function that does nothing.
ghost use Rattle.std.specs.Prelude.{◌≡◌, ◌==◌, ◌+◌, ◌↔◌, ℕ, List, Option, Some, None, Ok, true, if◌then◌else◌, length};
ghost use Rattle.std.specs.List.{filter_map, range_with_len};
ghost use Rattle.dirtree.specs.Path.{find, path_of};
ghost use Rattle.dirtree.specs.Tree.{child_of, Directories, Entry, entry_at, has_child, IsChild, is_there, IsTree};
ghost use Rattle.dirtree.specs.Tree.{make_refusal, name_of, remove_refusal, row_at, rows_from, with_child, without};

/// A path leads to a directory exactly if it is that directory's path.
pub fn path_leads_back()
    ensures { (entries : List (Option Entry)) (path : List ℕ) (d : ℕ) → IsTree entries
        → (find entries path ≡ Ok d) ↔ ((is_there entries d ≡ true) × (path ≡ path_of entries d)) }
{}

/// The child of a name is the directory that has this parent and this name.
pub fn child_has_the_name()
    ensures { (entries : List (Option Entry)) (parent c : ℕ) (name : List ℕ) → IsTree entries
        → (child_of entries parent name ≡ Some c) ↔ IsChild entries parent name c }
{}

/// A directory has a child exactly if it is some directory's parent.
pub fn parents_have_children()
    ensures { (entries : List (Option Entry)) (d : ℕ) → IsTree entries
        → (has_child entries d ≡ true) ↔ ((c : ℕ) × IsChild entries d (name_of entries c) c) }
{}

/// A made directory leaves a tree, under the number after the greatest that was given, and each other directory as it
/// was.
pub fn making_adds_one()
    ensures tree { (t : Directories) (parent : ℕ) (name : List ℕ) (inodes : ℕ) → IsTree t.entries
        → make_refusal t parent name ≡ None → IsTree (with_child t parent name inodes).entries }
    ensures numbers { (t : Directories) (parent : ℕ) (name : List ℕ) (inodes : ℕ)
        → length (with_child t parent name inodes).entries ≡ length t.entries + 1 }
    ensures entries { (t : Directories) (parent : ℕ) (name : List ℕ) (inodes d : ℕ)
        → entry_at (with_child t parent name inodes).entries d ≡ (if d == length t.entries
        then Some (record { parent = parent; name = name; inodes = inodes })
        else entry_at t.entries d) }
{}

/// A removed directory leaves a tree, with as many numbers given as before, and each other directory as it was.
pub fn removing_takes_one()
    ensures tree { (t : Directories) (c : ℕ) → IsTree t.entries → remove_refusal t c ≡ None
        → IsTree (without t c).entries }
    ensures numbers { (t : Directories) (c : ℕ) → length (without t c).entries ≡ length t.entries }
    ensures entries { (t : Directories) (c d : ℕ)
        → entry_at (without t c).entries d ≡ (if d == c then None else entry_at t.entries d) }
{}

/// The rows are those of the directories that are there, by rising numbers.
pub fn rows_rise()
    ensures { (entries : List (Option Entry))
        → rows_from 0 entries ≡ filter_map (row_at entries) (range_with_len 0 (length entries)) }
{}
