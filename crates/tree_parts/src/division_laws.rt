//! What the definitions of parts mean: laws, each the contract of a function that does nothing.
ghost use Rattle.std.specs.Prelude.{ℕ, List, Option};
ghost use Rattle.dirtree.specs.Tree.{Entry, IsTree};
ghost use Rattle.tree_parts.specs.declared.division.Part.{Part};
ghost use Rattle.tree_parts.specs.Division.{IsDivision, IsGreatest};
ghost use Rattle.tree_parts.specs.Parts.{greatest, parts};

/// In every tree, under any pins and below any tops, the parts divide the directories that no pin holds.
pub fn parts_divide()
    ensures { (entries : List (Option Entry)) (own : List (Option ℕ)) (heats tops : List ℕ) → IsTree entries
        → IsDivision entries own heats tops (parts entries own heats tops) }
{}

/// The greatest heat of some parts is the heat of the hottest of them.
pub fn greatest_is_of_a_part()
    ensures { (ps : List Part) → IsGreatest ps (greatest ps) }
{}
