//! A plan and the cost of its parts, as a contract of a function that does nothing.
ghost use Rattle.std.specs.Prelude.{◌≡◌, ℕ, List, Option, length, map};
ghost use Rattle.mds_types.specs.declared.plan.Plan.{Plan};
ghost use Rattle.mds_types.specs.Certificate.{IsPartition, plan_label};
ghost use Rattle.mds_types.specs.Division.{greatest_heat};
ghost use Rattle.mds_types.specs.Problem.{IsForest};
ghost use Rattle.dirtree.specs.Tree.{Entry, IsTree};
ghost use Rattle.dir_pins.specs.Pins.{unpinned};
ghost use Rattle.tree_parts.specs.Parts.{greatest, parts};
ghost use Rattle.tree_parts.specs.PlanParts.{part_tops, plan_parts};
ghost use Rattle.tree_parts.specs.ProblemRows.{problem_rows};
ghost use Rattle.script_board.specs.PlanCost.{without_rank};

/// The division below the tops of a plan's parts has the plan's parts: the same tops, heats and inodes, and no other.
/// Its greatest heat is that of the plan's division.
pub fn tops_give_the_parts()
    ensures parts { (entries : List (Option Entry)) (own : List (Option ℕ)) (heats now : List ℕ) (plan : Plan)
        → IsTree entries → IsForest (problem_rows entries own heats now)
        → IsPartition (problem_rows entries own heats now) (length plan.rank) (plan_label plan)
        → let planned = plan_parts (problem_rows entries own heats now) (unpinned entries own) plan in
        parts entries own heats (part_tops planned) ≡ map without_rank planned }
    ensures greatest { (entries : List (Option Entry)) (own : List (Option ℕ)) (heats now : List ℕ) (plan : Plan)
        → IsTree entries → IsForest (problem_rows entries own heats now)
        → IsPartition (problem_rows entries own heats now) (length plan.rank) (plan_label plan)
        → let planned = plan_parts (problem_rows entries own heats now) (unpinned entries own) plan in
        greatest (parts entries own heats (part_tops planned))
        ≡ greatest_heat (problem_rows entries own heats now) (length plan.rank) (plan_label plan) }
{}
