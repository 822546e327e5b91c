//! Laws of a board's problem and of a plan's parts, each the contract of a function that does nothing.
ghost use Rattle.std.specs.Prelude.{◌≡◌, ◌↔◌, ◌<◌, ◌≤◌, ◌^◌, ℕ, All, List, Option, length, slice_index, sum_by};
ghost use Rattle.mds_types.specs.declared.plan.Plan.{Plan};
ghost use Rattle.mds_types.specs.declared.problem.ProblemRow.{ProblemRow};
ghost use Rattle.mds_types.specs.Certificate.{IsPartition, plan_label};
ghost use Rattle.mds_types.specs.Division.{IsDivision, IsLowerBound, part_heat};
ghost use Rattle.mds_types.specs.Placing.{IsPlacing, moved};
ghost use Rattle.mds_types.specs.Problem.{IsForest, IsProblem, heat_at, inodes_at, parent_at};
ghost use Rattle.mds_types.specs.RankSet.{rank_count};
ghost use Rattle.mds_types.specs.Sums.{sum_below};
ghost use Rattle.dirtree.specs.Tree.{Entry, IsTree, parent_of};
ghost use Rattle.dir_pins.specs.Pins.{unpinned};
ghost use Rattle.tree_parts.specs.DirDivision.{IsDirDivision, IsDirPlacing, dir_moved, dir_part_heat};
ghost use Rattle.tree_parts.specs.DirDivision.{greatest_dir_heat, row_label};
ghost use Rattle.tree_parts.specs.PlanParts.{IsTopOf, plan_parts};
ghost use Rattle.tree_parts.specs.ProblemRows.{problem_rows};

/// The rows of a tree's unpinned directories, over ranks that are there, are a problem.
pub fn opened_is_problem()
    ensures { (entries : List (Option Entry)) (own : List (Option ℕ)) (heats now : List ℕ) (ranks : ℕ) →
        IsTree entries → length entries ≤ 2 ^ 16 → All (λ heat. heat ≤ 2 ^ 40) heats → 0 < rank_count ranks →
        IsProblem (record { rows = problem_rows entries own heats now; ranks = ranks }) }
{}

/// Divisions of the unpinned directories and divisions of the rows are the same, with the same heats: so a lower bound
/// of the greatest heat of all divisions of the rows is one for the directories, too.
pub fn directories_divide_as_rows()
    ensures divisions { (entries : List (Option Entry)) (own : List (Option ℕ)) (heats now : List ℕ) (k : ℕ)
        (label : ℕ → ℕ) → IsTree entries → IsDirDivision entries own k label
        ↔ IsDivision (problem_rows entries own heats now) k (row_label entries own label) }
    ensures heats { (entries : List (Option Entry)) (own : List (Option ℕ)) (heats now : List ℕ) (label : ℕ → ℕ)
        (part : ℕ) → IsTree entries →
        part_heat (problem_rows entries own heats now) (row_label entries own label) part
        ≡ dir_part_heat entries own heats label part }
    ensures least { (entries : List (Option Entry)) (own : List (Option ℕ)) (heats now : List ℕ) (k heat : ℕ)
        (label : ℕ → ℕ) → IsTree entries → IsLowerBound (problem_rows entries own heats now) k heat →
        IsDirDivision entries own k label → heat ≤ greatest_dir_heat entries own heats k label }
{}

/// Placings of parts of directories and of parts of the rows are the same, and move the same inodes.
pub fn directories_move_as_rows()
    ensures placings { (entries : List (Option Entry)) (own : List (Option ℕ)) (heats now : List ℕ) (ranks : ℕ)
        (label rank : ℕ → ℕ) → IsTree entries → IsDirPlacing entries own ranks label rank
        ↔ IsPlacing (problem_rows entries own heats now) ranks (row_label entries own label) rank }
    ensures moves { (entries : List (Option Entry)) (own : List (Option ℕ)) (heats now : List ℕ)
        (label rank : ℕ → ℕ) → IsTree entries →
        moved (problem_rows entries own heats now) (row_label entries own label) rank
        ≡ dir_moved entries own now label rank }
{}

/// The row of a directory's parent is the parent of its row: the problem's
/// tree is that of the unpinned directories.
pub fn parents_are_rows()
    ensures { (entries : List (Option Entry)) (own : List (Option ℕ)) (heats now : List ℕ) (i : ℕ) → IsTree entries
        → i < length (unpinned entries own)
        → slice_index (unpinned entries own) (parent_at (problem_rows entries own heats now) i)
        ≡ parent_of entries (slice_index (unpinned entries own) i) }
{}

/// In a division into connected parts that each have a row, each part has one top.
pub fn each_part_has_one_top()
    ensures { (rows : List ProblemRow) (k part : ℕ) (label : ℕ → ℕ) → IsForest rows → IsPartition rows k label
        → part < k → (i : ℕ) × IsTopOf rows label part i × ((j : ℕ) → IsTopOf rows label part j → j ≡ i) }
{}

/// The parts of a plan have together what the rows have: none is left out, and none counted twice.
pub fn parts_add_up()
    ensures heats { (rows : List ProblemRow) (dirs : List ℕ) (plan : Plan) → IsForest rows
        → IsPartition rows (length plan.rank) (plan_label plan)
        → sum_by (λ part. part.heat) (plan_parts rows dirs plan) ≡ sum_below (length rows) (heat_at rows) }
    ensures inodes { (rows : List ProblemRow) (dirs : List ℕ) (plan : Plan) → IsForest rows
        → IsPartition rows (length plan.rank) (plan_label plan)
        → sum_by (λ part. part.inodes) (plan_parts rows dirs plan) ≡ sum_below (length rows) (inodes_at rows) }
{}
