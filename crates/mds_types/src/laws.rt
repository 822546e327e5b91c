//! What the proofs of a plan show: laws over the definitions, each the contract of a function that does nothing.
ghost use Rattle.std.specs.Prelude.{◌≡◌, ◌<◌, ◌≤◌, ℕ, List, length};
ghost use Rattle.mds_types.specs.declared.cut_proof.CutProof.{CutProof};
ghost use Rattle.mds_types.specs.declared.dual_proof.DualProof.{DualProof};
ghost use Rattle.mds_types.specs.declared.plan.Plan.{Plan};
ghost use Rattle.mds_types.specs.declared.cut_proof.Row.{Row};
ghost use Rattle.mds_types.specs.declared.problem.ProblemRow.{ProblemRow};
ghost use Rattle.mds_types.specs.Certificate.{AreRanks, IsBest, IsCertified, IsCutProof, IsDualProof, IsPartition};
ghost use Rattle.mds_types.specs.CutTable.{IsCutTable, cuts_at, rest_at};
ghost use Rattle.mds_types.specs.Division.{IsDivision, IsLowerBound, IsWithin, part_count};
ghost use Rattle.mds_types.specs.Placing.{IsPlacing, moved};
ghost use Rattle.mds_types.specs.Subtree.{IsBeyond, edges_below, top_heat};
ghost use Rattle.mds_types.specs.Problem.{IsForest, IsProblem, ProblemData};

/// A division whose parts are within a table's bound has more parts than the table has cuts.
pub fn table_counts_parts()
    ensures { (rows : List ProblemRow) (table : List Row) (bound k : ℕ) (label : ℕ → ℕ) →
        IsForest rows → 0 < length rows → IsCutTable rows table bound →
        IsDivision rows k label → IsWithin rows k label bound →
        cuts_at table 0 < part_count rows k label }
{}

/// A table against a bound says of each subtree what every division within the bound needs there:
/// more cut edges than the table's row has cuts, or as many and at least as hot a piece at its top.
pub fn table_bounds_subtrees()
    ensures { (rows : List ProblemRow) (table : List Row) (bound k i : ℕ) (label : ℕ → ℕ) →
        IsForest rows → IsCutTable rows table bound → IsDivision rows k label → IsWithin rows k label bound →
        i < length rows →
        IsBeyond (cuts_at table i) (rest_at table i) (edges_below rows label i) (top_heat rows label i) }
{}

/// A cut proof bounds the greatest heat of every division into as many parts.
pub fn cut_proof_bounds()
    ensures { (rows : List ProblemRow) (k greatest : ℕ) (proof : CutProof) →
        IsForest rows → 0 < k → IsCutProof rows k greatest proof → IsLowerBound rows k greatest }
{}

/// A dual proof bounds the inodes that any placing of the same parts moves.
pub fn dual_proof_bounds()
    ensures { (rows : List ProblemRow) (ranks k : ℕ) (label rank : ℕ → ℕ) (dual : DualProof) →
        IsPartition rows k label → AreRanks ranks k rank → IsDualProof rows ranks k label rank dual →
        (other : ℕ → ℕ) → IsPlacing rows ranks label other → moved rows label rank ≤ moved rows label other }
{}

/// A plan whose proofs hold is best.
pub fn certified_plan_is_best()
    ensures { (problem : ProblemData) (plan : Plan) → IsProblem problem → IsCertified problem plan
        → IsBest problem plan }
{}
