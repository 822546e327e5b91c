//! Laws of plans and pins. Of the same divisions a larger tolerance moves no more inodes. Where the present placement
//! is cool enough nothing moves.
//!
//! Pins are changed in this order: first the new ones are set, from the last row to the first, and then those that are
//! no longer wanted are taken away, from the first row to the last. No row goes by way of a third rank.
ghost use Rattle.std.specs.Prelude.{◌≡◌, ◌<◌, ◌≤◌, ◌+◌, ◌*◌, ◌⊎◌, ◌∷◌, [], ℕ, List, Option, length};
ghost use Rattle.ceph_plan.specs.declared.made.TheConstants.{MADE_WEIGHT};
ghost use Rattle.ceph_plan.specs.declared.packing.TheConstants.{TOLERANCES};
ghost use Rattle.ceph_plan.specs.declared.plan.PackedDivision.{PackedDivision};
ghost use Rattle.ceph_plan.specs.declared.plan.Planned.{Planned};
ghost use Rattle.ceph_plan.specs.Candidates.{CanStay, IsAllowed, Stays};
ghost use Rattle.ceph_plan.specs.Choice.{IsTaken};
ghost use Rattle.ceph_plan.specs.Balance.{allowed};
ghost use Rattle.ceph_plan.specs.Packing.{IsBoundOf, IsOneHour, greatest_load, greatest_of, heat_in};
ghost use Rattle.ceph_plan.specs.Packing.{load, load_of_rows, pinned_in};
ghost use Rattle.ceph_plan.specs.Proposals.{IsProposal};
ghost use Rattle.ceph_plan.specs.declared.choice.Wanted.{Wanted};
ghost use Rattle.ceph_plan.specs.declared.hours.Hour.{Hour};
ghost use Rattle.ceph_plan.specs.declared.proposal.OwnPins.{OwnPins};
ghost use Rattle.ceph_plan.specs.declared.proposal.Proposal.{Proposal};
ghost use Rattle.ceph_plan.specs.declared.shares.Shares.{Shares};
ghost use Rattle.mds_types.specs.Problem.{now_at};
ghost use Rattle.mds_types.specs.declared.problem.ProblemRow.{ProblemRow};
ghost use Rattle.ceph_plan.specs.declared.row.PinRow.{PinRow};
ghost use Rattle.ceph_plan.specs.Rule.{AreRows, IsAt};
ghost use Rattle.ceph_plan.specs.Shares.{AreShares, scaled, share_of};
ghost use Rattle.ceph_plan.specs.Changes.{while_set, while_unset};

/// At each moment each row is where it was before, or where it is in the end.
pub fn each_row_moves_once()
    ensures set { (rows : List PinRow) (old new : ℕ → Option ℕ) (at i r : ℕ) → AreRows rows → i < length rows
        → IsAt rows (while_set old new at) i r → IsAt rows old i r ⊎ IsAt rows new i r }
    ensures unset { (rows : List PinRow) (old new : ℕ → Option ℕ) (at i r : ℕ) → AreRows rows → i < length rows
        → IsAt rows (while_unset old new at) i r → IsAt rows old i r ⊎ IsAt rows new i r }
{}

/// Of the same divisions, with a larger tolerance no more inodes move. What is tried doesn't depend on it.
pub fn larger_tolerance_moves_no_more()
    ensures { (keep more : ℕ) (divisions : List PackedDivision) (plan other : Planned) → keep ≤ more
        → IsTaken keep divisions plan → IsTaken more divisions other → other.moved ≤ plan.moved }
{}

/// Where each directory can stay, with few enough pins, and the greatest load of now is within the limit, the proposal
/// has each directory where it is. So it has where that load is within the tolerance of what no assignment gets below
/// in some hour.
pub fn stays_where_that_is_cool_enough()
    ensures limit { (ranks : ℕ) (hours : List Hour) (rows : List ProblemRow) (wanted : Wanted) (own : List OwnPins)
        (found : Proposal) (is : IsProposal ranks hours rows wanted own found) → CanStay ranks rows
        → IsAllowed wanted is.candidates 0 → greatest_load ranks hours (length rows) (now_at rows) ≤ is.limit
        → Stays rows found.plan }
    ensures bound { (ranks : ℕ) (hours : List Hour) (rows : List ProblemRow) (wanted : Wanted) (own : List OwnPins)
        (found : Proposal) (is : IsProposal ranks hours rows wanted own found) (h bound : ℕ) → CanStay ranks rows
        → IsAllowed wanted is.candidates 0 → h < length hours
        → IsBoundOf ranks (pinned_in hours h) (length rows) (heat_in hours h) bound
        → greatest_load ranks hours (length rows) (now_at rows) ≤ allowed wanted.keep bound → Stays rows found.plan }
{}

/// Of the only hour a load is what is pinned there, and the heat of the rows that go there.
pub fn one_hour_is_its_rows()
    ensures load { (rows : List ProblemRow) (pinned : List ℕ) (hours : List Hour) (to : ℕ → ℕ) (r : ℕ)
        → IsOneHour rows pinned hours → load hours (length rows) to r ≡ load_of_rows pinned rows to r }
    ensures greatest { (ranks : ℕ) (rows : List ProblemRow) (pinned : List ℕ) (hours : List Hour) (to : ℕ → ℕ)
        → IsOneHour rows pinned hours
        → greatest_load ranks hours (length rows) to ≡ greatest_of ranks (load_of_rows pinned rows to) }
{}

/// The only hour counts its heat, whatever its weight is: the same rows and the same hour are planned as by `propose`.
pub fn one_hour_counts_its_heat()
    ensures rows { (ranks : ℕ) (rows : List ProblemRow) (pinned weights : List ℕ) (hours : List Hour) (found : Shares)
        → IsOneHour rows pinned hours → AreShares ranks rows hours weights found → found.rows.items ≡ rows }
    ensures hour { (ranks : ℕ) (rows : List ProblemRow) (pinned weights : List ℕ) (hours : List Hour) (found : Shares)
        → IsOneHour rows pinned hours → AreShares ranks rows hours weights found
        → IsOneHour rows pinned found.hours.items }
{}

/// What an hour counts is rounded up to a whole part of its bound, and the only hour counts its heat.
pub fn shares_are_rounded_up()
    ensures up { (scale bound heat : ℕ) → 0 < bound → heat * scale ≤ scaled scale bound heat * bound }
    ensures less { (scale bound heat : ℕ) → 0 < bound → scaled scale bound heat * bound < heat * scale + bound }
    ensures alone { (bound heat : ℕ) → 0 < bound → share_of bound bound heat ≡ heat }
{}

/// An hour that is made counts less than one that was seen.
pub fn made_hours_count_less()
    ensures { MADE_WEIGHT < 100 }
{}

/// The tolerances that are tried, in percent.
pub fn tolerances_are()
    ensures { TOLERANCES.now ≡ 0 ∷ 1 ∷ 2 ∷ 5 ∷ 10 ∷ 20 ∷ 50 ∷ 100 ∷ [] }
{}
