//! Which of several plans is taken: of those that are cool enough, have few enough pins, and keep within what is
//! wanted, one that moves the fewest inodes, and of these the least heat.
ghost use Rattle.std.specs.Prelude.{◌≡◌, ◌<◌, ◌≤◌, ◌⊎◌, ◌↔◌, ℕ, IsTrue, length};
ghost use Rattle.ceph_plan.specs.Candidates.{HasFewPins, IsAllowed, IsCheaperAt, IsPicked, greatest_at};

use crate::candidate::Candidate;
use crate::choice::{PartCount, Wanted};

/// Whether a plan has no more pins, or parts, than may be.
fn has_few(candidates: &[Candidate], parts: PartCount, at: usize) -> bool
    requires { at < length candidates.now }
    ensures { IsTrue result ↔ HasFewPins parts candidates.now at }
{
    match parts {
        PartCount::Auto(most) => candidates[at].pins <= usize::from(most),
        PartCount::AtMost(most) => candidates[at].plan.count <= u32::from(most),
    }
}

/// Whether a plan may be taken: it has few enough pins, and keeps within what is wanted.
fn is_allowed(candidates: &[Candidate], wanted: Wanted, at: usize) -> bool
    requires { at < length candidates.now }
    ensures { IsTrue result ↔ IsAllowed wanted candidates.now at }
{
    has_few(candidates, wanted.parts, at)
        && candidates[at].plan.moved <= wanted.most_inodes
        && candidates[at].keeps_left
}

/// Whether one of the plans moves fewer inodes than another, or as many with less heat.
fn is_cheaper(candidates: &[Candidate], at: usize, than: usize) -> bool
    requires at { at < length candidates.now }
    requires than { than < length candidates.now }
    ensures { IsTrue result ↔ IsCheaperAt candidates.now at than }
{
    let (one, other) = (candidates[at].plan.moved, candidates[than].plan.moved);
    one < other || (one == other && candidates[at].heat < candidates[than].heat)
}

/// Whether a plan is within the limit, and may be taken.
fn is_fit(candidates: &[Candidate], wanted: Wanted, limit: u128, at: usize) -> bool
    requires { at < length candidates.now }
    ensures { IsTrue result ↔ ((greatest_at candidates.now at ≤ limit) × IsAllowed wanted candidates.now at) }
{
    u128::from(candidates[at].plan.packing.greatest) <= limit && is_allowed(candidates, wanted, at)
}

/// Whether a plan comes before the best one so far, or there is none.
fn is_before(candidates: &[Candidate], at: usize, best: usize) -> bool
    requires at { at < length candidates.now }
    requires best { best ≤ length candidates.now }
    ensures { IsTrue result ↔ ((best ≡ length candidates.now) ⊎ IsCheaperAt candidates.now at best) }
{
    best == candidates.len() || is_cheaper(candidates, at, best)
}

/// The place of the first of the cheapest plans that are within the limit and may be taken; how many plans there are,
/// if none is.
fn cheapest(candidates: &[Candidate], wanted: Wanted, limit: u128) -> usize
    ensures within { result < length candidates.now → greatest_at candidates.now result ≤ limit }
    ensures few { result < length candidates.now → IsAllowed wanted candidates.now result }
    ensures cheapest { (v : ℕ) → v < length candidates.now → greatest_at candidates.now v ≤ limit
        → IsAllowed wanted candidates.now v
        → (result < length candidates.now) × ¬ IsCheaperAt candidates.now v result }
    ensures first { (v : ℕ) → v < result → v < length candidates.now → greatest_at candidates.now v ≤ limit
        → IsAllowed wanted candidates.now v → IsCheaperAt candidates.now result v }
{
    let mut best = candidates.len();
    for at in 0..candidates.len() {
        if is_fit(candidates, wanted, limit, at) && is_before(candidates, at, best) {
            best = at;
        }
    }
    best
}

/// The place of a coolest plan of those that may be taken; how many plans there are, if none may be.
fn coolest_allowed(candidates: &[Candidate], wanted: Wanted) -> usize
    ensures few { result < length candidates.now → IsAllowed wanted candidates.now result }
    ensures coolest { (v : ℕ) → v < length candidates.now → IsAllowed wanted candidates.now v
        → (result < length candidates.now) × (greatest_at candidates.now result ≤ greatest_at candidates.now v) }
{
    let mut best = candidates.len();
    for at in 0..candidates.len() {
        let is_first = best == candidates.len();
        if is_allowed(candidates, wanted, at)
            && (is_first
                || candidates[at].plan.packing.greatest < candidates[best].plan.packing.greatest)
        {
            best = at;
        }
    }
    best
}

/// The place of the plan that is taken. Where none may be it is the last.
pub(crate) fn picked(candidates: &[Candidate], wanted: Wanted, limit: u128) -> usize
    requires { 0 < length candidates.now }
    ensures inside { result < length candidates.now }
    ensures picked { IsPicked limit wanted candidates.now result }
{
    let first = cheapest(candidates, wanted, limit);
    if first < candidates.len() {
        return first;
    }
    let cool = coolest_allowed(candidates, wanted);
    if cool < candidates.len() {
        return cool;
    }
    candidates.len() - 1
}
