//! What the checker passes is best, by trial of all divisions and placings; and what first plans move.
//!
//! Each call that takes memory is made again where a growth was refused, so the tests hold with any one
//! growth refused.

use crate::division::least_greatest_heat;
use crate::given::{over, random_rows, two_hot};
use crate::placing::fewest_moved;
use crate::random::Random;
use crate::same::{Sure, holds_in, same_in};
use mds_types::{Plan, Problem};
use plan_checker::check;
use planner::solve;
use std::alloc::Global;
use std::process::Abort;
use std::thread::Threads;

/// The plan that is found in the end.
fn solved<R: Abort + Threads + Sync>(rt: &R, alloc: Global, problem: &Problem) -> Plan {
    match solve(rt, alloc, problem) {
        Ok(plan) => plan,
        Err(_) => solve(rt, alloc, problem).sure(rt),
    }
}

/// The copy that is made in the end.
fn copied(rt: &impl Abort, alloc: Global, plan: &Plan) -> Plan {
    match plan.copied(alloc) {
        Ok(copy) => copy,
        Err(_) => plan.copied(alloc).sure(rt),
    }
}

/// What the checker says in the end.
fn is_accepted(rt: &impl Abort, alloc: Global, problem: &Problem, plan: &Plan) -> bool {
    match check(alloc, problem, plan) {
        Ok(yes) => yes,
        Err(_) => check(alloc, problem, plan).sure(rt),
    }
}

/// No division into two parts and no placing is better than a plan, by trial.
fn is_best(rt: &impl Abort, problem: &Problem, plan: &Plan) {
    let rows = problem.rows();
    let parts = plan.rank.len() as u32;
    assert!(rt; rows.len() <= 8);
    assert!(rt; plan.part.len() == rows.len());
    assert!(rt; parts <= 2);
    let moved = fewest_moved(rows, &plan.part, parts, problem.ranks());
    let best = (least_greatest_heat(rows, 2), moved);
    same_in(rt, &(plan.greatest, Some(plan.moved)), &best, plan);
}

/// Changes a number of a plan by at most 1, or the part of a row.
fn change(plan: &mut Plan, random: &mut Random) {
    let up = random.below(3);
    let place = random.below(2) as usize;
    match random.below(5) {
        0 => plan.greatest = plan.greatest.wrapping_add(up).wrapping_sub(1),
        1 => plan.moved = plan.moved.wrapping_add(up).wrapping_sub(1),
        2 => {
            if let Some(price) = plan.dual.part_price.get_mut(place) {
                *price = price.wrapping_add(up as i64).wrapping_sub(1);
            }
        }
        3 => {
            if let Some(price) = plan.dual.rank_price.get_mut(place) {
                *price = price.wrapping_add(up as i64).wrapping_sub(1);
            }
        }
        _ => {
            if let Some(part) = plan.part.get_mut(random.below(5) as usize) {
                *part = random.below(3) as u32;
            }
        }
    }
}

#[test]
fn what_passes_is_best(rt: HostRuntime) {
    let alloc = rt.alloc();
    let mut random = Random::new(19);
    let mut passed = 0u32;
    for _ in 0..120 {
        let problem = over(&rt, random_rows(&rt, alloc, &mut random, 5, 4), 0x21);
        let found = solved(&rt, alloc, &problem);
        let mut plan = copied(&rt, alloc, &found);
        change(&mut plan, &mut random);
        if is_accepted(&rt, alloc, &problem, &plan) {
            passed = passed.saturating_add(1);
            is_best(&rt, &problem, &plan);
        }
    }
    holds_in(&rt, passed > 20 && passed < 100, &passed);
}

// (half of the rows, ranks, moved inodes), where the search's cut moves the half: another division is taken if it moves
// more than a 32nd fewer
const FIRST_PLANS: [(u32, u64, u64); 4] = [(2, 0x3, 1), (31, 0x3, 30), (32, 0x3, 32), (2, 0x6, 4)];

#[test]
fn first_plans_move_clearly_fewer(rt: HostRuntime) {
    for (half, ranks, moved) in FIRST_PLANS {
        let rows = two_hot(&rt, rt.alloc(), half);
        let plan = solved(&rt, rt.alloc(), &over(&rt, rows, ranks));
        same_in(&rt, &plan.moved, &moved, &half);
    }
}
