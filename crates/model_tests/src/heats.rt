//! Heats compared with a plain list, in which each tick halves all of them.

use crate::random::Random;
use crate::same::{Sure, holds_in, same_in};
use heat_decay::Heat;
use mds_types::Dir;
use mds_types::limits::HEAT_LIMIT;
use std::process::Abort;

/// Adds hits to a directory that there is room for.
pub(crate) fn add(heat: &mut Heat, dir: u32, hits: u128) {
    if dir < heat.limit() {
        heat.add(Dir::new(dir), hits);
    }
}

fn clear(heat: &mut Heat, dir: u32) {
    if dir < heat.limit() {
        heat.clear(Dir::new(dir));
    }
}

/// The heat of a directory, if there is room for it.
pub(crate) fn heat_of(heat: &Heat, dir: u32) -> Option<u64> {
    if dir < heat.limit() {
        Some(heat.heat(Dir::new(dir)))
    } else {
        None
    }
}

fn halve(plain: &mut [u64; 4]) {
    for heat in plain.iter_mut() {
        *heat /= 2;
    }
}

/// Adds hits, clears seldom, or halves all. It says whether that was accepted.
fn change_both(random: &mut Random, heat: &mut Heat, plain: &mut [u64; 4]) -> bool {
    let dir = random.below(4);
    match random.below(8) {
        0..4 => {
            let few = u128::from(random.next() >> random.below(64));
            let hits = few * u128::from(random.below(17));
            add(heat, dir as u32, hits);
            let sum = hits.saturating_add(u128::from(plain[dir as usize]));
            plain[dir as usize] = sum.min(HEAT_LIMIT as u128) as u64;
            true
        }
        4 => {
            clear(heat, dir as u32);
            plain[dir as usize] = 0;
            true
        }
        _ => {
            halve(plain);
            heat.tick().is_ok()
        }
    }
}

/// Both say the same.
fn are_alike(rt: &impl Abort, heat: &Heat, plain: &[u64; 4], round: u32) {
    for (dir, wanted) in plain.iter().enumerate() {
        same_in(rt, &heat_of(heat, dir as u32), &Some(*wanted), &round);
    }
}

#[test]
fn halves_like_a_plain_list(rt: HostRuntime) {
    let mut random = Random::new(17);
    let mut heat = Heat::resumed(rt.alloc(), 4, 7).sure(&rt);
    let mut plain = [0; 4];
    for round in 0..2000 {
        holds_in(&rt, change_both(&mut random, &mut heat, &mut plain), &round);
        are_alike(&rt, &heat, &plain, round);
    }
}
