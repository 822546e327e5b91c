//! Where the boxes of a picture are.
use crate::staying::Stay;
use crate::staying_text::stay_in;
use ceph_snapshot::Directory;
use std::alloc::{AllocError, Global};

/// The width of the root's box, in hundredths of a pixel.
pub(crate) const WIDTH: u64 = 140_000;

/// The width below which a directory has no box of its own, in hundredths of a pixel.
pub(crate) const LEAST_WIDTH: u64 = 100;

/// Where a directory's box is.
#[derive(Clone, Copy)]
pub(crate) struct Place {
    /// The heat at and below the directory, in thousandths.
    pub(crate) heat: u64,
    /// Its inodes and those below.
    pub(crate) inodes: u64,
    /// How far from the left, and how wide, in hundredths of a pixel.
    pub(crate) left: u64,
    pub(crate) width: u64,
    /// How much of the width its children have taken.
    pub(crate) taken: u64,
    /// How many boxes are above it.
    pub(crate) depth: u64,
    /// How many directories there are at and below it.
    pub(crate) count: u64,
    /// What its children come to that have no box of their own.
    pub(crate) rest: Rest,
    /// Whether it is left where it is, and why.
    pub(crate) stay: Option<Stay>,
}

/// What the children of a directory come to that have no box of their own, with all below them.
#[derive(Clone, Copy)]
pub(crate) struct Rest {
    pub(crate) count: u64,
    pub(crate) heat: u64,
    pub(crate) inodes: u64,
}

/// No such children.
const NO_REST: Rest = Rest {
    count: 0,
    heat: 0,
    inodes: 0,
};

/// Adds what is at and below a directory to its parent.
fn add_below(places: &mut [Place], at: usize, parent: usize) {
    let Some(place) = places.get(at).copied() else {
        return;
    };
    if let Some(above) = places.get_mut(parent) {
        above.heat = above.heat.saturating_add(place.heat);
        above.inodes = above.inodes.saturating_add(place.inodes);
        above.count = above.count.saturating_add(place.count);
    }
}

/// Where nothing is yet, with what each directory has itself.
fn unplaced(
    alloc: Global,
    directories: &[Directory],
    stays: &[Option<Stay>],
) -> Result<Vec<Place>, AllocError> {
    let mut places = Vec::with_capacity(alloc, directories.len())?;
    for (at, directory) in directories.iter().enumerate() {
        places.push(Place {
            heat: directory.heat,
            inodes: directory.inodes,
            left: 0,
            width: 0,
            taken: 0,
            depth: 0,
            count: 1,
            rest: NO_REST,
            stay: stay_in(stays, at),
        })?;
    }
    Ok(places)
}

/// Adds to each directory the heat and the inodes below it.
fn add_all_below(places: &mut [Place], directories: &[Directory]) {
    for at in (1..directories.len()).rev() {
        add_below(places, at, directories[at].parent as usize);
    }
}

/// The part of the width that a heat has of all.
pub(crate) fn width_of(heat: u64, all: u64) -> u64 {
    if all == 0 {
        return 0;
    }
    if all < 1 << 40 {
        heat.saturating_mul(WIDTH) / all
    } else {
        heat / (all / WIDTH)
    }
}

/// Adds a directory that is too cold for a box to what its siblings without one come to.
fn add_rest(above: &mut Place, place: Place) {
    above.rest = Rest {
        count: above.rest.count.saturating_add(place.count),
        heat: above.rest.heat.saturating_add(place.heat),
        inodes: above.rest.inodes.saturating_add(place.inodes),
    };
}

/// Puts a directory's box after those of its siblings, if it is wide enough for one.
fn put(places: &mut [Place], at: usize, parent: usize, all: u64) {
    let (Some(above), Some(mut place)) = (places.get(parent).copied(), places.get(at).copied())
    else {
        return;
    };
    place.width = width_of(place.heat, all);
    place.left = above.left.saturating_add(above.taken);
    place.depth = above.depth.saturating_add(1);
    if let Some(there) = places.get_mut(at) {
        *there = place;
    }
    if let Some(above) = places.get_mut(parent) {
        if place.width < LEAST_WIDTH {
            add_rest(above, place);
        } else {
            above.taken = above.taken.saturating_add(place.width);
        }
    }
}

/// The heat of all directories, which is at and below the root.
pub(crate) fn all_heat(places: &[Place]) -> u64 {
    match places.first() {
        Some(root) => root.heat,
        None => 0,
    }
}

/// Puts the box of each directory below that of its parent.
fn put_all(places: &mut [Place], directories: &[Directory]) {
    let all = all_heat(places);
    for at in 1..directories.len() {
        put(places, at, directories[at].parent as usize, all);
    }
}

/// Where the box of each directory is.
pub(crate) fn places_of(
    alloc: Global,
    directories: &[Directory],
    stays: &[Option<Stay>],
) -> Result<Vec<Place>, AllocError> {
    let mut places = unplaced(alloc, directories, stays)?;
    add_all_below(places.as_mut_slice(), directories);
    if let Some(root) = places.as_mut_slice().first_mut() {
        root.width = WIDTH;
    }
    put_all(places.as_mut_slice(), directories);
    Ok(places)
}
