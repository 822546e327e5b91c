//! Guesses of where paths lead, for a caller that looks up the same paths again and again.
//!
//! A guess is an answer only where the names up to the root are those of the path. So a guess changes how
//! long a look-up takes, and never its answer: `find` answers as `Tree::find` does. No guess is asked for a path that
//! has one name, as the tree itself finds that in one look-up.
ghost use Rattle.std.specs.Prelude.{◌≡◌, ◌<◌, ◌==◌, ◌^◌, All, IfOk, IfSome, IsTrue, Ok, drop, false, true};
ghost use Rattle.dirtree.specs.Path.{find};
ghost use Rattle.dirtree.specs.Tree.{is_there};

use crate::tree::Tree;
use crate::tree_error::TreeError;
use mds_types::Dir;
use std::alloc::Global;

// How many guesses are kept, and how many of them are at the places of one path.
const PLACES: usize = 1 << 17;

const PLACES_OF_A_PATH: usize = 4;

// The directory to which some path led, by its number, and a few bits of that path's mix. The root needs no guess, so 0
// marks a free place.
#[derive(Clone, Copy, Drop)]
struct Guess {
    mark: u16,
    dir: u16,
}

/// Where paths led when `tell` was called.
#[derive(Drop)]
pub struct PathGuesses {
    guesses: Vec<Guess>,
}

impl PathGuesses {
    /// No guess. Memory is asked for once; where it is refused, no guess will be kept.
    pub fn new(alloc: Global) -> PathGuesses {
        let free = Guess { mark: 0, dir: 0 };
        match vec![in alloc; free; PLACES] {
            Ok(guesses) => PathGuesses { guesses },
            Err(_) => PathGuesses {
                guesses: Vec::new(alloc),
            },
        }
    }

    /// Keeps the guess that a path leads to this directory, in the place of another guess where there is no room. That
    /// of a path of one name would never be asked for, and only take a place.
    pub fn tell(&mut self, path: &str, dir: Dir) {
        let Ok(dir) = u16::try_from(dir.number()) else {
            return;
        };
        let mixed = mix(path.as_bytes());
        let at = self.free_place(first_place(mixed));
        if let Some(guess) = self.guesses.get_mut(at) {
            *guess = Guess {
                mark: mark_of(mixed),
                dir,
            };
        }
    }

    // The first free place of a path, or its first place if none is free.
    fn free_place(&self, first: usize) -> usize
        requires { first < 2 ^ 17 }
    {
        for at in first..first + PLACES_OF_A_PATH {
            if let Some(guess) = self.guesses.get(at)
                && guess.dir == 0
            {
                return at;
            }
        }
        first
    }

    /// The directory that a path names in this tree, as the tree's `find` answers.
    pub fn find(&self, tree: &Tree, path: &str) -> Result<Dir, TreeError>
        ensures dir { result ≡ find tree.now.entries path.now }
        ensures below { IfOk result (λ dir. dir < tree.now.limit) }
        ensures there { IfOk result (λ dir. is_there tree.now.entries dir ≡ true) }
    {
        if has_one_name(path) {
            return tree.find_below_root(path);
        }
        match self.guessed(tree, path) {
            Some(dir) => Ok(dir),
            None => tree.find(path),
        }
    }

    // The first guess for a path that leads there.
    fn guessed(&self, tree: &Tree, path: &str) -> Option<Dir>
        ensures dir { IfSome result (λ dir. find tree.now.entries path.now ≡ Ok dir) }
        ensures below { IfSome result (λ dir. dir < tree.now.limit) }
        ensures there { IfSome result (λ dir. is_there tree.now.entries dir ≡ true) }
    {
        let mixed = mix(path.as_bytes());
        let mark = mark_of(mixed);
        let first = first_place(mixed);
        for at in first..first + PLACES_OF_A_PATH {
            let Some(guess) = self.guesses.get(at) else {
                return None;
            };
            let dir = Dir::new(u32::from(guess.dir));
            if guess.mark == mark && tree.leads_to(path, dir) {
                return Some(dir);
            }
        }
        None
    }
}

// Whether no slash comes after a path's first byte.
fn has_one_name(path: &str) -> bool
    ensures { IsTrue result → All (λ byte. (byte == 47) ≡ false) (drop 1 path.now) }
{
    match path.as_bytes() {
        [_, names @ ..] => names.iter().all(|byte| *byte != b'/'),
        [] => true,
    }
}

// The place of the first guess for paths of this mix.
fn first_place(mixed: u64) -> usize
    ensures { result < 2 ^ 17 }
{
    (mixed >> 49) as usize * PLACES_OF_A_PATH
}

fn mark_of(mixed: u64) -> u16 {
    ((mixed >> 32) % 0x1_0000) as u16
}

// A number that differs for most texts that differ.
fn mix(text: &[u8]) -> u64 {
    let mut mixed = 0u64;
    let mut rest = text;
    while let Some((word, more)) = rest.split_first_chunk::<8>() {
        mixed = mix_word(mixed, u64::from_le_bytes(*word));
        rest = more;
    }
    mix_bytes(mixed, rest)
}

// The bytes at a text's end that fill no word, as one word.
fn mix_bytes(before: u64, bytes: &[u8]) -> u64 {
    let mut word = 0u64;
    for byte in bytes {
        word = (word << 8) | u64::from(*byte);
    }
    mix_word(before, word)
}

// The factor is an odd number with about as many ones as zeros.
fn mix_word(mixed: u64, word: u64) -> u64 {
    (mixed.rotate_left(5) ^ word).wrapping_mul(0x9e37_79b9_7f4a_7c15)
}
