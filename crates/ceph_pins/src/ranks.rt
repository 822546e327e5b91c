//! The rank of each child of a directory that is distributed.
//! Ceph splits such a directory into 2^bits fragments, at least two for each rank, and gives each to a rank by a
//! consistent hash of the directory's inode and the fragment. A child is in the fragment of the hash of its name.
ghost use Rattle.std.specs.Prelude.{◌≡◌, ◌+◌, ◌*◌, ◌/◌, ◌^◌, ◌<◌, ◌≤◌, ℕ, bit_xor};
ghost use Rattle.ceph_pins.specs.Ranks.{fragment_bits, fragment_rank, fragment_value, jump_rank, mixed};
ghost use Rattle.ceph_pins.specs.Ranks.{rank_of_child};

use crate::name_hash::name_hash;

/// A word with its upper bits folded down by this many places.
fn fold(word: u64, places: u32) -> u64
    requires { places < 64 }
    ensures { result ≡ bit_xor word (word / 2 ^ places) }
{
    word ^ (word >> places)
}

/// Thomas Wang's mix of 64 bits, which Ceph calls `rjhash64`.
#[tactic(auto, unfolding(crate::specs::Ranks::mixed))]
fn mix(key: u64) -> u64
    ensures { result ≡ mixed key }
{
    let first = (!key).wrapping_add(key << 21);
    let second = fold(first, 24).wrapping_mul(265);
    let third = fold(second, 14).wrapping_mul(21);
    fold(third, 28).wrapping_mul((1 << 31) + 1)
}

/// The jump consistent hash of a key over this many ranks. (J. Lamping and E. Veach, "A fast, minimal memory,
/// consistent hash algorithm", 2014.) Ceph divides in floating point: with 64 ranks one key in 2^31 gets another rank.
fn jump(hash: u64, size: u8) -> u8
    ensures value { result ≡ jump_rank hash size }
    ensures small { 0 < size → result < size }
{
    let mut key = hash;
    let mut rank = 0u64;
    for step in 0..size {
        key = key.wrapping_mul(2_862_933_555_777_941_757).wrapping_add(1);
        let next = (rank + 1) * (1 << 31) / ((key >> 33) + 1);
        if next >= u64::from(size) {
            return rank as u8;
        }
        rank = next;
    }
    rank as u8
}

/// How many of its bits tell a fragment from the others, with this many ranks.
fn bits(size: u8) -> u32
    ensures value { result ≡ fragment_bits size }
    ensures few { result ≤ 24 }
{
    let mut bits = 0;
    for more in 0..24u32 {
        if 1u32 << more < 2 * u32::from(size) {
            bits += 1;
        }
    }
    bits
}

/// The rank of the fragment of this value.
fn rank_of_fragment(inode: u64, value: u32, size: u8) -> u8
    ensures value { result ≡ fragment_rank inode value size }
    ensures small { 0 < size → result < size }
{
    let whole = mix(inode).wrapping_add(mix(u64::from(value)));
    jump(mix(whole), size)
}

/// The rank of the child of this name in the directory of this inode, where `size` ranks share its children.
#[tactic(auto, unfolding(crate::specs::Ranks::rank_of_child))]
pub fn rank_of_child(inode: u64, name: &[u8], size: u8) -> u8
    ensures value { result ≡ rank_of_child inode name.now size }
    ensures small { 0 < size → result < size }
{
    let span = 1u32 << (24 - bits(size));
    let low = name_hash(name) % (1 << 24);
    rank_of_fragment(inode, low / span * span, size)
}
