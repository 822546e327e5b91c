//! Ceph's hash of a file's name, `ceph_str_hash_rjenkins`.
//! (B. Jenkins, "Hash functions for hash table lookup", 1996.)
ghost use Rattle.std.specs.Prelude.{◌≡◌, ◌+◌, ◌^◌, ◌<◌, ◌≤◌, slice_index};
ghost use Rattle.ceph_pins.specs.NameHash.{name_hash, put, stirred, word_at};

/// The three words that the hash keeps.
#[derive(Clone, Copy)]
struct Words {
    a: u32,
    b: u32,
    c: u32,
}

/// The words after a third of the mix. The three numbers are the places by which words are shifted.
#[tactic(auto, unfolding(crate::specs::NameHash::stirred))]
fn stir(words: Words, first: u32, second: u32, third: u32) -> Words
    requires first { first < 32 }
    requires second { second < 32 }
    requires third { third < 32 }
    ensures { result ≡ stirred words first second third }
{
    let Words { a, b, c } = words;
    let a = a.wrapping_sub(b).wrapping_sub(c) ^ (c >> first);
    let b = b.wrapping_sub(c).wrapping_sub(a) ^ (a << second);
    let c = c.wrapping_sub(a).wrapping_sub(b) ^ (b >> third);
    Words { a, b, c }
}

/// The words with these numbers added, mixed.
#[tactic(auto, unfolding(crate::specs::NameHash::put))]
fn put(words: Words, a: u32, b: u32, c: u32) -> Words
    ensures { result ≡ put words a b c }
{
    let sums = Words {
        a: words.a.wrapping_add(a),
        b: words.b.wrapping_add(b),
        c: words.c.wrapping_add(c),
    };
    stir(stir(stir(sums, 13, 8, 13), 12, 16, 5), 3, 10, 15)
}

/// The byte at a place of a name, or 0 after its end.
fn byte(name: &[u8], at: usize) -> u8
    ensures { result ≡ slice_index name.now at }
{
    if at < name.len() { name[at] } else { 0 }
}

/// Four bytes of a name as a number, lowest first, with zeros after its end.
#[tactic(auto, unfolding(crate::specs::NameHash::word_at))]
fn word(name: &[u8], at: usize) -> u32
    requires { at + 4 ≤ 2 ^ 64 }
    ensures { result ≡ word_at name.now at }
{
    u32::from_le_bytes([
        byte(name, at),
        byte(name, at + 1),
        byte(name, at + 2),
        byte(name, at + 3),
    ])
}

/// The hash of a name.
#[tactic(auto, unfolding(crate::specs::NameHash::name_hash))]
pub fn name_hash(name: &[u8]) -> u32
    ensures { result ≡ name_hash name.now }
{
    let mut words = Words {
        a: 0x9e37_79b9,
        b: 0x9e37_79b9,
        c: 0,
    };
    let blocks = name.len() / 12;
    for block in 0..blocks {
        let at = 12 * block;
        words = put(
            words,
            word(name, at),
            word(name, at + 4),
            word(name, at + 8),
        );
    }
    let at = 12 * blocks;
    let last = (name.len() as u64 + 256 * u64::from(word(name, at + 8))) % (1 << 32);
    put(words, word(name, at), word(name, at + 4), last as u32).c
}
