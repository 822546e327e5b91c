//! Words that are quoted for sh.

use crate::same::{Sure, same};
use ceph_plan::quoted;

/// Bytes and their words.
const WORDS: &[(&[u8], &[u8])] = &[
    (b"", b"''"),
    (b"/a b", b"'/a b'"),
    (b"it's", b"'it'\\''s'"),
    (b"'", b"''\\'''"),
    (b"$(rm -r *)\n\\\xff-n", b"'$(rm -r *)\n\\\xff-n'"),
];

#[test]
fn quotes(rt: HostRuntime) {
    for (bytes, word) in WORDS {
        if !bytes.contains(&0) {
            let found = quoted(rt.alloc(), bytes).sure(&rt);
            same(&rt, &found.as_slice(), word);
        }
    }
}
