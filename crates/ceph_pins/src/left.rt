//! Directories that are to be left where they are: those of a list, and those below and above them.
ghost use Rattle.std.specs.Prelude.{◌≡◌, ◌≢◌, ◌↔◌, ◌++◌, ℕ, IsTrue, List, MatchOption};
ghost use Rattle.ceph_dumps.specs.PathList.{path_bytes};
ghost use Rattle.ceph_pins.specs.Left.{LiesIn, IsLeft, IsLeftBy};

/// What comes after this front of a text, if it begins with that.
fn after<'a>(text: &'a [u8], front: &[u8]) -> Option<&'a [u8]>
    ensures { MatchOption result ((rest : List ℕ) → text.entry.now ≢ front.now ++ rest)
        (λ rest. text.entry.now ≡ front.now ++ rest.now) }
{
    text.strip_prefix(front)
}

/// Whether a path is this one, or one below it.
fn is_in(above: &[u8], path: &[u8]) -> bool
    ensures { IsTrue result ↔ LiesIn above.now path.now }
{
    match after(path, above) {
        Some([]) => true,
        Some([first, ..]) => *first == b'/',
        None => false,
    }
}

/// Whether one of the list leaves a directory.
fn is_left_by(listed: &[u8], path: &[u8]) -> bool
    ensures { IsTrue result ↔ IsLeftBy listed.now path.now }
{
    is_in(listed, path) || is_in(path, listed)
}

/// Whether a directory is to be left.
pub(crate) fn is_left(list: &[Vec<u8>], path: &[u8]) -> bool
    ensures { IsTrue result ↔ IsLeft (path_bytes list.now) path.now }
{
    for at in 0..list.len() {
        if is_left_by(&list[at], path) {
            return true;
        }
    }
    false
}
