//! Paths that name a directory in one way only: no component of theirs is empty, `.` or `..`.
ghost use Rattle.std.specs.Prelude.{◌≡◌};
ghost use Rattle.ceph_dumps.specs.Paths.{is_clean_path, is_odd_name};

/// Whether a component is empty, `.` or `..`.
fn is_odd_name(name: &[u8]) -> bool
    ensures { result ≡ is_odd_name name.now }
{
    matches!(name, [] | [b'.'] | [b'.', b'.'])
}

/// Whether no component of a path is empty, `.` or `..`. A slash comes before each; the root's path has none.
pub fn is_clean_path(path: &[u8]) -> bool
    ensures { result ≡ is_clean_path path.now }
{
    path.split(|byte| *byte == b'/')
        .skip(1)
        .all(|name| !is_odd_name(name))
}
