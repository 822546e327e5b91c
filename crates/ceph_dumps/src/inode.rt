//! Inode numbers, as dumps name them: in hexadecimal digits after `0x`.
ghost use Rattle.std.specs.Prelude.{◌≡◌, None, Some, if◌then◌else◌};
ghost use Rattle.std.specs.Str.Parse.{digits_value};
ghost use Rattle.mds_types.specs.Mask.{is_hex};
ghost use Rattle.ceph_dumps.specs.Inode.{before_dot, inode_of};

/// The number that 1 to 16 hexadecimal digits write.
pub fn hex_number(digits: &str) -> Option<u64>
    ensures { result ≡ (if is_hex digits.now then Some (digits_value 16 digits.now) else None) }
{
    if digits.len() > 16 || digits.starts_with('+') {
        return None;
    }
    u64::from_str_radix(digits, 16).ok()
}

/// What comes before the first dot, or all.
fn before_dot(name: &str) -> &str
    ensures { result.now ≡ before_dot name.now }
{
    match name.split_once('.') {
        Some((front, _)) => front,
        None => name,
    }
}

/// The inode number of the directory that a fragment is of. Where there are several, a name has bits after a dot.
pub fn inode_of(fragment: &str) -> Option<u64>
    ensures { result ≡ inode_of fragment.now }
{
    hex_number(before_dot(fragment).strip_prefix("0x")?)
}
