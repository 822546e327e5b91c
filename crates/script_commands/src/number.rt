//! Numbers in a script: digits only, leading zeros allowed, within a stated range.
ghost use Rattle.std.specs.Prelude.{◌≡◌, ◌≤◌, IfSome};
ghost use Rattle.script_commands.specs.Commands.{number, pin_value};

/// The number that a field spells, if it is one from `low` to `high`.
pub fn number(field: &[u8], low: u32, high: u32) -> Option<u32>
    ensures value { result ≡ number low high field.now }
    ensures bound { IfSome result (λ n. n ≤ high) }
    ensures least { IfSome result (λ n. low ≤ n) }
{
    let mut value = 0u64;
    for byte in field {
        if !byte.is_ascii_digit() {
            return None;
        }
        value = 10 * value + (*byte - b'0') as u64;
        if value > high as u64 {
            return None;
        }
    }
    if field.is_empty() || value < low as u64 {
        return None;
    }
    Some(value as u32)
}

/// The value of an export pin: -1, or a number up to 2147483647.
pub fn pin_value(field: &[u8]) -> Option<i32>
    ensures { result ≡ pin_value field.now }
{
    if field == b"-1".as_slice() {
        return Some(-1);
    }
    match number(field, 0, 2_147_483_647) {
        Some(n) => Some(n as i32),
        None => None,
    }
}
