//! Whether Ceph's balancer is on: the file `balancer` of the collector.
//!
//! Its first line is the interval of the balancer in seconds (`mds_bal_interval`). From Ceph 18 on a second line has
//! the flag `balance_automate` of the file system.
ghost use Rattle.std.specs.Prelude.{◌≡◌, ◌<◌, ◌≤◌, ℕ, Bool, length, slice_index, true, false, IfErr, IfOk};
ghost use Rattle.std.specs.Prelude.{MatchOption, Option};
ghost use Rattle.ceph_dumps.specs.Balancer.{IsBalancer, flag_text, has_time, is_digit};

use crate::dump_error::DumpError;

/// Whether a byte is a digit.
fn is_digit(byte: u8) -> bool
    ensures { result ≡ is_digit byte }
{
    matches!(byte, b'0'..=b'9')
}

/// How many digits the text begins with.
fn digit_count(text: &[u8]) -> usize
    ensures inside { result ≤ length text.now }
    ensures digits { (i : ℕ) → i < result → is_digit (slice_index text.now i) ≡ true }
    ensures end { result < length text.now → is_digit (slice_index text.now result) ≡ false }
{
    for (at, byte) in text.iter().enumerate() {
        if !is_digit(*byte) {
            return at;
        }
    }
    text.len()
}

/// Whether a number has a digit other than 0.
fn has_time(interval: &[u8]) -> bool
    ensures { result ≡ has_time interval.now }
{
    interval.iter().any(|digit| *digit != b'0')
}

/// The flag, if there is one, where this is what comes after the interval.
fn flag_of(rest: &[u8]) -> Option<Option<bool>>
    ensures { MatchOption result ((flag : Option Bool) → rest.now ≡ flag_text flag → ⊥) (λ flag. rest.now
        ≡ flag_text flag) }
{
    if rest == b"\n".as_slice() {
        Some(None)
    } else if rest == b"\nbalance_automate true\n".as_slice() {
        Some(Some(true))
    } else if rest == b"\nbalance_automate false\n".as_slice() {
        Some(Some(false))
    } else {
        None
    }
}

/// Whether the balancer is on.
pub fn read_balancer(bytes: &[u8]) -> Result<bool, DumpError>
    ensures on { IfOk result (IsBalancer bytes.now) }
    ensures refused { IfErr result (λ error. (error ≡ DumpError.Balancer)
        × ((is_on : Bool) → IsBalancer bytes.now is_on → ⊥)) }
{
    let (interval, rest) = bytes.split_at(digit_count(bytes));
    match flag_of(rest) {
        Some(flag) if !interval.is_empty() => Ok(flag.unwrap_or(true) && has_time(interval)),
        _ => Err(DumpError::Balancer),
    }
}
