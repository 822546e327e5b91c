//! Which ranks may have a part.
ghost use Rattle.std.specs.Prelude.{◌≡◌, ℕ, List, None, IfSome, Some};
ghost use Rattle.std.specs.Option.{option_map};
ghost use Rattle.mds_types.specs.RankSet.{has_rank};
ghost use Rattle.mdbal_ceph.specs.Usable.{IsMask, all_ranks, asked_mask, cluster_mask, hex_mask};
ghost use Rattle.mdbal_ceph.specs.Usable.{mask_digits, may_have_part};

use ceph_dumps::{FileSystemRanks, common_ranks, hex_number};
use mds_types::RankSet;

/// The digits of a mask.
fn mask_digits(text: &str) -> &str
    ensures { result.now ≡ mask_digits text.now }
{
    match text.strip_prefix("0x") {
        Some(digits) => digits,
        None => text.strip_prefix("0X").unwrap_or(text),
    }
}

/// The ranks that 1 to 16 hexadecimal digits name.
fn hex_mask(digits: &str) -> Option<RankSet>
    ensures { result ≡ hex_mask digits.now }
{
    Some(RankSet::from_bits(hex_number(digits)?))
}

/// The ranks that a mask names, if it is one.
pub fn mask_named(text: &str) -> Option<RankSet>
    ensures { result ≡ asked_mask text.now }
{
    if text == "all" || text == "-1" {
        Some(RankSet::from_bits(u64::MAX))
    } else {
        hex_mask(mask_digits(text))
    }
}

/// The ranks that the cluster's own mask names, if it is one.
fn cluster_mask(text: &str) -> Option<RankSet>
    ensures { result ≡ cluster_mask text.now }
{
    if text == "" {
        return Some(RankSet::from_bits(u64::MAX));
    }
    mask_named(text)
}

/// The mask that was asked for, or else the cluster's own; all ranks where there is none.
pub fn mask_of(asked: Option<RankSet>, own: Option<&str>) -> Option<RankSet>
    ensures mask { IfSome result (IsMask asked (option_map (λ text. text.now) own.entry)) }
    ensures asked { (mask : ℕ) → asked ≡ Some mask → result ≡ Some mask }
    ensures unset { asked ≡ None → own.entry ≡ None → result ≡ Some all_ranks }
    ensures none { result ≡ None → (asked ≡ None) × ((text : List ℕ)
        × (option_map (λ text. text.now) own.entry ≡ Some text) × (cluster_mask text ≡ None)) }
{
    match (asked, own) {
        (Some(mask), _) => Some(mask),
        (None, None) => Some(RankSet::from_bits(u64::MAX)),
        (None, Some(text)) => cluster_mask(text),
    }
}

/// The ranks of the mask that may have a part: they are to be there (`max_mds`), they are in the file system, and
/// their daemons are active.
pub fn ranks_of(mask: RankSet, cluster: &FileSystemRanks) -> RankSet
    ensures { (rank : ℕ) → has_rank result rank ≡ may_have_part mask cluster.now rank }
{
    let wanted = mask.among(cluster.size);
    common_ranks(wanted, common_ranks(cluster.ranks, cluster.active))
}
