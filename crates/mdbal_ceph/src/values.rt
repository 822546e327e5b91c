//! The values of options as they are read of their texts.
ghost use Rattle.std.specs.Prelude.{◌≡◌, ◌*◌, IfErr, IfOk, IfSome};
ghost use Rattle.std.specs.Option.{option_map};
ghost use Rattle.mdbal_ceph.specs.Options.{heat_named, inodes_named, mask_named, option_number};
ghost use Rattle.mdbal_ceph.specs.RightValues.{IsAbsolute, IsCount, IsHourCount, IsMadeCount, IsMaskText};
ghost use Rattle.mdbal_ceph.specs.RightValues.{IsPercent, IsWholeNumber};

use crate::input::mask_named;
use crate::wrong_value::{ValueOption, WrongValue};
use mds_types::RankSet;

/// The number of parts or pins that a text names.
pub(crate) fn count_of(text: &str, option: ValueOption) -> Result<u16, WrongValue>
    ensures number { IfOk result (λ count. count ≡ option_number text.now) }
    ensures right { IfOk result (λ _. IsCount text.now) }
    ensures wrong { IfErr result (λ wrong. (wrong ≡ WrongValue.Of option) × (IsCount text.now → ⊥)) }
{
    match text.parse::<u16>() {
        Ok(count) if 0 < count => Ok(count),
        _ => Err(WrongValue::Of(option)),
    }
}

/// The percentage that a text names.
pub(crate) fn percent_of(text: &str, option: ValueOption) -> Result<u8, WrongValue>
    ensures number { IfOk result (λ percent. percent ≡ option_number text.now) }
    ensures right { IfOk result (λ _. IsPercent text.now) }
    ensures wrong { IfErr result (λ wrong. (wrong ≡ WrongValue.Of option) × (IsPercent text.now → ⊥)) }
{
    match text.parse::<u8>() {
        Ok(percent) => Ok(percent),
        Err(_) => Err(WrongValue::Of(option)),
    }
}

/// The heat that a text names, in thousandths.
pub(crate) fn heat_of(text: &str, option: ValueOption) -> Result<u64, WrongValue>
    ensures heat { IfOk result (λ heat. heat ≡ option_number text.now * 1000) }
    ensures right { IfOk result (λ _. IsWholeNumber text.now) }
    ensures wrong { IfErr result (λ wrong. (wrong ≡ WrongValue.Of option) × (IsWholeNumber text.now → ⊥)) }
{
    match text.parse::<u32>() {
        Ok(heat) => Ok(u64::from(heat) * 1000),
        Err(_) => Err(WrongValue::Of(option)),
    }
}

/// The heat that a text names, in thousandths, if there is one.
pub(crate) fn heat_if_any(
    text: Option<&str>,
    option: ValueOption,
) -> Result<Option<u64>, WrongValue>
    ensures heat { IfOk result (λ heat. heat ≡ heat_named (option_map (λ text. text.now) text.entry)) }
    ensures right { IfOk result (λ _. IfSome (option_map (λ text. text.now) text.entry) IsWholeNumber) }
    ensures wrong { IfErr result (λ wrong. (wrong ≡ WrongValue.Of option)
        × (IfSome (option_map (λ text. text.now) text.entry) IsWholeNumber → ⊥)) }
{
    match text {
        Some(text) => Ok(Some(heat_of(text, option)?)),
        None => Ok(None),
    }
}

/// The number of inodes that a text names, if there is one.
pub(crate) fn inodes_if_any(text: Option<&str>) -> Result<Option<u64>, WrongValue>
    ensures inodes { IfOk result (λ inodes. inodes ≡ inodes_named (option_map (λ text. text.now) text.entry)) }
    ensures right { IfOk result (λ _. IfSome (option_map (λ text. text.now) text.entry) IsWholeNumber) }
    ensures wrong { IfErr result (λ wrong. (wrong ≡ WrongValue.Of ValueOption.MostInodes)
        × (IfSome (option_map (λ text. text.now) text.entry) IsWholeNumber → ⊥)) }
{
    let Some(text) = text else {
        return Ok(None);
    };
    match text.parse::<u32>() {
        Ok(inodes) => Ok(Some(u64::from(inodes))),
        Err(_) => Err(WrongValue::Of(ValueOption::MostInodes)),
    }
}

/// The ranks that a mask names, where one is given.
pub(crate) fn mask_of(text: Option<&str>) -> Result<Option<RankSet>, WrongValue>
    ensures mask { IfOk result (λ mask. mask ≡ mask_named (option_map (λ text. text.now) text.entry)) }
    ensures right { IfOk result (λ _. IfSome (option_map (λ text. text.now) text.entry) IsMaskText) }
    ensures wrong { IfErr result (λ wrong. (wrong ≡ WrongValue.Of ValueOption.Mask)
        × (IfSome (option_map (λ text. text.now) text.entry) IsMaskText → ⊥)) }
{
    let Some(text) = text else {
        return Ok(None);
    };
    match mask_named(text) {
        Some(mask) => Ok(Some(mask)),
        None => Err(WrongValue::Of(ValueOption::Mask)),
    }
}

/// Where the file system is mounted: an absolute path.
pub(crate) fn mount_of(text: &str) -> Result<&str, WrongValue>
    ensures mount { IfOk result (λ mount. mount.now ≡ text.now) }
    ensures right { IfOk result (λ _. IsAbsolute text.now) }
    ensures wrong { IfErr result (λ wrong. (wrong ≡ WrongValue.Of ValueOption.Mount) × (IsAbsolute text.now → ⊥)) }
{
    match text.as_bytes() {
        [b'/', ..] => Ok(text),
        _ => Err(WrongValue::Of(ValueOption::Mount)),
    }
}

/// The most hours that a plan is made for.
pub(crate) const MOST_HOURS: u8 = 32;

/// How many hours are chosen.
pub(crate) fn hours_of(text: &str) -> Result<u8, WrongValue>
    ensures number { IfOk result (λ hours. hours ≡ option_number text.now) }
    ensures right { IfOk result (λ _. IsHourCount text.now) }
    ensures wrong { IfErr result (λ wrong. (wrong ≡ WrongValue.Of ValueOption.Hours) × (IsHourCount text.now → ⊥)) }
{
    match text.parse::<u8>() {
        Ok(hours) if 0 < hours && hours <= MOST_HOURS => Ok(hours),
        _ => Err(WrongValue::Of(ValueOption::Hours)),
    }
}

/// How many hours are made.
pub(crate) fn made_of(text: &str) -> Result<u8, WrongValue>
    ensures number { IfOk result (λ made. made ≡ option_number text.now) }
    ensures right { IfOk result (λ _. IsMadeCount text.now) }
    ensures wrong { IfErr result (λ wrong. (wrong ≡ WrongValue.Of ValueOption.Made) × (IsMadeCount text.now → ⊥)) }
{
    match text.parse::<u8>() {
        Ok(made) if made < MOST_HOURS => Ok(made),
        _ => Err(WrongValue::Of(ValueOption::Made)),
    }
}
