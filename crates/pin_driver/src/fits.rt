//! What the types of a plan's values say of its numbers and bytes.
ghost use Rattle.std.specs.Prelude.{◌<◌, ◌^◌, All, IfSome, length};
ghost use Rattle.pin_driver.specs.StoredText.{AreBytes, FitsChange, FitsEarlier, FitsText};

use crate::bytes::Bytes;
use crate::plan::{EarlierPin, PinPlan, PlannedChange};
use crate::question::Mark;
use mds_types::Rank;

fn slice_fits(bytes: &[u8])
    ensures { AreBytes bytes.now }
{
    let _bytes = bytes;
}

fn bytes_fit(bytes: &Bytes)
    ensures { AreBytes bytes.now }
{
    slice_fits(bytes.as_slice());
}

fn number_fits(number: u64)
    ensures { number < 2 ^ 64 }
{
    let _value = number;
}

fn optional_fits(number: Option<u64>)
    ensures { IfSome number (λ n. n < 2 ^ 64) }
{
    if let Some(number) = number {
        number_fits(number);
    }
}

fn pin_fits(pin: &Option<Rank>)
    ensures { IfSome pin.now (λ n. n < 64) }
{
    if let Some(rank) = pin {
        let _number = rank.number();
    }
}

fn change_fits(change: &PlannedChange)
    ensures { FitsChange change.now }
{
    bytes_fit(&change.path);
    optional_fits(change.inode);
    pin_fits(&change.before);
    pin_fits(&change.after);
    number_fits(change.inodes);
}

fn earlier_fits(pin: &EarlierPin)
    ensures { FitsEarlier pin.now }
{
    bytes_fit(&pin.path);
    optional_fits(pin.inode);
    let _number = pin.rank.number();
}

fn changes_fit(changes: &[PlannedChange])
    ensures all { All FitsChange changes.now }
    ensures count { length changes.now < 2 ^ 64 }
{
    number_fits(changes.len() as u64);
    for change in changes {
        change_fits(change);
    }
}

fn pins_fit(pins: &[EarlierPin])
    ensures all { All FitsEarlier pins.now }
    ensures count { length pins.now < 2 ^ 64 }
{
    number_fits(pins.len() as u64);
    for pin in pins {
        earlier_fits(pin);
    }
}

/// The numbers and bytes of a plan and of a mark are within their types. It does nothing.
pub(crate) fn text_fits(plan: &PinPlan, mark: Mark)
    ensures { FitsText plan.now mark }
{
    bytes_fit(plan.identity());
    changes_fit(plan.changes());
    pins_fit(plan.earlier());
    number_fits(mark.begun as u64);
    number_fits(mark.certain as u64);
}
