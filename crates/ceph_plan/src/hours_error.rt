//! Why there is no plan for hours.

use thiserror::Error;

/// Why there is no plan for hours.
#[derive(Clone, Copy, Debug, PartialEq, Eq, Error)]
pub enum HoursError {
    /// There is no hour, or none may be chosen.
    #[error("there is no hour")]
    NoHour,
    /// There are more than `HOUR_LIMIT` hours, or more may be chosen.
    #[error("there are more than 32 hours")]
    TooMany,
    /// There isn't one weight for each hour, or one is not from 1 to 100.
    #[error("an hour counts from 1 to 100 percent")]
    BadWeight,
    /// An hour isn't of these directories, or its heat is more than a plan can count.
    #[error("the heat of an hour can't be counted")]
    NotCounted,
}
