//! The limits that types and contracts cite. Each is defined here only.

/// How many metadata ranks a cluster can have.
pub const RANK_LIMIT: u8 = 64;

/// How many directory numbers a tree can give, and how many rows a problem can have.
pub const DIR_LIMIT: u32 = 65536;

/// The greatest heat of one directory, in accesses. A deposit past it is cut off.
pub const HEAT_LIMIT: u64 = 1 << 40;
