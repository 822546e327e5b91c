//! Hits on directories, counted by many threads without a lock.
//!
//! Each thread has a share, in which it counts. From time to time it deposits what it has counted
//! in the book of all shares. For each directory and kind of hits, what the book has counted and what is pending in
//! the shares are together the hits that the shares counted, whichever threads had the shares,
//! handed them on or joined them. No thread has to be asked for that: each share carries a token
//! whose amounts add up in the book's, so a share that is missing is known to be missing.
#![tactic(auto)]

mod auditing;
mod book;
mod closing;
mod counts;
mod dir_hits;
mod hit_error;
mod missing;
mod new_book;
mod opening;
mod places;
mod share;
mod tally;

pub use book::Book;
pub use dir_hits::DirHits;
pub use hit_error::HitError;
pub use missing::Missing;
pub use new_book::NewBook;
pub use share::{HIT_LIMIT, Share};
