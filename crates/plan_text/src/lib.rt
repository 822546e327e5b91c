//! Certificates as text: a problem, a plan for it and the plan's proofs, for who wants to check plans
//! elsewhere or later.
//!
//! A certificate is lines of fields, with one blank between fields. Numbers are decimal, without leading
//! zeros; the mask is hexadecimal. A list has its length in front. Certificates are one after another in a
//! file.
//!
//! ```text
//! certificate 2            1 where it has no names
//! mask 0x3                 the ranks that may have a part
//! rows 2
//! row 0 4 1 0              the row of the parent, heat, inodes, the rank that has it now
//! row 0 5 20 0
//! name /                   the name of each row's directory
//! name home
//! parts 2
//! part 0                   the part of each row
//! part 1
//! ranks 2
//! rank 1                   the rank of each part
//! rank 0
//! greatest 5
//! moved 1
//! cut heavy 1              or `cut zero`; or `cut table`, `cells N` and lines `cell CUTS REST PRICE 0` (1: cut)
//! part_prices 2
//! price 1
//! price 1
//! rank_prices 2
//! price -1
//! price 0
//! end
//! ```
//!
//! (What comes after the fields here is not part of it.) `certificate_text` gives just this text. `read_first` gives
//! the certificate that a text begins with, as far as there is memory, and what follows it; it refuses a text that
//! begins with none.
#![tactic(auto)]

pub mod certificate;
mod fields;
mod fits;
pub mod laws;
mod line;
mod parser;
pub mod read_error;
pub mod reader;
pub mod row_names;
pub mod writer;

pub use certificate::Certificate;
pub use read_error::{Expected, ReadError};
pub use reader::read_first;
pub use row_names::RowNames;
pub use writer::certificate_text;
