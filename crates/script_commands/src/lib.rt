//! The commands of a script, and how a line spells one.
#![tactic(auto)]

pub mod command;
pub mod faults;
mod fields;
pub mod hint;
pub mod line;
pub mod new_export;
mod number;
pub mod rank_count;
pub mod step;

pub use command::Command;
pub use faults::{Form, LineFault, explain, form_of_line};
pub use hint::Hint;
pub use line::{Asked, read_line};
pub use new_export::NewExport;
pub use rank_count::RankCount;
pub use step::NumberedStep;
