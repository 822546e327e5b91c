//! The pins of a plan for a live CephFS: those that directories have, and the files that change them: a shell script
//! that sets the new pins, one that restores those of before, and the list of the pins of this program.
#![tactic(auto)]

pub mod back;
mod children;
pub mod foreign;
mod left;
mod name_hash;
pub mod own_list;
pub mod pins;
pub mod pins_script;
mod ranks;
pub mod script_error;
pub mod spread;
pub mod volumes;

pub use back::changes_back;
pub use foreign::own_pins;
pub use own_list::make_own_list;
pub use pins::{pins_after, standing_pins};
pub use pins_script::{MountedFileSystem, make_pins_script};
pub use ranks::rank_of_child;
pub use script_error::ScriptError;
pub use spread::{Advice, advised};
pub use volumes::unit_marks;
