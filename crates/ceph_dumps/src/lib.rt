//! What the collector wrote of a live CephFS: which file says what, and how it is read.
#![tactic(auto)]

pub mod balancer;
pub mod bare_words;
pub mod cluster;
mod dump;
pub mod dump_error;
pub mod file_system;
pub mod hour_record;
pub mod inode;
pub mod inodes;
mod items;
pub mod key_path;
pub mod laws;
pub mod listing;
pub mod loads;
mod member;
pub mod own_list;
pub mod path_list;
pub mod paths;
pub mod rank_sets;
pub mod subtrees;
mod unread;
pub mod wide_bytes;

pub use balancer::read_balancer;
pub use bare_words::write_over_bare_words;
pub use cluster::{FileSystemRanks, read_cluster};
pub use dump_error::DumpError;
pub use file_system::{FileSystem, is_word_byte, read_complete};
pub use hour_record::{HourRecord, PastHeat, read_hour, write_hour};
pub use inode::{hex_number, inode_of};
pub use inodes::read_inodes;
pub use listing::{EphemeralPin, ListedDir, ListedValue, read_listing};
pub use loads::{FragmentHeat, read_loads};
pub use own_list::{OwnPin, read_own_list, write_name};
pub use path_list::read_path_list;
pub use paths::is_clean_path;
pub use rank_sets::common_ranks;
pub use subtrees::{SubtreeRoot, read_subtrees};
pub use wide_bytes::{narrowed, widened};
