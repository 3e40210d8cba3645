//! The commands that carry out orders on object files, over files and output streams that are handed in.
#![tactic(auto)]

mod jumps;
mod linking;
mod listing;
mod merges;
mod places;
mod placing;
mod refusals;
mod writing_files;

pub use jumps::JUMP_SIZE;
pub use link::link_records;
pub use linking::link_files;
pub use listing::{put_lone, put_start};
pub use mem80::MEMORY_SIZE;
pub use merges::place_merge;
pub use object_modules::{ObjectModule, Segment};
pub use objmod::{read, write};
pub use placing::{print_hex, print_list, print_places};
pub use writing_files::write_file;
