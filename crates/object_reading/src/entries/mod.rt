//! Entries of the records of an object file, each read from the front of the bytes that hold it.
#![tactic(auto)]

mod content;
mod fixes;
mod fronts;

pub use content::Content;
pub use fixes::{fix_entries_of, fix_in_front};
pub use fronts::{
    content_of, definition_in_front, listed_name_in_front, name_in_front, segment_of, word,
};
