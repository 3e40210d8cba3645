//! Records of object files, written one after another: entries put together as far as they fit, and contents
//! with their fixes.
#![tactic(auto)]

mod body;
mod content;
mod group;
mod header;
mod names;
mod numbers;

pub use content::{CONTENT_LIMIT, write_content};
pub use group::Group;
pub use header::{SegmentEntry, write_end, write_header};
pub use names::{write_external_names, write_publics};
