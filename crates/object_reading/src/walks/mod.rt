//! Walks over object files: the parts of a valid file, handed out one after another.
#![tactic(auto)]

mod cursor;
mod cursor_fixes;
mod front;
mod walks;

pub use crate::entries::Content;
pub use front::walk;
pub use walks::Walk;
