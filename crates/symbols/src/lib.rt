//! Names, as PL/M-80 sources and object files have them.
#![tactic(auto)]

mod name;
mod name_set;

pub use name::{LONGEST_NAME, Name};
pub use name_set::NameSet;
