//! The expansion of a list of words by its LITERALLY definitions.
#![tactic(auto)]

mod definitions;
mod expansion;
mod fault;
pub mod laws;
mod limits;
mod names;

pub use expansion::expand;
pub use fault::Fault;
pub use limits::{DEEPEST, MOST_WORDS};
