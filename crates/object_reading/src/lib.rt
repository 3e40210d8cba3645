//! Object files judged and walked: entries, the rules of single records, the judgement of a file, and the walk over it.
#![tactic(auto)]

mod entries;
mod judgement;
mod rules;
mod walks;

pub use walks::{Content, Walk, walk};
