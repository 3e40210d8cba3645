//! Object files written.
#![tactic(auto)]

mod cuts;
mod records;
mod run;
mod text;

pub use text::write;
