//! Judges object files whole: what a valid one says of itself, or its first fault.
#![tactic(auto)]

mod header;
mod judging;
mod state;

pub use header::Header;
pub use judging::judge;
