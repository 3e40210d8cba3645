//! What the names and the numbers of a joined PL/M-80 program at a placement mean.
#![tactic(auto)]

mod program;
mod publics;
mod site;

pub use program::Program;
pub use publics::Found;
pub use site::{Site, Storage};
