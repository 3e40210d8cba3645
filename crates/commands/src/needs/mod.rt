//! How much of the stack the program of sources needs.
#![tactic(auto)]

mod fault;
mod line;
mod need;

pub use fault::NeedFault;
pub use need::{need_of_sources, need_text};
