//! The command that prints how much of the stack sources need, over output streams that are handed in.
#![tactic(auto)]

mod lines;
mod refusals;

pub use lines::print_need;
