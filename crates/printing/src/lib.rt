//! Lines of events and of the end of a run, printed while a machine runs.
#![tactic(auto)]

mod lines;
mod runs;

pub use lines::{report, write_line};
pub use runs::print_machine;
