//! The interpreter of PL/M-80 programs: it carries out what they mean.
#![tactic(auto)]

mod contents;
mod main_module;
mod program;

pub use program::interpret;
pub use stack_compiler::{StackMark, StackPart, stack_marks};
pub use stack_machine::{RunFault, SourceEnd};
