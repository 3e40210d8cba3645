//! From sources to a running machine: build and execute.
#![tactic(auto)]

mod building;
mod built;
mod compiled;
mod execution;
mod fault;
mod image;
mod marking;

pub use building::build;
pub use built::Built;
pub use compiled::compile;
pub use execution::{execute, execute_with, print_run};
pub use fault::ToolFault;
pub use generation::emit_expression;
pub use marking::{SourceMark, SourceMarks, marks_of};
pub use sources::{MOST_SOURCES, Plan, ReadFault, Source};
