//! Joined PL/M-80 programs as stack code.
#![tactic(auto)]

mod compiler;
mod expressions;
mod jumps;
mod marking;
mod procedures;
mod purpose;
mod site;
mod statements;
mod tables;
mod variables;

pub use compiler::{compile, stack_marks};
pub use marking::{StackMark, StackPart};
