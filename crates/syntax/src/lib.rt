//! The parser of PL/M-80: from words to the tree of a module.
#![tactic(auto)]

mod declarations;
mod expressions;
mod fault;
mod lists;
mod measured;
mod parser;
mod reader;
mod statements;

pub use fault::Fault;
pub use parser::parse;
