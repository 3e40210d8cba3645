//! The words of a PL/M-80 source text: names, reserved words, numbers, strings and marks.
#![tactic(auto)]

mod characters;
mod fault;
mod items;
pub mod laws;
mod limits;
mod marks;
mod names;
mod numbers;
mod scanner;
mod strings;
mod vocabulary;
mod word;

pub use fault::Fault;
pub use limits::{GREATEST_NUMBER, LONGEST_SOURCE};
pub use scanner::scan;
pub use vocabulary::{Kind, Mark, ReservedWord};
pub use word::Word;
