//! The 8080: a machine that carries out its instructions, with registers and flags changed in place.
#![tactic(auto)]

mod accumulator;
mod codes;
mod execute;
mod flags;
mod lines;
mod machine;
mod machine_memory;
mod pairs;
mod port;
mod register_pair;
mod remaining;
mod singles;
mod stack;
mod table;

pub use machine::{End, Machine, Step};
pub use table::DecodeTable;
