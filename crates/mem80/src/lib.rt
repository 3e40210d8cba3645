//! A memory of 65,536 bytes, ranges of it, and where the parts of a program lie in it.
#![tactic(auto)]

mod memory;
mod plan;
mod range;

pub use memory::{MEMORY_SIZE, Memory, Memory80Fault};
pub use plan::Plan;
pub use range::{Bytes, Piece, Range, overlap};
