//! Intel HEX: pieces of memory as lines of text.
#![tactic(auto)]

mod fault;
mod read;
mod sum;
mod write;

pub use fault::{BYTES_IN_LINE, Fault};
pub use read::read_hex;
pub use write::write_hex;
