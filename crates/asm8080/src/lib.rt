//! An assembler: 8080 code with labels, made into bytes and fixes; and definitions and laws of its runs.
#![tactic(auto)]

mod assembling;
mod bytes;
mod code;
mod fault;
mod item;
mod stored;

pub use bytes::CodeBytes;
pub use code::{Code, Label};
pub use fault::Fault;
pub use item::{Item, Reference, WordForm};
