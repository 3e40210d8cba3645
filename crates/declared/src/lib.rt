//! The bytes that a program declares, as an interpreter accesses them: bytes and scalars of memory, and the frames of calls.
#![tactic(auto)]

mod bytes;
mod frames;
mod scalars;
mod slots;

pub use bytes::{read_byte, write_byte};
pub use frames::Frames;
pub use scalars::{read_scalar, write_scalar};
pub use slots::FrameSlots;
