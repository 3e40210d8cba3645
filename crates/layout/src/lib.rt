//! Where the objects and constant lists of PL/M-80 modules lie: in their segments, and in memory once modules are joined.
#![tactic(auto)]

mod fault;
mod offsets;
mod sizes;
mod slot;
mod storage;

pub use fault::Fault;
pub use slot::{Layout, SEGMENT_LIMIT, Segment, Slot};
pub use storage::layout;
