//! Where joined PL/M-80 programs lie in memory.
#![tactic(auto)]

mod addresses;
mod at_objects;
mod claims;
mod fault;
mod lawfulness;
mod misplaced;
mod placement;
mod placer;
mod ranges;
mod reaches;
mod table;

pub use fault::Fault;
pub use lawfulness::lawful;
pub use mem80::Plan;
pub use placement::{ModulePlacement, Placement};
pub use placer::place;
pub use table::{ByteKind, ByteKinds};
