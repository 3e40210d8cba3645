//! Sources of a program read, joined and placed.
#![tactic(auto)]

mod fault;
mod lines;
mod placed;
mod read;
mod sources;

pub use fault::ProgramFault;
pub use lines::{SourceLines, source_lines};
pub use mem80::Plan;
pub use placed::{Placed, place_program};
pub use read::{ReadFault, SourceModule, read_source};
pub use sources::{MOST_SOURCES, Source};
pub use trees::{Name, Place};
pub use words::LONGEST_SOURCE;
