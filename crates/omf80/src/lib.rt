//! Records of object files, as Intel's relocatable object module format for the 8080 has them: types, limits and sums.
#![tactic(auto)]

mod fault;
mod kind;
mod record;
mod records;

pub use fault::Fault;
pub use kind::{BODY_LIMIT, HEADING_SIZE, LENGTH_LIMIT, RecordKind};
pub use record::Record;
pub use records::{Records, write_record};
