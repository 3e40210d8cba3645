//! Object modules, as files of Intel's relocatable object module format for the 8080 spell them.
#![tactic(auto)]

mod fault;
mod object;
mod public;
mod segment;
mod stored;

pub use fault::Fault;
pub use object::{ModuleParts, ObjectModule};
pub use public::{OwnedPublic, PublicName};
pub use segment::{Alignment, Fix, FixKind, SEGMENT_LIMIT, Segment, Target};
pub use stored::{Run, SegmentBytes, push_run};
pub use symbols::Name;
