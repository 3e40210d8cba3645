//! Object modules read from files of Intel's relocatable object module format for the 8080, and written as such.
#![tactic(auto)]

mod parts;
mod reading;
mod segments;

pub use object_modules::{
    Alignment, Fault, Fix, FixKind, ModuleParts, Name, ObjectModule, OwnedPublic, PublicName, Run,
    SEGMENT_LIMIT, Segment, SegmentBytes, Target,
};
pub use object_reading::{Content, Walk, walk};
pub use object_writing::write;
pub use reading::{ReadFault, read, read_from};
