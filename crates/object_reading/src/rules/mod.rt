//! The rules of single records of object files: what a header says, names that are new, fixes that lie in their content
//! and apart, and the order of records.
#![tactic(auto)]

mod extents;
mod marks;
mod names;
mod order;
mod references;

pub use extents::{Extents, extents_of, nothing_said};
pub use marks::MarkedContent;
pub use names::{NameList, NameSet, is_name, take_names};
pub use order::may_come;
pub use references::{entries_fit, target_fits};
