//! Sites of code, and their queries of the tree.
#![tactic(auto)]

mod queries;
mod questions;
mod site;
mod widths;

pub use queries::{Base, Located, Split, reference_after};
pub use questions::{Comparison, Inquiry, NumberQuestion, Question, Relation, relation_of};
pub use site::Site;
pub use widths::power_of_two;
