//! The steps that code is planned in, the writer of their code, facts about the registers, and the queries that a
//! planner makes of the tree.
#![tactic(auto)]

mod externals;
mod facts;
mod instructions;
mod sites;
mod step;
mod writer;

pub use externals::Externals;
pub use facts::{Facts, before, is_at};
pub use instructions::{
    clear_a, copy, high, load, low, plan_extension, repeat, set, with_memory, with_register,
};
pub use sites::{
    Base, Comparison, Inquiry, Located, NumberQuestion, Question, Relation, Site, power_of_two,
    reference_after, relation_of,
};
pub use step::{LabelNumber, Part, Step, Steps, Task};
pub use writer::{Finished, Writer};
