//! The code generator: the code of statements, procedures and modules, from tree code to an object module.
#![tactic(auto, using(std::proofs::lemmas::List::append_assoc))]

mod bodies;
mod carrying;
mod fault;
mod generator;
mod linkage;
mod marking;
mod meeting;
mod module;
mod names;
mod object;
mod procedures;
mod segments;
mod statements;
mod targets;

pub use fault::Fault;
pub use marking::{CodePart, Mark};
pub use meeting::Here;
pub use module::{CodeMarks, Generated, generate};
