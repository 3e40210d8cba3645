//! Routines for what the 8080 can't do in one instruction.
#![tactic(auto)]

mod emission;
mod moves;
mod parts;
mod product;
mod quotient;
mod routine;

pub use emission::emit_routine;
pub use routine::Routine;
