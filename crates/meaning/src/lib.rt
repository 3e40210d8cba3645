//! What a program means: definitions, the laws of runs, why a run goes outside the language, and the operators on values.
#![tactic(auto)]

mod operators;
mod reason;
mod shifts;

pub use operators::{binary, convert, holds, unary, unary_function, values, wrapped};
pub use reason::Reason;
pub use shifts::shift;
