//! Tree code of a module, its object module, and the code of one expression, with contracts that say what the code does.
#![tactic(auto)]

mod expressions;
mod lowering;
mod modules;

pub use expressions::emit_expression;
pub use lowering::lower;
pub use modules::generate;
