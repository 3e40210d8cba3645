//! What names stand for at a place of a PL/M-80 module, and what its uses of names are bound to.
#![tactic(auto)]

mod binder;
mod bound;
mod entity;
mod fault;
mod scopes;
mod table;
mod uses;

pub use bound::{Bound, bind};
pub use entity::{Binding, BuiltIn, Entity};
pub use fault::Fault;
pub use scopes::Scopes;
