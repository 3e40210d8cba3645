//! The type checker of PL/M-80 modules: from a tree to its typed module, or to its first fault.
#![tactic(auto)]

mod blocks;
mod checker;
mod identifiers;
mod items;
mod linkages;
mod lists;
mod procedures;
mod statement_nodes;
mod statements;
mod walk;

pub use procedures::place_of_kind;
pub use walk::check;
