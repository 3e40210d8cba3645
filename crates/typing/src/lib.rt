//! What the rules of typing of PL/M-80 name: its faults, and the types, nodes and objects of a module; the typing by
//! functions, which gives the typed module of a tree or its first fault; and its laws.
#![tactic(auto)]

mod fault;

pub use fault::{Cause, Fault};
