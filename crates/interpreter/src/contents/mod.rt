//! The INITIAL values, the DATA and the constant lists of a PL/M-80 program, put into a memory.
#![tactic(auto)]

mod bytes;
mod modules;
mod objects;
mod values;

pub use modules::fill;
