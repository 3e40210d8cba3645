//! How much of the stack a PL/M-80 program needs.
#![tactic(auto)]

mod call_graph;
mod calls;
mod stack_need;

pub use stack_need::need;
