//! Why modules and object files can't be merged, and laws of linking. Only the numbers of faults run.
#![tactic(auto)]

mod fault;

pub use fault::LinkFault;
