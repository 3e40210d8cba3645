//! The ports of a machine: the trait that a processor reads and writes through, its events, and a script of
//! inputs.
#![tactic(auto)]

mod event;
mod script;

pub use event::{Event, PortFault, Ports};
pub use script::Script;
