//! Object modules placed in memory by a plan.
#![tactic(auto)]

mod absolute;
mod fault;
mod placed;
mod plan;
mod putting;
mod refusals;
mod walk;

pub use absolute::{Absolute, Symbol};
pub use fault::LocateFault;
pub use mem80::Plan;
pub use placed::locate;
