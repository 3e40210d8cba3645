//! The typing of PL/M-80 expressions, and of what AT, INITIAL and DATA hold.
#![tactic(auto)]

mod calls;
mod checks;
mod constants;
mod expression_nodes;
mod expressions;
mod filling;
mod functions;
mod known;
mod members;
mod references;
mod scalars;

pub use checks::{refuse, require};
pub use expression_nodes::{as_type, target_of};
pub use filling::{Contents, Extents};
pub use known::{Constants, Destination, Known};
pub use references::require_writable;
