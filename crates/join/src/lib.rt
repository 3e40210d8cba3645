//! PL/M-80 modules joined into a program.
#![tactic(auto)]

mod agreement;
mod fault;
mod joined;
mod publics;
mod shared;

pub use fault::Fault;
pub use joined::{Joined, join};
