//! A machine that runs stack code.
#![tactic(auto)]

mod access;
mod calling;
mod calls;
mod computing;
mod control;
mod end;
mod execute;
mod going;
mod jumping;
mod loaded;
mod machine;
mod moves;
mod next;
mod opening;
mod parts;
mod port_access;
mod running;
mod slots;
mod values;

pub use end::{RunFault, SourceEnd};
pub use running::run;
