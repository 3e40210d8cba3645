//! Frames of REENTRANT procedures, and laws of the frames of procedures.
#![tactic(auto)]

mod charging;
mod frame_plan;

pub use charging::charge;
pub use frame_plan::{FramePlan, plan};
