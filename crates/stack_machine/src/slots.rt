//! The slots of frames.

ghost use Rattle.std.specs.Prelude.{◌≡◌, IfOk, map};
ghost use Rattle.join.specs.Views.{modules_in};
ghost use Rattle.declared.specs.internal.Frames.{module_frames};

use declared::FrameSlots;
use join::Joined;
use std::alloc::{AllocError, Global};

/// The slots of each module of a program.
#[tactic(auto, using(crate::proofs::SlotLists::one_more))]
pub fn slots_of(alloc: Global, joined: &Joined) -> Result<Vec<FrameSlots>, AllocError>
    ensures { IfOk result (λ slots. slots.items ≡ map module_frames (modules_in joined.now)) }
{
    let mut slots = Vec::new(alloc);
    for typed in joined.modules() {
        slots.push(FrameSlots::new(alloc, typed)?)?;
    }
    Ok(slots)
}
