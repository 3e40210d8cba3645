//! Frames of procedures.

ghost use Rattle.std.specs.Prelude.{◌≡◌, ◌∷◌, OnOk, map};
ghost use Rattle.join.specs.Views.{modules_in};
ghost use Rattle.declared.specs.internal.Frames.{module_frames};
ghost use Rattle.meaning.specs.Meaning.{procedure_at};
ghost use Rattle.stack_machine.specs.internal.Opened.{IsThere, frame_opened};

use declared::{FrameSlots, Frames};
use join::Joined;
use std::alloc::AllocError;

/// Opens the frame of a procedure.
#[tactic(auto, using(crate::proofs::ModuleSlots::frame_zeroed))]
pub fn open_frame<'a>(
    frames: &mut Frames<'a>,
    joined: &Joined,
    slots: &'a [FrameSlots],
    number_of_module: usize,
    procedure: usize,
) -> Result<(), AllocError>
    requires slots { slots.now ≡ map module_frames (modules_in joined.now) }
    requires found { IsThere (procedure_at (modules_in joined.now)
        (record { number_of_module = number_of_module; number = procedure })) }
    ensures { OnOk result (frames.new
        ≡ frame_opened (modules_in joined.now) (record { number_of_module = number_of_module; number = procedure })
        ∷ frames.old) }
{
    let _program = joined;
    let slots = &slots[number_of_module];
    frames.open(slots, procedure)
}
