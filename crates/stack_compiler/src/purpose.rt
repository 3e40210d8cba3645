//! What is done with a part of an object, as an instruction.

ghost use Rattle.std.specs.Prelude.{◌≡◌, ◌++◌, [], ◌∷◌, OnOk};
ghost use Rattle.typed_trees.specs.Views.{subscript_view};
ghost use Rattle.stack_code.specs.internal.Code.{frame_subscript, instruction_after, instruction_at, instruction_of_frame, part_of, whole_in_frame};
ghost use Rattle.stack_compiler.specs.internal.Purposes.{purpose_view};

use stack_code::{FramePart, FrameSubscript, Instruction};
use std::alloc::AllocError;
use trees::ScalarType;
use typed_trees::{TypedReference, TypedSubscript};

/// What is done with a part of an object: its value is asked for, a value is written to it, or its address is asked for.
#[derive(Clone, Copy)]
pub(crate) enum Purpose {
    Reading(ScalarType),
    Writing(ScalarType),
    Locating,
}

/// Adds one instruction.
pub(crate) fn emit(code: &mut Vec<Instruction>, instruction: Instruction) -> Result<(), AllocError>
    ensures { OnOk result (code.new.items ≡ code.old.items ++ instruction ∷ []) }
{
    code.push(instruction)?;
    Ok(())
}

/// Adds several instructions.
pub(crate) fn emit_all(
    code: &mut Vec<Instruction>,
    instructions: &[Instruction],
) -> Result<(), AllocError>
    ensures { OnOk result (code.new.items ≡ code.old.items ++ instructions.now) }
{
    code.extend_from_slice(instructions)?;
    Ok(())
}

/// The instruction that does this with the scalar at an address.
pub(crate) fn instruction_at(purpose: Purpose, address: u16) -> Instruction
    ensures { result ≡ instruction_at (purpose_view purpose) address }
{
    match purpose {
        Purpose::Reading(scalar) => Instruction::ReadAt { scalar, address },
        Purpose::Writing(scalar) => Instruction::WriteAt { scalar, address },
        Purpose::Locating => Instruction::Push(address),
    }
}

/// The instruction that does this with the scalar at an offset from the address on the stack.
pub(crate) fn instruction_after(purpose: Purpose, offset: u16) -> Instruction
    ensures { result ≡ instruction_after (purpose_view purpose) offset }
{
    match purpose {
        Purpose::Reading(scalar) => Instruction::Read { scalar, offset },
        Purpose::Writing(scalar) => Instruction::Write { scalar, offset },
        Purpose::Locating => Instruction::Advance(offset),
    }
}

/// The instruction that does this with a part of the frame.
pub(crate) fn instruction_of_frame(purpose: Purpose, part: FramePart) -> Instruction
    ensures { result ≡ instruction_of_frame (purpose_view purpose) part }
{
    match purpose {
        Purpose::Reading(scalar) => Instruction::ReadFrame { scalar, part },
        Purpose::Writing(scalar) => Instruction::WriteFrame { scalar, part },
        Purpose::Locating => Instruction::LocateFrame(part),
    }
}

/// All of an object in the frame.
pub(crate) fn whole_in_frame(object: u32) -> FramePart
    ensures { result ≡ whole_in_frame object }
{
    FramePart {
        object,
        offset: 0,
        first: FrameSubscript::Absent,
        second: FrameSubscript::Absent,
    }
}

// A subscript of a part of an object in the frame.
fn frame_subscript(subscript: &TypedSubscript) -> FrameSubscript
    ensures { result ≡ frame_subscript (subscript_view subscript.now) }
{
    match subscript {
        TypedSubscript::Absent => FrameSubscript::Absent,
        TypedSubscript::Present { stride, count, .. } => FrameSubscript::Present {
            stride: *stride,
            count: *count,
        },
    }
}

/// A part of an object in the frame.
pub(crate) fn part_of(reference: &TypedReference) -> FramePart
    ensures { result ≡ part_of reference.now.object reference.now.offset
        (subscript_view reference.now.subscript) (subscript_view reference.now.member_subscript) }
{
    FramePart {
        object: reference.object,
        offset: reference.offset,
        first: frame_subscript(&reference.subscript),
        second: frame_subscript(&reference.member_subscript),
    }
}
