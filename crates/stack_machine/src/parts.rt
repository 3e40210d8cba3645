//! Parts of the frame.

ghost use Rattle.std.specs.Prelude.{◌≡◌};
ghost use Rattle.stack_code.specs.internal.Machine.{top, without_index, without_indices};
ghost use Rattle.stack_machine.specs.internal.FrameParts.{IsDisplacement, IsPart};

use crate::values::Values;
use stack_code::{FramePart, FrameSubscript};

// Takes a subscript: the displacement by it, or `None` if it is not below its dimension.
#[inline(always)]
fn take_subscript(values: &mut Values, subscript: FrameSubscript) -> Option<usize>
    ensures after { values.new ≡ without_index subscript values.old }
    ensures bytes { IsDisplacement subscript (top values.old) result }
{
    match subscript {
        FrameSubscript::Absent => Some(0),
        FrameSubscript::Present { stride, count } => {
            let index = values.pop();
            if (index as u32) < count {
                Some(stride as usize * index as usize)
            } else {
                None
            }
        }
    }
}

/// Takes the subscripts of a part: its offset from the start of its object, or `None` if a subscript is
/// not below its dimension.
#[inline(always)]
pub fn take_part(values: &mut Values, part: FramePart) -> Option<usize>
    ensures after { values.new ≡ without_indices part values.old }
    ensures bytes { IsPart part values.old result }
{
    let second = take_subscript(values, part.second);
    let first = take_subscript(values, part.first);
    let first = first?;
    let second = second?;
    Some(first + part.offset as usize + second)
}
