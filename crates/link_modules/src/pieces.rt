//! Where the pieces of modules begin in their merge.

ghost use Rattle.std.specs.Prelude.{◌≡◌, ◌≤◌, All, false, true, map, sum_by, IfOk};
ghost use Rattle.failure.specs.Failure.{IfFault};
ghost use Rattle.object_modules.specs.Displacements.{linked_modules, start_after};
ghost use Rattle.object_modules.specs.Merge.{SegmentTooLong, some_segment_is_too_long};
ghost use Rattle.object_modules.specs.Module.{IsObjectModule};
ghost use Rattle.link_laws.specs.Faults.{refusal_of};
ghost use Rattle.link_laws.specs.internal.Building.{starts_in};
ghost use Rattle.link_modules.specs.internal.Views.{start_view};

use crate::inputs::Input;
use crate::linkable::Linkable;
use crate::placed::{ModuleStart, Placed};
use failure::Failure;
use link_laws::LinkFault;
use object_modules::{Alignment, SEGMENT_LIMIT, Segment};
use std::alloc::{AllocError, Global};

/// Modules with the places of their pieces, and the length of the merged stack.
#[derive(Drop)]
pub(crate) struct Pieces<'s, L: Linkable> {
    pub(crate) placed: Vec<Placed<'s, L>>,
    pub(crate) stack_length: u16,
}

// Where a piece begins that comes after an end of at most 65535.
fn start_at(end: u32, alignment: Alignment) -> u32
    requires { end ≤ 65535 }
    ensures { result ≡ start_after end alignment }
{
    match alignment {
        Alignment::Byte => end,
        Alignment::Page => (end + 255) / 256 * 256,
    }
}

/// Where the pieces of modules begin, module by module; a segment of the merge that is too long is a fault.
pub(crate) fn pieces_of<'s, L: Linkable>(
    alloc: Global,
    inputs: &'s [Input<L>],
) -> Result<Pieces<'s, L>, Failure<LinkFault>>
    ensures placed { IfOk result (λ pieces. pieces.placed.items ≡ linked_modules inputs.now) }
    ensures stack { IfOk result (λ pieces. pieces.stack_length
        ≡ sum_by (λ object. object.stack_length) inputs.now) }
    ensures valid { IfOk result (λ _. All IsObjectModule inputs.now) }
    ensures fits { IfOk result (λ _.
        some_segment_is_too_long inputs.now (linked_modules inputs.now) ≡ false) }
    ensures fault { IfFault result (λ fault. refusal_of fault ≡ SegmentTooLong) }
    ensures too_long { IfFault result (λ _.
        some_segment_is_too_long inputs.now (linked_modules inputs.now) ≡ true) }
{
    let mut placed = Vec::new(alloc);
    let mut code: u32 = 0;
    let mut data_end: u32 = 0;
    let mut stack: u32 = 0;
    for input in inputs {
        let code_start = start_at(code, input.alignment(Segment::Code));
        let data_start = start_at(data_end, input.alignment(Segment::Data));
        code = code_start + input.length(Segment::Code) as u32;
        data_end = data_start + input.length(Segment::Data) as u32;
        let stack_more = input.length(Segment::Stack);
        stack += stack_more as u32;
        if code > SEGMENT_LIMIT {
            return Err(Failure::Fault(LinkFault::SegmentTooLong));
        }
        if data_end > SEGMENT_LIMIT {
            return Err(Failure::Fault(LinkFault::SegmentTooLong));
        }
        if stack > SEGMENT_LIMIT {
            return Err(Failure::Fault(LinkFault::SegmentTooLong));
        }
        let start = ModuleStart {
            code: code_start as u16,
            data_start: data_start as u16,
        };
        placed.push(Placed::new(input, start))?;
    }
    Ok(Pieces {
        placed,
        stack_length: stack as u16,
    })
}

/// Where the pieces of each module begin.
pub(crate) fn starts_of<L: Linkable>(
    alloc: Global,
    placed: &[Placed<'_, L>],
) -> Result<Vec<ModuleStart>, AllocError>
    ensures { IfOk result (λ starts. map start_view starts.items ≡ starts_in placed.now) }
{
    let mut starts = Vec::new(alloc);
    let mut rest = placed;
    while let [one, more @ ..] = rest {
        starts.push(one.starts())?;
        rest = more;
    }
    Ok(starts)
}
