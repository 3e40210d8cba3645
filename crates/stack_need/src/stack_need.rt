//! How much of the stack a program needs.

ghost use Rattle.std.specs.Prelude.{map, IfOk};
ghost use Rattle.typed_trees.specs.Views.{module_view};
ghost use Rattle.join.specs.Views.{modules_of};
ghost use Rattle.resolving.specs.internal.Views.{program_view};
ghost use Rattle.stack_need.specs.StackNeed.{TellsNeed};

use crate::call_graph::call_graph;
use call_graphs::need_in;
use join::Joined;
use mem80::Range;
use placing::Placement;
use resolving::Program;
use std::alloc::{AllocError, Global};

// No bytes.
const NOWHERE: Range = Range { start: 0, len: 0 };

// How much of the stack a program at a placement needs.
fn need_at(alloc: Global, program: &Program<'_>) -> Result<Option<u32>, AllocError>
    ensures { IfOk result (TellsNeed (program_view program.now).modules) }
{
    let graph = call_graph(alloc, program)?;
    let need = need_in(alloc, graph.as_slice())?;
    Ok(need)
}

/// How much of the stack a program needs (4,294,967,295 if it is more): with this room no run of it goes outside for
/// the stack, wherever it lies. None if its procedures may call each other in a circle, whether the main module comes to
/// that or not. Fails only if memory runs out.
pub fn need(alloc: Global, joined: &Joined) -> Result<Option<u32>, AllocError>
    ensures { IfOk result (TellsNeed (map module_view (modules_of joined.now))) }
{
    // The meaning of a call does not depend on where the program lies.
    let placement = Placement::new(Vec::new(alloc), NOWHERE, NOWHERE);
    let program = Program::new(alloc, joined, &placement)?;
    let need = need_at(alloc, &program)?;
    Ok(need)
}
