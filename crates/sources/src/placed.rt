//! Programs that lie at their places.

ghost use Rattle.std.specs.Prelude.{◌≡◌, All, length, map, IfOk};
ghost use Rattle.failure.specs.Failure.{IfFault};
ghost use Rattle.typed_trees.specs.Views.{module_view};
ghost use Rattle.layout.specs.Storage.{storage_with};
ghost use Rattle.layout.specs.Views.{layout_view};
ghost use Rattle.placing.specs.Segments.{HaveStorage};
ghost use Rattle.sources.specs.Programs.{HasProgramCause, IsPlacedBy};

use crate::fault::ProgramFault;
use failure::Failure;
use join::{Joined, join};
use layout::Layout;
use mem80::Plan;
use placing::{Placement, place};
use std::alloc::Global;
use typed_trees::Typed;

/// A joined program, and its placement.
#[derive(Drop)]
pub struct Placed {
    pub program: Joined,
    pub placement: Placement,
}

/// Joins modules, and places the program as planned. The storages of the modules, and the lengths of their code segments in
/// bytes, are given in the same order.
pub fn place_program(
    alloc: Global,
    modules: Vec<Typed>,
    storages: &[Layout],
    code_lengths: &[u32],
    plan: &Plan,
) -> Result<Placed, Failure<ProgramFault>>
    requires storages { map layout_view storages.now
        ≡ map (λ typed. storage_with (module_view typed)) modules.items }
    requires lengths { length code_lengths.now ≡ length modules.items }
    requires storage { HaveStorage (map module_view modules.items) code_lengths.now }
    ensures placed { IfOk result
        (IsPlacedBy (map module_view modules.items) code_lengths.now plan.now) }
    ensures refused { IfFault result
        (λ fault. HasProgramCause fault (map module_view modules.items) code_lengths.now plan.now) }
{
    let program = match join(alloc, modules) {
        Ok(program) => program,
        Err(Failure::Fault(fault)) => return Err(Failure::Fault(ProgramFault::Join(fault))),
        Err(Failure::Memory) => return Err(Failure::Memory),
    };
    match place(alloc, &program, storages, code_lengths, plan) {
        Ok(placement) => Ok(Placed { program, placement }),
        Err(Failure::Fault(fault)) => Err(Failure::Fault(ProgramFault::Placement(fault))),
        Err(Failure::Memory) => Err(Failure::Memory),
    }
}
