//! The bytes of a program at their places.

ghost use Rattle.std.specs.Prelude.{IfOk};
ghost use Rattle.failure.specs.Failure.{IfFault};
ghost use Rattle.placing.specs.Views.{plan_view};
ghost use Rattle.generation.specs.internal.Names.{HaveImage};
ghost use Rattle.tool.specs.Made.{IsImageOfObjects};
ghost use Rattle.tool.specs.internal.Merged.{GivesImageOfObjects};

use crate::fault::ToolFault;
use failure::Failure;
use link_modules::link;
use locate::{Absolute, locate};
use mem80::Plan;
use object_modules::ObjectModule;
use std::alloc::Global;

/// The image of a program: that of the merge of its object modules, which have one at the plan. Put into a memory it gives
/// it the image of that merge.
#[tactic(auto, using(crate::proofs::LinkedLemmas::is_linked, crate::proofs::LinkedLemmas::gives_image, crate::proofs::LinkedLemmas::not_refused_to_link, crate::proofs::LinkedLemmas::not_refused_to_locate))]
pub fn image_of(
    alloc: Global,
    objects: &[ObjectModule],
    plan: &Plan,
) -> Result<Absolute, Failure<ToolFault>>
    requires have_image { HaveImage (plan_view plan.now) objects.now }
    ensures linked { IfOk result (IsImageOfObjects plan.now objects.now) }
    ensures gives { IfOk result (GivesImageOfObjects plan.now objects.now) }
    ensures refused { IfFault result (λ _. ⊥) }
{
    let merged = match link(alloc, objects) {
        Ok(merged) => merged,
        Err(Failure::Fault(fault)) => return Err(Failure::Fault(ToolFault::Link(fault))),
        Err(Failure::Memory) => return Err(Failure::Memory),
    };
    match locate(alloc, merged.module(), plan) {
        Ok(image) => Ok(image),
        Err(Failure::Fault(fault)) => Err(Failure::Fault(ToolFault::Locate(fault))),
        Err(Failure::Memory) => Err(Failure::Memory),
    }
}
