//! Placing a program by a plan.

ghost use Rattle.std.specs.Prelude.{◌≡◌, None, Some, map, length, All, IfOk};
ghost use Rattle.failure.specs.Failure.{IfFault};
ghost use Rattle.typed_trees.specs.Views.{module_view};
ghost use Rattle.layout.specs.Lawful.{IsLawful};
ghost use Rattle.layout.specs.Placing.{placement_by, placing_refusal};
ghost use Rattle.layout.specs.Storage.{storage_with};
ghost use Rattle.layout.specs.Views.{layout_view};
ghost use Rattle.join.specs.Views.{modules_of};
ghost use Rattle.placing.specs.Segments.{HaveStorage};
ghost use Rattle.placing.specs.Views.{placement_view, plan_view, refusal_of};

use crate::addresses::{Bases, module_placements};
use crate::fault::Fault;
use crate::misplaced::first_misplaced;
use crate::placement::Placement;
use crate::ranges::{range_fault, ranges_by};
use failure::Failure;
use join::Joined;
use layout::Layout;
use mem80::Plan;
use std::alloc::Global;

/// Places a program by a plan. Each of its modules has the storage that is given for it, and a code segment of the length
/// that is given for it, in bytes, which begins with its constants. The code segments follow one another from the plan's
/// address of the code on, and the data segments from that of the data on.
pub fn place(
    alloc: Global,
    joined: &Joined,
    layouts: &[Layout],
    code_lengths: &[u32],
    plan: &Plan,
) -> Result<Placement, Failure<Fault>>
    requires storage { map layout_view layouts.now
        ≡ map (λ typed. storage_with (module_view typed)) (modules_of joined.now) }
    requires lengths { length code_lengths.now ≡ length (modules_of joined.now) }
    ensures ok { IfOk result (λ _.
        placing_refusal (plan_view plan.now) (map module_view (modules_of joined.now)) code_lengths.now ≡ None) }
    ensures placed { IfOk result (λ placement. placement_view placement
        ≡ placement_by (plan_view plan.now) (map module_view (modules_of joined.now)) code_lengths.now) }
    ensures lawful { HaveStorage (map module_view (modules_of joined.now)) code_lengths.now
        → IfOk result (λ placement.
        IsLawful (map module_view (modules_of joined.now)) (placement_view placement)) }
    ensures fault { IfFault result (λ fault.
        placing_refusal (plan_view plan.now) (map module_view (modules_of joined.now)) code_lengths.now
        ≡ Some (refusal_of fault)) }
{
    let modules = joined.modules();
    let ranges = ranges_by(layouts, code_lengths, plan);
    if let Some(fault) = range_fault(ranges) {
        return Err(Failure::Fault(fault));
    }
    let first = Bases {
        code_base: plan.code as u32,
        data_base: plan.data_base as u32,
    };
    let placements = module_placements(alloc, first, modules, layouts, code_lengths)?;
    if let Some(name) = first_misplaced(ranges, modules, placements.as_slice()) {
        return Err(Failure::Fault(Fault::ObjectMisplaced { name }));
    }
    Ok(Placement::new(placements, ranges.code, ranges.stack))
}
