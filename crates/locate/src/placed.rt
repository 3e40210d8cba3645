//! Placing a module: its pieces, where it starts, and its symbols.

ghost use Rattle.std.specs.Prelude.{◌≡◌, ◌+◌, ◌≤◌, Err, IfOk, None, OnOk, length, map};
ghost use Rattle.failure.specs.Failure.{IfFault};
ghost use Rattle.object_modules.specs.Image.{base_of, image_of, placement_refusal, symbol_at};
ghost use Rattle.object_modules.specs.Module.{places_of};
ghost use Rattle.object_modules.specs.internal.Views.{owned_public_view};
ghost use Rattle.locate.specs.Loading.{GivesItsImage};
ghost use Rattle.locate.specs.Locating.{IsPlaced, plan_view, refusal_of, symbol_view};
ghost use Rattle.locate.specs.internal.Images.{image_pieces, segment_pieces};
ghost use Rattle.locate.specs.internal.Putting.{with_pieces};

use crate::absolute::{Absolute, Symbol};
use crate::fault::LocateFault;
use crate::plan::base;
use crate::putting::add_segment;
use crate::refusals::refusal;
use failure::Failure;
use mem80::{MEMORY_SIZE, Piece, Plan};
use object_modules::{ObjectModule, OwnedPublic, Segment};
use std::alloc::{AllocError, Global};

// Puts the runs of a segment of a module after other pieces.
#[tactic(auto, using(crate::proofs::Images::runs_lie))]
fn add_runs_of(
    alloc: Global,
    pieces: &mut Vec<Piece>,
    object: &ObjectModule,
    segment: Segment,
    plan: &Plan,
) -> Result<(), AllocError>
    requires { base_of (plan_view plan.now) segment + length (places_of object.now segment) ≤ MEMORY_SIZE }
    ensures { OnOk result (pieces.new.items
        ≡ with_pieces pieces.old.items (segment_pieces (plan_view plan.now) object.now segment)) }
{
    add_segment(
        alloc,
        pieces,
        base(plan, segment),
        object.runs(segment),
        object.fixes(segment),
        plan,
    )
}

// The bytes of a module, the segment that begins first before the other.
#[tactic(auto, using(crate::proofs::Placing::code_room, crate::proofs::Placing::data_room, crate::proofs::Placing::code_first, crate::proofs::Placing::data_first))]
fn image(alloc: Global, object: &ObjectModule, plan: &Plan) -> Result<Vec<Piece>, AllocError>
    requires { placement_refusal (plan_view plan.now) object.now ≡ None }
    ensures { IfOk result (λ pieces. pieces.items ≡ image_pieces (plan_view plan.now) object.now) }
{
    let mut pieces = Vec::new(alloc);
    if plan.code <= plan.data_base {
        add_runs_of(alloc, &mut pieces, object, Segment::Code, plan)?;
        add_runs_of(alloc, &mut pieces, object, Segment::Data, plan)?;
    } else {
        add_runs_of(alloc, &mut pieces, object, Segment::Data, plan)?;
        add_runs_of(alloc, &mut pieces, object, Segment::Code, plan)?;
    }
    Ok(pieces)
}

// Publics with their addresses, in their order.
fn symbols_of(
    alloc: Global,
    publics: &[OwnedPublic],
    plan: &Plan,
) -> Result<Vec<Symbol>, AllocError>
    ensures { IfOk result (λ symbols. map symbol_view symbols.items
        ≡ map (symbol_at (plan_view plan.now)) (map owned_public_view publics.now)) }
{
    let mut symbols = Vec::new(alloc);
    for public in publics {
        symbols.push(Symbol {
            name: public.name,
            address: public.offset.wrapping_add(base(plan, public.segment)),
        })?;
    }
    Ok(symbols)
}

// A module at a plan that is not refused.
#[tactic(auto, using(crate::proofs::Placing::image_runs, crate::proofs::Placing::image_in_memory, crate::proofs::Placing::is_placed))]
fn absolute_of(alloc: Global, object: &ObjectModule, plan: &Plan) -> Result<Absolute, AllocError>
    requires { placement_refusal (plan_view plan.now) object.now ≡ None }
    ensures placed { IfOk result (λ absolute. IsPlaced (plan_view plan.now) object.now absolute) }
    ensures gives { IfOk result (λ absolute. GivesItsImage (plan_view plan.now) object.now absolute) }
{
    let pieces = image(alloc, object, plan)?;
    let symbols = symbols_of(alloc, object.publics(), plan)?;
    let start = object.start().unwrap_or(0).wrapping_add(plan.code);
    let absolute = Absolute::new(pieces, start, symbols);
    Ok(absolute)
}

/// Places a module by a plan: the length of its stack is that of the plan. Nothing is placed if an
/// external name is left or one of the other causes holds; the first in their order is the fault. Each memory
/// into which the placed module is put has the bytes of the image, and is a memory still.
#[tactic(auto, using(crate::proofs::Placing::is_refused))]
pub fn locate(
    alloc: Global,
    object: &ObjectModule,
    plan: &Plan,
) -> Result<Absolute, Failure<LocateFault>>
    ensures placed { IfOk result (λ absolute. IsPlaced (plan_view plan.now) object.now absolute) }
    ensures gives { IfOk result (λ absolute. GivesItsImage (plan_view plan.now) object.now absolute) }
    ensures refused { IfFault result (λ fault.
        image_of (plan_view plan.now) object.now ≡ Err (refusal_of fault)) }
{
    match refusal(object, plan) {
        Some(fault) => Err(Failure::Fault(fault)),
        None => {
            let absolute = absolute_of(alloc, object, plan)?;
            Ok(absolute)
        }
    }
}
