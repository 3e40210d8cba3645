//! Whether a module can be placed by a plan.

ghost use Rattle.std.specs.Prelude.{◌≡◌, ◌%◌, ◌==◌, ◌||◌, not};
ghost use Rattle.std.specs.List.{list_any};
ghost use Rattle.std.specs.Option.{is_none, option_map};
ghost use Rattle.mem80.specs.Range.{ranges_meet};
ghost use Rattle.object_modules.specs.Before.{is_empty};
ghost use Rattle.object_modules.specs.Image.{breaks_page, code_range, data_range, gain_at, passes_memory, placement_refusal, range_at, stack_range};
ghost use Rattle.object_modules.specs.Moving.{high_targets};
ghost use Rattle.locate.specs.Locating.{plan_view, refusal_of};
ghost use Rattle.locate.specs.internal.Images.{breaks_high};

use crate::fault::LocateFault;
use crate::plan::{base, gain};
use mem80::{MEMORY_SIZE, Plan, Range, overlap};
use object_modules::{Alignment, Fix, FixKind, ObjectModule, Segment};

// Where code, data and stack would lie.
#[derive(Clone, Copy)]
struct Ranges {
    code: Range,
    variables: Range,
    stack: Range,
}

// The `size` addresses from a base on.
fn range_from(base: u16, size: u16) -> Range
    ensures { result ≡ range_at base size }
{
    Range {
        start: base as u32,
        len: size as u32,
    }
}

// The ranges of a module at a plan.
fn ranges_of(object: &ObjectModule, plan: &Plan) -> Ranges
    ensures code { result.code ≡ code_range (plan_view plan.now) object.now }
    ensures variables { result.variables ≡ data_range (plan_view plan.now) object.now }
    ensures stack { result.stack ≡ stack_range (plan_view plan.now) }
{
    Ranges {
        code: range_from(plan.code, object.length(Segment::Code)),
        variables: range_from(plan.data_base, object.length(Segment::Data)),
        stack: range_from(plan.stack, plan.stack_size),
    }
}

// Whether addresses pass the end of memory.
fn passes(range: Range) -> bool
    ensures { result ≡ passes_memory range }
{
    range.start as u64 + range.len as u64 > MEMORY_SIZE as u64
}

// Whether two ranges have an address in common.
#[tactic(auto, using(crate::proofs::Tests::meet_is))]
fn meet(left: Range, right: Range) -> bool
    ensures { result ≡ ranges_meet left right }
{
    overlap(&left, &right)
}

// Whether any of the three passes the end of memory.
fn any_passes(ranges: Ranges) -> bool
    ensures { result
        ≡ (passes_memory ranges.code || passes_memory ranges.variables || passes_memory ranges.stack) }
{
    passes(ranges.code) || passes(ranges.variables) || passes(ranges.stack)
}

// Whether any two of the three have an address in common.
fn any_meet(ranges: Ranges) -> bool
    ensures { result ≡ (ranges_meet ranges.code ranges.variables
        || ranges_meet ranges.code ranges.stack
        || ranges_meet ranges.variables ranges.stack) }
{
    meet(ranges.code, ranges.variables)
        || meet(ranges.code, ranges.stack)
        || meet(ranges.variables, ranges.stack)
}

// Whether a page-aligned segment would begin within a page.
fn page_breaks(object: &ObjectModule, segment: Segment, plan: &Plan) -> bool
    ensures { result ≡ breaks_page (plan_view plan.now) object.now segment }
{
    match object.alignment(segment) {
        Alignment::Byte => false,
        Alignment::Page => base(plan, segment) % 256 != 0,
    }
}

// Whether a high byte is fixed to a segment that would begin within a page.
fn high_breaks(fix: &Fix, plan: &Plan) -> bool
    ensures { result ≡ breaks_high (gain_at (plan_view plan.now)) fix.now }
{
    match fix.kind {
        FixKind::Low => false,
        FixKind::High => gain(plan, fix.target) % 256 != 0,
        FixKind::Both => false,
    }
}

// Whether any of these fixes is one.
fn any_breaks(fixes: &[Fix], plan: &Plan) -> bool
    ensures { result ≡ list_any (breaks_high (gain_at (plan_view plan.now))) fixes.now }
{
    for fix in fixes {
        if high_breaks(fix, plan) {
            return true;
        }
    }
    false
}

// Whether any high byte of a module is fixed to a segment that would begin within a page.
#[tactic(auto, using(crate::proofs::Highs::high_is))]
fn any_high_breaks(object: &ObjectModule, plan: &Plan) -> bool
    ensures { result ≡ list_any (λ target. not (gain_at (plan_view plan.now) target % 256 == 0))
        (high_targets object.now) }
{
    any_breaks(object.fixes(Segment::Code), plan) || any_breaks(object.fixes(Segment::Data), plan)
}

// Whether an external name is left.
#[tactic(auto, using(crate::proofs::Refused::some_names))]
fn has_externals(object: &ObjectModule) -> bool
    ensures { result ≡ not (is_empty object.now.externals) }
{
    !object.externals().is_empty()
}

// Whether the module is not a main module.
fn has_no_start(object: &ObjectModule) -> bool
    ensures { result ≡ is_none object.now.start }
{
    object.start().is_none()
}

// Whether a page-aligned segment of a module would begin within a page.
fn any_page_breaks(object: &ObjectModule, plan: &Plan) -> bool
    ensures { result ≡ (breaks_page (plan_view plan.now) object.now Segment.Code
        || breaks_page (plan_view plan.now) object.now Segment.Data) }
{
    page_breaks(object, Segment::Code, plan) || page_breaks(object, Segment::Data, plan)
}

/// Why a module can't be placed by a plan, if it can't be.
#[tactic(auto, using(crate::proofs::Refused::refusal_is))]
pub(crate) fn refusal(object: &ObjectModule, plan: &Plan) -> Option<LocateFault>
    ensures { option_map refusal_of result ≡ placement_refusal (plan_view plan.now) object.now }
{
    let ranges = ranges_of(object, plan);
    if has_externals(object) {
        return Some(LocateFault::ExternalLeft);
    }
    if has_no_start(object) {
        return Some(LocateFault::NoStart);
    }
    if any_passes(ranges) {
        return Some(LocateFault::PassesMemory);
    }
    if any_meet(ranges) {
        return Some(LocateFault::SegmentsMeet);
    }
    if any_page_breaks(object, plan) {
        return Some(LocateFault::PageBroken);
    }
    if any_high_breaks(object, plan) {
        return Some(LocateFault::HighByteBroken);
    }
    None
}
