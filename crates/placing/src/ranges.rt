//! The ranges of code, data and stack, and whether they can be those of a program.

ghost use Rattle.std.specs.Prelude.{◌≡◌, min, sum, option_map};
ghost use Rattle.layout.specs.Placement.{range_of};
ghost use Rattle.layout.specs.Placing.{overlaps, passes_memory, stack_range};
ghost use Rattle.placing.specs.Views.{plan_view, refusal_of};
ghost use Rattle.placing.specs.internal.Placings.{layout_sizes, range_refusal};

use crate::fault::Fault;
use layout::{Layout, SEGMENT_LIMIT};
use mem80::{MEMORY_SIZE, Plan, Range, overlap};

/// Where code, data and stack lie.
#[derive(Clone, Copy)]
pub(crate) struct Ranges {
    pub(crate) code: Range,
    pub(crate) variables: Range,
    pub(crate) stack: Range,
}

// The bytes of all code segments (4,294,967,295 if they have more).
#[tactic(auto, using(crate::proofs::Sums::code_more, crate::proofs::Sums::code_end))]
fn code_total(code_lengths: &[u32]) -> u32
    ensures { result ≡ min (sum code_lengths.now) 4294967295 }
{
    let mut total: u32 = 0;
    for length in code_lengths {
        total = total.saturating_add(*length);
    }
    total
}

// The bytes of all data segments (4,294,967,295 if they have more).
#[tactic(auto, using(crate::proofs::Sums::data_more, crate::proofs::Sums::data_end))]
fn data_total(layouts: &[Layout]) -> u32
    ensures { result ≡ min (layout_sizes layouts.now) 4294967295 }
{
    let mut total: u32 = 0;
    for layout in layouts {
        total = total.saturating_add(layout.data_size);
    }
    total
}

/// Where code, data and stack lie by a plan. A length stops at 4,294,967,295.
pub(crate) fn ranges_by(layouts: &[Layout], code_lengths: &[u32], plan: &Plan) -> Ranges
    ensures code { result.code ≡ range_of plan.now.code (min (sum code_lengths.now) 4294967295) }
    ensures variables { result.variables
        ≡ range_of plan.now.data_base (min (layout_sizes layouts.now) 4294967295) }
    ensures stack { result.stack ≡ stack_range (plan_view plan.now) }
{
    Ranges {
        code: Range {
            start: plan.code as u32,
            len: code_total(code_lengths),
        },
        variables: Range {
            start: plan.data_base as u32,
            len: data_total(layouts),
        },
        stack: Range {
            start: plan.stack as u32,
            len: plan.stack_size as u32,
        },
    }
}

/// Whether a range passes the end of memory.
pub(crate) fn passes_memory(range: Range) -> bool
    ensures { result ≡ passes_memory range }
{
    range.start as u64 + range.len as u64 > MEMORY_SIZE as u64
}

/// Whether an address lies in both ranges. An empty range meets nothing.
pub(crate) fn overlaps(left: Range, right: Range) -> bool
    ensures { result ≡ overlaps left right }
{
    overlap(&left, &right)
}

/// Why code, data and stack can't lie there.
pub(crate) fn range_fault(ranges: Ranges) -> Option<Fault>
    ensures { option_map refusal_of result ≡ range_refusal ranges.code ranges.variables ranges.stack }
{
    let Ranges {
        code,
        variables,
        stack,
    } = ranges;
    if code.len > SEGMENT_LIMIT || variables.len > SEGMENT_LIMIT {
        return Some(Fault::SegmentTooLarge);
    }
    if passes_memory(code) || passes_memory(variables) || passes_memory(stack) {
        return Some(Fault::PassesMemory);
    }
    if overlaps(code, variables) || overlaps(code, stack) || overlaps(variables, stack) {
        return Some(Fault::RangesOverlap);
    }
    None
}
