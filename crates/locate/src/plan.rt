//! What a plan adds to the offsets of segments.

ghost use Rattle.std.specs.Prelude.{◌≡◌};
ghost use Rattle.object_modules.specs.Image.{base_of, gain_at};
ghost use Rattle.locate.specs.Locating.{plan_view};

use mem80::Plan;
use object_modules::{Segment, Target};

/// What the offsets of a segment are counted from; for the stack the address just past it.
pub(crate) fn base(plan: &Plan, segment: Segment) -> u16
    ensures { result ≡ base_of (plan_view plan.now) segment }
{
    match segment {
        Segment::Absolute => 0,
        Segment::Code => plan.code,
        Segment::Data => plan.data_base,
        Segment::Stack => plan.stack_end(),
    }
}

/// What a place that is fixed to a target gains.
pub(crate) fn gain(plan: &Plan, target: Target) -> u16
    ensures { result ≡ gain_at (plan_view plan.now) target }
{
    match target {
        Target::InSegment(segment) => base(plan, segment),
        Target::External(_) => 0,
    }
}
