//! Products and quotients by the routines.

ghost use Rattle.std.specs.Prelude.{OnOk};
ghost use Rattle.steps8080.specs.internal.Step.{Adds};
ghost use Rattle.exprgen8080.specs.internal.Routines.{computed_product_steps, division_steps};

use crate::byte_operators::Operands;
use operands8080::{PairOrder, plan_pair, plan_pair_in_order};
use runtime8080::Routine;
use std::alloc::AllocError;
use steps8080::{Site, Step, Steps};

/// Puts the product of two operands that are not numbers into HL. The routine is faster if DE is below 256.
#[tactic(auto, unfolding(crate::specs::internal::Routines::computed_product_steps, crate::specs::internal::Routines::product_order))]
pub(crate) fn plan_computed_product(
    site: &Site<'_>,
    operands: Operands,
    pushed: u16,
    steps: &mut Steps,
) -> Result<(), AllocError>
    ensures { OnOk result (Adds steps.old steps.new (computed_product_steps site.now operands pushed)) }
{
    let Operands { left, right } = operands;
    let wish = match (site.fits_byte(left), site.fits_byte(right)) {
        (false, true) => Some(PairOrder::LeftInHl),
        (true, false) => Some(PairOrder::RightInHl),
        (true, true) | (false, false) => None,
    };
    let _ = plan_pair_in_order(site, left, right, wish, pushed, steps)?;
    steps.push(Step::CallRoutine(Routine::Multiply))
}

/// Divides one operand by the other one: puts the quotient into HL, and the remainder into DE.
#[tactic(auto, unfolding(crate::specs::internal::Routines::division_steps))]
pub(crate) fn plan_division(
    site: &Site<'_>,
    operands: Operands,
    pushed: u16,
    steps: &mut Steps,
) -> Result<(), AllocError>
    ensures { OnOk result (Adds steps.old steps.new (division_steps site.now operands pushed)) }
{
    let Operands { left, right } = operands;
    let _ = plan_pair(site, left, right, true, pushed, steps)?;
    steps.push(Step::CallRoutine(Routine::Divide))
}
