//! Calls of procedures.

ghost use Rattle.std.specs.Prelude.{OnOk};
ghost use Rattle.steps8080.specs.internal.Step.{Adds};
ghost use Rattle.exprgen8080.specs.internal.Calls.{call_steps, last_argument_steps, pushed_argument_steps};

use isa8080::{Instr, StackPair};
use std::alloc::AllocError;
use steps8080::{Site, Step, Steps, Task};
use treecode::{ExpressionNumber, Range};
use trees::ScalarType;

// Puts an argument into A or HL, by its type.
#[tactic(auto, unfolding(crate::specs::internal::Calls::last_argument_steps, crate::specs::internal::Calls::value_task))]
fn plan_last_argument(
    site: &Site<'_>,
    argument: ExpressionNumber,
    pushed: u16,
    steps: &mut Steps,
) -> Result<(), AllocError>
    ensures { OnOk result (Adds steps.old steps.new (last_argument_steps site.now argument pushed)) }
{
    match site.scalar(argument) {
        ScalarType::Byte => steps.part(Task::Byte(argument), pushed),
        ScalarType::Address => steps.part(Task::Word(argument), pushed),
    }
}

// Pushes an argument.
#[tactic(auto, unfolding(crate::specs::internal::Calls::pushed_argument_steps, crate::specs::internal::Calls::push_of))]
fn plan_pushed_argument(
    site: &Site<'_>,
    argument: ExpressionNumber,
    pushed: u16,
    steps: &mut Steps,
) -> Result<(), AllocError>
    ensures { OnOk result (Adds steps.old steps.new (pushed_argument_steps site.now argument pushed)) }
{
    plan_last_argument(site, argument, pushed, steps)?;
    match site.scalar(argument) {
        ScalarType::Byte => steps.plain(Instr::Push(StackPair::Psw)),
        ScalarType::Address => steps.plain(Instr::Push(StackPair::StackHl)),
    }
}

/// Calls a procedure by its number in the module. All arguments but the last are pushed; the last is in A or HL, and so
/// is the result.
#[tactic(auto, unfolding(crate::specs::internal::Calls::call_steps))]
pub(crate) fn plan_call(
    site: &Site<'_>,
    procedure: u32,
    arguments: Range,
    pushed: u16,
    steps: &mut Steps,
) -> Result<(), AllocError>
    ensures { OnOk result (Adds steps.old steps.new (call_steps site.now procedure arguments pushed)) }
{
    let last = arguments.count.saturating_sub(1);
    let mut depth = pushed;
    for index in 0..arguments.count {
        if let Some(argument) = site.tree.argument(arguments, index) {
            if index < last {
                plan_pushed_argument(site, argument, depth, steps)?;
                depth = depth.wrapping_add(2);
            } else {
                plan_last_argument(site, argument, depth, steps)?;
            }
        }
    }
    steps.push(Step::CallProcedure(procedure))
}
