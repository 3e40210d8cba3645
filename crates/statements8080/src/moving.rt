//! CALL MOVE.

ghost use Rattle.std.specs.Prelude.{OnOk};
ghost use Rattle.statements8080.specs.internal.Plans.{PlanAdds};
ghost use Rattle.statements8080.specs.internal.Moves.{ends_steps, known_move_steps, move_steps};

use crate::plan::{Plan, Planned};
use asm8080::WordForm;
use exprgen8080::{Site, Step, Task};
use isa8080::{Instr, Pair, StackPair};
use runtime8080::Routine;
use std::alloc::AllocError;
use treecode::{ExpressionNumber, Place};

// Puts the source into DE and the destination into HL, when `pushed` bytes are pushed.
fn plan_ends(
    site: &Site<'_>,
    plan: &mut Plan,
    source: ExpressionNumber,
    destination: ExpressionNumber,
    pushed: u16,
) -> Result<(), AllocError>
    ensures { OnOk result (PlanAdds plan.old plan.new (ends_steps site.now source destination pushed)) }
{
    if let Some(place) = site.known(source) {
        plan.part(Task::Word(destination), pushed)?;
        return plan.word(WordForm::LoadPair(Pair::De), place);
    }
    plan.part(Task::Word(source), pushed)?;
    if site.keeps(destination).de {
        plan.plain(Instr::Xchg)?;
        return plan.part(Task::Word(destination), pushed);
    }
    plan.plain(Instr::Push(StackPair::StackHl))?;
    plan.part(Task::Word(destination), pushed.saturating_add(2))?;
    plan.plain(Instr::Pop(StackPair::StackDe))
}

// Copies a known number of bytes.
fn plan_known(
    site: &Site<'_>,
    plan: &mut Plan,
    count: Place,
    source: ExpressionNumber,
    destination: ExpressionNumber,
) -> Result<(), AllocError>
    ensures { OnOk result (PlanAdds plan.old plan.new (known_move_steps site.now count source destination)) }
{
    plan_ends(site, plan, source, destination, 0)?;
    plan.word(WordForm::LoadPair(Pair::Bc), count)?;
    plan.push(Planned::Code(Step::CallRoutine(Routine::Move)))
}

/// The steps of CALL MOVE: they put the count into BC, the source into DE and the destination into HL.
pub fn plan_move(
    site: &Site<'_>,
    plan: &mut Plan,
    count: ExpressionNumber,
    source: ExpressionNumber,
    destination: ExpressionNumber,
) -> Result<(), AllocError>
    ensures { OnOk result (PlanAdds plan.old plan.new (move_steps site.now count source destination)) }
{
    if let Some(place) = site.known(count) {
        return plan_known(site, plan, place, source, destination);
    }
    plan.part(Task::Word(count), 0)?;
    plan.plain(Instr::Push(StackPair::StackHl))?;
    plan_ends(site, plan, source, destination, 2)?;
    plan.plain(Instr::Pop(StackPair::StackBc))?;
    plan.push(Planned::Code(Step::CallRoutine(Routine::Move)))
}
