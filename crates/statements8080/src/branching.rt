//! IF and loops.

ghost use Rattle.std.specs.Prelude.{◌≡◌, OnOk};
ghost use Rattle.steps8080.specs.declared.step.Task.TheVariants as tasks;
ghost use Rattle.statements8080.specs.internal.Plans.{PlanAdds, PlanAddsWithLabels};
ghost use Rattle.statements8080.specs.internal.Branches.{either_labels, either_steps, forever_steps, goto_label, has_one_jump, head_labels, head_steps, if_labels, if_steps, inner, may_jump_twice, statement_if_any, tested_if_labels, tested_if_steps, tested_while_steps, then_steps, while_labels, while_steps};

use crate::body::Body;
use crate::iteration::plan_iteration;
use crate::plan::{Plan, Planned, label_at};
use asm8080::WordForm;
use exprgen8080::{LabelNumber, Site, Task};
use isa8080::Instr;
use std::alloc::AllocError;
use treecode::{ExpressionForm, ExpressionNumber, LoopHead, Range, Statement, StatementNumber};
use trees::{BinaryOperator, UnaryOperator};

// The number of negations and conversions around a condition that are looked through.
const LOOKED_THROUGH: u32 = 8;

// The expression inside NOT or a conversion. Its lowest bit is the same or the opposite.
fn inner(site: &Site<'_>, number: ExpressionNumber) -> Option<ExpressionNumber>
    ensures { result ≡ inner site.now number }
{
    match site.expression(number) {
        Some(expression) => match expression.form {
            ExpressionForm::Conversion(inner) => Some(inner),
            ExpressionForm::Unary {
                operator: UnaryOperator::Not,
                operand,
            } => Some(operand),
            _ => None,
        },
        None => None,
    }
}

// Whether the code of a condition may be that of AND or OR, which may jump for each operand.
fn may_jump_twice(site: &Site<'_>, number: ExpressionNumber) -> bool
    ensures { result ≡ may_jump_twice site.now number }
{
    match site.expression(number) {
        Some(expression) => match expression.form {
            ExpressionForm::Binary { operator, .. } => {
                matches!(operator, BinaryOperator::And | BinaryOperator::Or)
            }
            ExpressionForm::Unary { .. }
            | ExpressionForm::Conversion(_)
            | ExpressionForm::Function { .. } => true,
            _ => false,
        },
        None => true,
    }
}

// Whether the code of a condition has at most one jump to its label.
#[tactic(auto, using(crate::proofs::Jumps::one_jump_here, crate::proofs::Jumps::one_jump_last, crate::proofs::Jumps::one_jump_ends))]
fn has_one_jump(site: &Site<'_>, condition: ExpressionNumber) -> bool
    ensures { result ≡ has_one_jump site.now condition }
{
    let mut condition = condition;
    let mut left = LOOKED_THROUGH;
    while left > 0 {
        match inner(site, condition) {
            Some(inner) => condition = inner,
            None => return !may_jump_twice(site, condition),
        }
        left -= 1;
    }
    false
}

// The label of a statement that is a GOTO.
fn goto_label(body: &Body<'_>, statement: StatementNumber) -> Option<LabelNumber>
    ensures { result ≡ goto_label body.now statement }
{
    match body.tree.statement(statement) {
        Some(Statement::Goto(label)) => Some(body.label(label)),
        _ => None,
    }
}

// A jump to a label on a condition.
fn branch(condition: ExpressionNumber, label: LabelNumber, sense: bool) -> Task
    ensures { result ≡ tasks.Branch condition label sense }
{
    Task::Branch {
        condition,
        label,
        sense,
    }
}

// A statement that is carried out if a condition holds.
fn plan_then(
    site: &Site<'_>,
    plan: &mut Plan,
    condition: ExpressionNumber,
    then: StatementNumber,
) -> Result<(), AllocError>
    ensures { OnOk result (PlanAddsWithLabels plan.old plan.new 1
        (then_steps site.now condition then)) }
{
    let end = plan.label();
    plan.part(branch(condition, end, false), 0)?;
    plan.push(Planned::Jumped {
        is_the_only_one: has_one_jump(site, condition),
    })?;
    plan.push(Planned::Statement(then))?;
    plan.push(Planned::Meet(end))
}

// One of two statements, chosen by a condition.
fn plan_either(
    body: &Body<'_>,
    site: &Site<'_>,
    plan: &mut Plan,
    condition: ExpressionNumber,
    then: StatementNumber,
    otherwise: StatementNumber,
) -> Result<(), AllocError>
    ensures { OnOk result (PlanAddsWithLabels plan.old plan.new (either_labels body.now otherwise)
        (either_steps body.now site.now condition then otherwise)) }
{
    if let Some(label) = goto_label(body, otherwise) {
        plan.part(branch(condition, label, false), 0)?;
        return plan.push(Planned::Statement(then));
    }
    let other = plan.labels(2);
    let end = label_at(other, 1);
    plan.part(branch(condition, other, false), 0)?;
    plan.push(Planned::Jumped {
        is_the_only_one: has_one_jump(site, condition),
    })?;
    plan.push(Planned::Statement(then))?;
    plan.push(Planned::Turn { other, end })?;
    plan.push(Planned::Statement(otherwise))?;
    plan.push(Planned::Meet(end))
}

// IF with a condition that is not known.
fn plan_test(
    body: &Body<'_>,
    site: &Site<'_>,
    plan: &mut Plan,
    condition: ExpressionNumber,
    then: StatementNumber,
    otherwise: Option<StatementNumber>,
) -> Result<(), AllocError>
    ensures { OnOk result (PlanAddsWithLabels plan.old plan.new (tested_if_labels body.now then otherwise)
        (tested_if_steps body.now site.now condition then otherwise)) }
{
    if let Some(label) = goto_label(body, then) {
        plan.part(branch(condition, label, true), 0)?;
        return plan_statement_if_any(plan, otherwise);
    }
    match otherwise {
        Some(otherwise) => plan_either(body, site, plan, condition, then, otherwise),
        None => plan_then(site, plan, condition, then),
    }
}

// A statement, if there is one.
fn plan_statement_if_any(
    plan: &mut Plan,
    statement: Option<StatementNumber>,
) -> Result<(), AllocError>
    ensures { OnOk result (PlanAdds plan.old plan.new (statement_if_any statement)) }
{
    match statement {
        Some(statement) => plan.push(Planned::Statement(statement)),
        None => Ok(()),
    }
}

/// The steps of IF. If the condition is known, one of its two statements is left out: no code outside it jumps to its
/// labels.
pub fn plan_if(
    body: &Body<'_>,
    site: &Site<'_>,
    plan: &mut Plan,
    condition: ExpressionNumber,
    then: StatementNumber,
    otherwise: Option<StatementNumber>,
) -> Result<(), AllocError>
    ensures { OnOk result (PlanAddsWithLabels plan.old plan.new
        (if_labels body.now site.now condition then otherwise)
        (if_steps body.now site.now condition then otherwise)) }
{
    match site.number(condition) {
        Some(number) => {
            if number % 2 == 1 {
                plan.push(Planned::Statement(then))
            } else {
                plan_statement_if_any(plan, otherwise)
            }
        }
        None => plan_test(body, site, plan, condition, then, otherwise),
    }
}

// A list that is repeated forever. Each turn has a step of its own: NOP for the first one, the jump back for any other.
fn plan_forever(plan: &mut Plan, list: Range) -> Result<(), AllocError>
    ensures { OnOk result (PlanAddsWithLabels plan.old plan.new 1
        (forever_steps list)) }
{
    let begin = plan.label();
    plan.plain(Instr::Nop)?;
    plan.mark(begin)?;
    plan.push(Planned::List(list))?;
    plan.push(Planned::JumpOn(begin))?;
    plan.push(Planned::Reaches(false))
}

// DO WHILE with a condition that is not known: it is tested at the end.
fn plan_while_tested(
    plan: &mut Plan,
    condition: ExpressionNumber,
    list: Range,
) -> Result<(), AllocError>
    ensures { OnOk result (PlanAddsWithLabels plan.old plan.new 2
        (tested_while_steps condition list)) }
{
    let begin = plan.labels(2);
    let test = label_at(begin, 1);
    if list.count > 0 {
        plan.jump(WordForm::Jump, test)?;
    }
    plan.mark(begin)?;
    plan.push(Planned::List(list))?;
    plan.mark(test)?;
    plan.part(branch(condition, begin, true), 0)?;
    plan.push(Planned::Reaches(true))
}

// The steps of DO WHILE.
fn plan_while(
    site: &Site<'_>,
    plan: &mut Plan,
    condition: ExpressionNumber,
    list: Range,
) -> Result<(), AllocError>
    ensures { OnOk result (PlanAddsWithLabels plan.old plan.new (while_labels site.now condition)
        (while_steps site.now condition list)) }
{
    match site.number(condition) {
        Some(number) => {
            if number % 2 == 1 {
                plan_forever(plan, list)
            } else {
                Ok(())
            }
        }
        None => plan_while_tested(plan, condition, list),
    }
}

/// The steps of a loop: DO WHILE, or an iterative DO.
pub fn plan_loop(
    body: &Body<'_>,
    site: &Site<'_>,
    plan: &mut Plan,
    head: LoopHead,
    list: Range,
) -> Result<(), AllocError>
    ensures { OnOk result (PlanAddsWithLabels plan.old plan.new (head_labels site.now head)
        (head_steps body.now site.now head list)) }
{
    match head {
        LoopHead::While(condition) => plan_while(site, plan, condition, list),
        LoopHead::Count(iteration) => plan_iteration(body, site, plan, &iteration, list),
    }
}
