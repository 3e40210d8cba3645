//! The steps of each statement.

ghost use Rattle.std.specs.Prelude.{◌∷◌, [], OnOk};
ghost use Rattle.steps8080.specs.declared.step.Task.TheVariants.{Call};
ghost use Rattle.statements8080.specs.internal.Plans.{PlanAdds, PlanAddsWithLabels, part};
ghost use Rattle.codegen8080.specs.internal.Statements.{goto_steps, halt_steps, return_of_steps, returned_value_steps, statement_labels, statement_steps};

use crate::procedures::plan_return;
use asm8080::WordForm;
use exprgen8080::{LabelNumber, Site, Task};
use isa8080::Instr;
use statements8080::{
    Body, Plan, Planned, plan_assignment, plan_case, plan_if, plan_loop, plan_move,
};
use std::alloc::AllocError;
use treecode::{ExpressionNumber, Range, Statement};
use trees::ScalarType;

// The code ends with HLT.
fn plan_halt(plan: &mut Plan) -> Result<(), AllocError>
    ensures { OnOk result (PlanAdds plan.old plan.new halt_steps) }
{
    plan.plain(Instr::Hlt)?;
    plan.push(Planned::Reaches(false))
}

// A jump to a label.
fn plan_goto(plan: &mut Plan, label: LabelNumber) -> Result<(), AllocError>
    ensures { OnOk result (PlanAdds plan.old plan.new (goto_steps label)) }
{
    plan.jump(WordForm::Jump, label)?;
    plan.push(Planned::Reaches(false))
}

// Puts the value of a RETURN into A or HL, by the type of the procedure.
fn plan_returned_value(
    plan: &mut Plan,
    value: Option<ExpressionNumber>,
    result_type: Option<ScalarType>,
) -> Result<(), AllocError>
    ensures { OnOk result (PlanAdds plan.old plan.new (returned_value_steps value result_type)) }
{
    match (value, result_type) {
        (Some(value), Some(ScalarType::Byte)) => plan.part(Task::Byte(value), 0),
        (Some(value), Some(ScalarType::Address)) => plan.part(Task::Word(value), 0),
        _ => Ok(()),
    }
}

// A return, with a value if there is one.
#[tactic(auto, unfolding(crate::specs::internal::Statements::return_of_steps))]
fn plan_return_of(
    body: &Body<'_>,
    plan: &mut Plan,
    value: Option<ExpressionNumber>,
) -> Result<(), AllocError>
    ensures { OnOk result (PlanAdds plan.old plan.new (return_of_steps body.now value)) }
{
    plan_returned_value(plan, value, body.procedure.result)?;
    plan_return(body, plan)?;
    plan.push(Planned::Reaches(false))
}

// A call of a procedure without a result.
fn plan_call(plan: &mut Plan, procedure: u32, arguments: Range) -> Result<(), AllocError>
    ensures { OnOk result (PlanAdds plan.old plan.new (part (Call procedure arguments) 0 ∷ [])) }
{
    plan.part(
        Task::Call {
            procedure,
            arguments,
        },
        0,
    )
}

/// The steps of a statement.
#[tactic(auto, unfolding(crate::specs::internal::Statements::statement_steps, crate::specs::internal::Statements::statement_labels), using(crate::proofs::Planning::none_taken))]
pub(crate) fn plan_statement(
    body: &Body<'_>,
    site: &Site<'_>,
    plan: &mut Plan,
    statement: Statement,
) -> Result<(), AllocError>
    ensures { OnOk result (PlanAddsWithLabels plan.old plan.new
        (statement_labels body.now site.now statement) (statement_steps body.now site.now statement)) }
{
    match statement {
        Statement::Label(label) => plan.mark(body.label(label)),
        Statement::Null => Ok(()),
        Statement::Assignment { targets, value } => {
            plan_assignment(body, site, plan, targets, value)
        }
        Statement::Call {
            procedure,
            arguments,
        } => plan_call(plan, procedure, arguments),
        Statement::Move {
            count,
            source,
            destination,
        } => plan_move(site, plan, count, source, destination),
        Statement::Return(value) => plan_return_of(body, plan, value),
        Statement::Halt => plan_halt(plan),
        Statement::Goto(label) => plan_goto(plan, body.label(label)),
        Statement::If {
            condition,
            body: then,
            otherwise,
        } => plan_if(body, site, plan, condition, then, otherwise),
        Statement::Do(list) => plan.push(Planned::List(list)),
        Statement::Loop { head, body: list } => plan_loop(body, site, plan, head, list),
        Statement::Case { choice, body: list } => plan_case(body, site, plan, choice, list),
    }
}
