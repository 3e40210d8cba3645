//! How much of the stack a call of a procedure is charged, in numbers that stop at 4,294,967,295.

ghost use Rattle.std.specs.Prelude.{◌≡◌, ◌+◌, map, max, min};
ghost use Rattle.std.specs.Option.{option_map};
ghost use Rattle.typed_trees.specs.Charge.{charge_of as charge, count_of_arguments, height_of, height_of_arguments, height_of_else, height_of_head, height_of_list, height_of_optional, height_of_reference, height_of_statement, height_of_statements, height_of_subscript, height_of_target, height_of_targets};
ghost use Rattle.typed_trees.specs.Views.{arguments_view, else_view, expression_view, head_view, list_view, procedure_view, reference_view, statement_view, statements_view, subscript_view, target_view};

use crate::expression::{TypedExpression, TypedReference, TypedSubscript, TypedTarget};
use crate::module::TypedProcedure;
use crate::statement::{TypedAssignment, TypedHead, TypedIf, TypedList, TypedMove, TypedStatement};

/// The charge of a call of a procedure (4,294,967,295 if it is more).
#[tactic(auto, unfolding(crate::specs::Charge::charge_of))]
pub fn charge_of(procedure: &TypedProcedure) -> u32
    ensures { result ≡ min (charge (procedure_view procedure.now)) 4294967295 }
{
    let parameters = capped_count(procedure.parameters.len()).saturating_mul(2);
    let height = list_height(&procedure.body).saturating_mul(2);
    parameters
        .saturating_add(procedure.frame_bytes)
        .saturating_add(height)
        .saturating_add(10)
}

// A count that stops at the greatest number of 32 bits.
fn capped_count(count: usize) -> u32
    ensures { result ≡ min count 4294967295 }
{
    u32::try_from(count).unwrap_or(u32::MAX)
}

// The height of an expression.
#[cycle(expression)]
#[tactic(auto, using(crate::specs::declared::expression::TypedExpression::the_lemmas, crate::proofs::Views::argument_rows_are))]
fn expression_height(expression: &TypedExpression) -> u32
    ensures { result ≡ min (height_of (expression_view expression.now)) 4294967295 }
{
    match expression {
        TypedExpression::Number { .. } | TypedExpression::List(_) => 1,
        TypedExpression::Value { reference, .. } | TypedExpression::Location(reference) => {
            reference_height(reference)
        }
        TypedExpression::Conversion { inner, .. } => expression_height(inner),
        TypedExpression::Assignment { target, value } => {
            target_height(target)
                .max(expression_height(value))
                .saturating_add(1)
        }
        TypedExpression::Unary { operand, .. } => expression_height(operand).saturating_add(1),
        TypedExpression::Binary { left, right, .. } => {
            expression_height(left)
                .max(expression_height(right))
                .saturating_add(1)
        }
        TypedExpression::Call { arguments, .. } => call_height(arguments.as_slice()),
        TypedExpression::Function { operand, .. } => expression_height(operand).saturating_add(2),
        TypedExpression::Shift { value, count, .. } => {
            expression_height(value)
                .max(expression_height(count))
                .saturating_add(3)
        }
        TypedExpression::Input(_) => 3,
    }
}

// The height of a reference.
#[cycle(expression)]
fn reference_height(reference: &TypedReference) -> u32
    ensures { result ≡ min (height_of_reference (reference_view reference.now)) 4294967295 }
{
    subscript_height(&reference.subscript)
        .max(subscript_height(&reference.member_subscript))
        .saturating_add(1)
}

// The height of a subscript, 0 without one.
#[cycle(expression)]
fn subscript_height(subscript: &TypedSubscript) -> u32
    ensures { result ≡ min (height_of_subscript (subscript_view subscript.now)) 4294967295 }
{
    match subscript {
        TypedSubscript::Absent => 0,
        TypedSubscript::Present { index, .. } => expression_height(index),
    }
}

// The height of a target.
#[cycle(expression)]
fn target_height(target: &TypedTarget) -> u32
    ensures { result ≡ min (height_of_target (target_view target.now)) 4294967295 }
{
    match target {
        TypedTarget::Stored { reference, .. } => reference_height(reference),
        TypedTarget::Sent { .. } => 1,
    }
}

// The height of a call with these arguments.
#[cycle(expression)]
#[tactic(auto, using(crate::proofs::Heights::arguments_count))]
fn call_height(arguments: &[TypedExpression]) -> u32
    ensures { result ≡ min (1 + count_of_arguments (arguments_view arguments.now)
        + height_of_arguments (arguments_view arguments.now)) 4294967295 }
{
    arguments_height(arguments)
        .saturating_add(capped_count(arguments.len()))
        .saturating_add(1)
}

// The height of the highest argument, 0 if there are none.
#[cycle(expression)]
#[tactic(auto, using(crate::proofs::Heights::arguments_more, crate::proofs::Heights::arguments_none))]
fn arguments_height(arguments: &[TypedExpression]) -> u32
    ensures { result ≡ min (height_of_arguments (arguments_view arguments.now)) 4294967295 }
{
    let mut height: u32 = 0;
    for argument in arguments {
        height = height.max(expression_height(argument));
    }
    height
}

// The height of the highest target.
#[tactic(auto, using(crate::proofs::Heights::targets_more, crate::proofs::Heights::targets_none))]
fn targets_height(targets: &[TypedTarget]) -> u32
    ensures { result ≡ min (height_of_targets (map target_view targets.now)) 4294967295 }
{
    let mut height: u32 = 0;
    for target in targets {
        height = height.max(target_height(target));
    }
    height
}

// The height of an assignment.
fn assignment_height(assignment: &TypedAssignment) -> u32
    ensures { result ≡ min (max (height_of_targets (map target_view assignment.now.targets.items))
        (height_of (expression_view assignment.now.value))) 4294967295 }
{
    targets_height(assignment.targets.as_slice()).max(expression_height(&assignment.value))
}

// The height of what CALL MOVE copies.
fn move_height(moved: &TypedMove) -> u32
    ensures { result ≡ min (4 + max (height_of (expression_view moved.now.count))
        (max (height_of (expression_view moved.now.source))
        (height_of (expression_view moved.now.destination)))) 4294967295 }
{
    expression_height(&moved.count)
        .max(expression_height(&moved.source))
        .max(expression_height(&moved.destination))
        .saturating_add(4)
}

// The height of the value that RETURN gives, 0 without a value.
fn result_height(value: &Option<Box<TypedExpression>>) -> u32
    ensures { result ≡ min (height_of_optional
        (option_map (λ held. expression_view held.value) value.now)) 4294967295 }
{
    match value {
        Some(value) => expression_height(value),
        None => 0,
    }
}

// The height of a step, 0 without one.
fn step_height(step: &Option<TypedExpression>) -> u32
    ensures { result ≡ min (height_of_optional (option_map expression_view step.now)) 4294967295 }
{
    match step {
        Some(step) => expression_height(step),
        None => 0,
    }
}

// The height of the head of a loop.
fn head_height(head: &TypedHead) -> u32
    ensures { result ≡ min (height_of_head (head_view head.now)) 4294967295 }
{
    match head {
        TypedHead::While(condition) => expression_height(condition),
        TypedHead::Count(iteration) => {
            expression_height(&iteration.first)
                .max(expression_height(&iteration.last))
                .max(step_height(&iteration.step))
                .max(1)
        }
    }
}

// The height of a statement.
#[cycle(statement)]
#[tactic(auto, using(crate::specs::declared::statement::TypedStatement::the_lemmas, crate::proofs::Views::statement_rows_are))]
fn statement_height(statement: &TypedStatement) -> u32
    ensures { result ≡ min (height_of_statement (statement_view statement.now)) 4294967295 }
{
    match statement {
        TypedStatement::Label(_)
        | TypedStatement::Null
        | TypedStatement::Halt
        | TypedStatement::Goto(_) => 0,
        TypedStatement::Assignment(assignment) => assignment_height(assignment),
        TypedStatement::Call { arguments, .. } => call_height(arguments.as_slice()),
        TypedStatement::Move(moved) => move_height(moved),
        TypedStatement::Return(value) => result_height(value),
        TypedStatement::If(branch) => if_height(branch),
        TypedStatement::Do(body) => list_height(body),
        TypedStatement::Loop(turns) => head_height(&turns.head).max(list_height(&turns.body)),
        TypedStatement::Case(choice) => {
            expression_height(&choice.choice).max(statements_height(choice.body.as_slice()))
        }
    }
}

// The height of an IF.
#[cycle(statement)]
fn if_height(branch: &TypedIf) -> u32
    ensures { result ≡ min (max (height_of (expression_view branch.now.condition))
        (max (height_of_statement (statement_view branch.now.body))
        (height_of_else (else_view branch.now.otherwise)))) 4294967295 }
{
    expression_height(&branch.condition)
        .max(statement_height(&branch.body))
        .max(else_height(&branch.otherwise))
}

// The height of the statement after ELSE, 0 without one.
#[cycle(statement)]
fn else_height(otherwise: &Option<TypedStatement>) -> u32
    ensures { result ≡ min (height_of_else (else_view otherwise.now)) 4294967295 }
{
    match otherwise {
        Some(statement) => statement_height(statement),
        None => 0,
    }
}

// The height of a list of statements.
#[cycle(statement)]
fn list_height(list: &TypedList) -> u32
    ensures { result ≡ min (height_of_list (list_view list.now)) 4294967295 }
{
    statements_height(list.statements.as_slice())
}

// The height of the highest statement, 0 if there are none.
#[cycle(statement)]
#[tactic(auto, using(crate::proofs::Heights::statements_more, crate::proofs::Heights::statements_none))]
fn statements_height(statements: &[TypedStatement]) -> u32
    ensures { result ≡ min (height_of_statements (statements_view statements.now)) 4294967295 }
{
    let mut height: u32 = 0;
    for statement in statements {
        height = height.max(statement_height(statement));
    }
    height
}
