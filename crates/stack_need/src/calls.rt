//! The calls that are written in bodies.

ghost use Rattle.std.specs.Prelude.{◌≡◌, [], ◌∷◌, ◌++◌, map, option_map, IfOk, OnOk};
ghost use Rattle.typed_trees.specs.Views.{arguments_view, else_view, expression_view, head_view, list_view, reference_view, statement_view, statements_view, subscript_view, target_view};
ghost use Rattle.stack_need.specs.Calls.{calls_in, calls_in_arguments, calls_in_else, calls_in_head, calls_in_list, calls_in_optional, calls_in_reference, calls_in_statement, calls_in_statements, calls_in_subscript, calls_in_target, calls_in_targets};

use std::alloc::{AllocError, Global};
use typed_trees::{
    TypedAssignment, TypedExpression, TypedHead, TypedIf, TypedList, TypedMove, TypedReference,
    TypedStatement, TypedSubscript, TypedTarget,
};

/// The calls that are written in a body.
pub(crate) fn calls_in(alloc: Global, body: &TypedList) -> Result<Vec<u32>, AllocError>
    ensures { IfOk result (λ calls. calls.items ≡ calls_in_list (list_view body.now)) }
{
    let mut calls = Vec::new(alloc);
    list_calls(&mut calls, body)?;
    Ok(calls)
}

// Adds a call.
fn add_call(calls: &mut Vec<u32>, procedure: u32) -> Result<(), AllocError>
    ensures { OnOk result (calls.new.items ≡ calls.old.items ++ procedure ∷ []) }
{
    calls.push(procedure)?;
    Ok(())
}

// Adds the calls in an expression.
#[cycle(expression)]
#[tactic(auto, using(std::proofs::lemmas::List::append_assoc, typed_trees::specs::declared::expression::TypedExpression::the_lemmas, typed_trees::proofs::Views::argument_rows_are))]
fn expression_calls(calls: &mut Vec<u32>, expression: &TypedExpression) -> Result<(), AllocError>
    ensures { OnOk result (calls.new.items ≡ calls.old.items ++ calls_in (expression_view expression.now)) }
{
    match expression {
        TypedExpression::Number { .. } | TypedExpression::List(_) | TypedExpression::Input(_) => {
            Ok(())
        }
        TypedExpression::Value { reference, .. } | TypedExpression::Location(reference) => {
            reference_calls(calls, reference)
        }
        TypedExpression::Conversion { inner, .. } => expression_calls(calls, inner),
        TypedExpression::Assignment { target, value } => {
            expression_calls(calls, value)?;
            target_calls(calls, target)
        }
        TypedExpression::Unary { operand, .. } => expression_calls(calls, operand),
        TypedExpression::Binary { left, right, .. } => {
            expression_calls(calls, left)?;
            expression_calls(calls, right)
        }
        TypedExpression::Call {
            procedure,
            arguments,
            ..
        } => call_calls(calls, *procedure, arguments.as_slice()),
        TypedExpression::Function { operand, .. } => expression_calls(calls, operand),
        TypedExpression::Shift { value, count, .. } => {
            expression_calls(calls, value)?;
            expression_calls(calls, count)
        }
    }
}

// Adds the calls in a reference.
#[cycle(expression)]
#[tactic(auto, using(std::proofs::lemmas::List::append_assoc))]
fn reference_calls(calls: &mut Vec<u32>, reference: &TypedReference) -> Result<(), AllocError>
    ensures { OnOk result (calls.new.items ≡ calls.old.items ++ calls_in_reference
        (reference_view reference.now)) }
{
    subscript_calls(calls, &reference.subscript)?;
    subscript_calls(calls, &reference.member_subscript)
}

// Adds the calls in a subscript.
#[cycle(expression)]
fn subscript_calls(calls: &mut Vec<u32>, subscript: &TypedSubscript) -> Result<(), AllocError>
    ensures { OnOk result (calls.new.items ≡ calls.old.items ++ calls_in_subscript
        (subscript_view subscript.now)) }
{
    match subscript {
        TypedSubscript::Absent => Ok(()),
        TypedSubscript::Present { index, .. } => expression_calls(calls, index),
    }
}

// Adds the calls in a target.
#[cycle(expression)]
fn target_calls(calls: &mut Vec<u32>, target: &TypedTarget) -> Result<(), AllocError>
    ensures { OnOk result (calls.new.items ≡ calls.old.items ++ calls_in_target (target_view target.now)) }
{
    match target {
        TypedTarget::Stored { reference, .. } => reference_calls(calls, reference),
        TypedTarget::Sent { .. } => Ok(()),
    }
}

// Adds the calls in the arguments of a call, and the call.
#[cycle(expression)]
#[tactic(auto, using(std::proofs::lemmas::List::append_assoc))]
fn call_calls(
    calls: &mut Vec<u32>,
    procedure: u32,
    arguments: &[TypedExpression],
) -> Result<(), AllocError>
    ensures { OnOk result (calls.new.items
        ≡ calls.old.items ++ (calls_in_arguments (arguments_view arguments.now) ++ procedure ∷ [])) }
{
    arguments_calls(calls, arguments)?;
    add_call(calls, procedure)
}

// Adds the calls in arguments.
#[cycle(expression)]
fn arguments_calls(calls: &mut Vec<u32>, arguments: &[TypedExpression]) -> Result<(), AllocError>
    ensures { OnOk result (calls.new.items
        ≡ calls.old.items ++ calls_in_arguments (arguments_view arguments.now)) }
{
    for argument in arguments {
        expression_calls(calls, argument)?;
    }
    Ok(())
}

// Adds the calls in targets.
fn targets_calls(calls: &mut Vec<u32>, targets: &[TypedTarget]) -> Result<(), AllocError>
    ensures { OnOk result (calls.new.items
        ≡ calls.old.items ++ calls_in_targets (map target_view targets.now)) }
{
    for target in targets {
        target_calls(calls, target)?;
    }
    Ok(())
}

// Adds the calls in an assignment.
#[tactic(auto, using(std::proofs::lemmas::List::append_assoc))]
fn assignment_calls(calls: &mut Vec<u32>, assignment: &TypedAssignment) -> Result<(), AllocError>
    ensures { OnOk result (calls.new.items
        ≡ calls.old.items ++ (calls_in (expression_view assignment.now.value)
        ++ calls_in_targets (map target_view assignment.now.targets.items))) }
{
    expression_calls(calls, &assignment.value)?;
    targets_calls(calls, assignment.targets.as_slice())
}

// Adds the calls in the operands of CALL MOVE.
#[tactic(auto, using(std::proofs::lemmas::List::append_assoc))]
fn move_calls(calls: &mut Vec<u32>, moved: &TypedMove) -> Result<(), AllocError>
    ensures { OnOk result (calls.new.items
        ≡ calls.old.items ++ (calls_in (expression_view moved.now.count)
        ++ (calls_in (expression_view moved.now.source) ++ calls_in
        (expression_view moved.now.destination)))) }
{
    expression_calls(calls, &moved.count)?;
    expression_calls(calls, &moved.source)?;
    expression_calls(calls, &moved.destination)
}

// Adds the calls in the value that RETURN gives.
fn result_calls(
    calls: &mut Vec<u32>,
    value: &Option<Box<TypedExpression>>,
) -> Result<(), AllocError>
    ensures { OnOk result (calls.new.items ≡ calls.old.items ++ calls_in_optional
        (option_map (λ held. expression_view held.value) value.now)) }
{
    match value {
        Some(value) => expression_calls(calls, value),
        None => Ok(()),
    }
}

// Adds the calls in a step.
fn step_calls(calls: &mut Vec<u32>, step: &Option<TypedExpression>) -> Result<(), AllocError>
    ensures { OnOk result (calls.new.items
        ≡ calls.old.items ++ calls_in_optional (option_map expression_view step.now)) }
{
    match step {
        Some(step) => expression_calls(calls, step),
        None => Ok(()),
    }
}

// Adds the calls in the head of a loop.
#[tactic(auto, using(std::proofs::lemmas::List::append_assoc))]
fn head_calls(calls: &mut Vec<u32>, head: &TypedHead) -> Result<(), AllocError>
    ensures { OnOk result (calls.new.items ≡ calls.old.items ++ calls_in_head (head_view head.now)) }
{
    match head {
        TypedHead::While(condition) => expression_calls(calls, condition),
        TypedHead::Count(iteration) => {
            expression_calls(calls, &iteration.first)?;
            expression_calls(calls, &iteration.last)?;
            step_calls(calls, &iteration.step)
        }
    }
}

// Adds the calls in a statement.
#[cycle(statement)]
#[tactic(auto, using(std::proofs::lemmas::List::append_assoc, typed_trees::specs::declared::statement::TypedStatement::the_lemmas, typed_trees::proofs::Views::statement_rows_are))]
fn statement_calls(calls: &mut Vec<u32>, statement: &TypedStatement) -> Result<(), AllocError>
    ensures { OnOk result (calls.new.items ≡ calls.old.items ++ calls_in_statement
        (statement_view statement.now)) }
{
    match statement {
        TypedStatement::Label(_)
        | TypedStatement::Null
        | TypedStatement::Halt
        | TypedStatement::Goto(_) => Ok(()),
        TypedStatement::Assignment(assignment) => assignment_calls(calls, assignment),
        TypedStatement::Call {
            procedure,
            arguments,
        } => call_calls(calls, *procedure, arguments.as_slice()),
        TypedStatement::Move(moved) => move_calls(calls, moved),
        TypedStatement::Return(value) => result_calls(calls, value),
        TypedStatement::If(branch) => if_calls(calls, branch),
        TypedStatement::Do(body) => list_calls(calls, body),
        TypedStatement::Loop(turns) => {
            head_calls(calls, &turns.head)?;
            list_calls(calls, &turns.body)
        }
        TypedStatement::Case(choice) => {
            expression_calls(calls, &choice.choice)?;
            statements_calls(calls, choice.body.as_slice())
        }
    }
}

// Adds the calls in an IF.
#[cycle(statement)]
#[tactic(auto, using(std::proofs::lemmas::List::append_assoc))]
fn if_calls(calls: &mut Vec<u32>, branch: &TypedIf) -> Result<(), AllocError>
    ensures { OnOk result (calls.new.items
        ≡ calls.old.items ++ (calls_in (expression_view branch.now.condition)
        ++ (calls_in_statement (statement_view branch.now.body) ++ calls_in_else
        (else_view branch.now.otherwise)))) }
{
    expression_calls(calls, &branch.condition)?;
    statement_calls(calls, &branch.body)?;
    else_calls(calls, &branch.otherwise)
}

// Adds the calls in the statement after ELSE.
#[cycle(statement)]
fn else_calls(calls: &mut Vec<u32>, otherwise: &Option<TypedStatement>) -> Result<(), AllocError>
    ensures { OnOk result (calls.new.items ≡ calls.old.items ++ calls_in_else (else_view otherwise.now)) }
{
    match otherwise {
        Some(statement) => statement_calls(calls, statement),
        None => Ok(()),
    }
}

// Adds the calls in a list of statements.
#[cycle(statement)]
fn list_calls(calls: &mut Vec<u32>, list: &TypedList) -> Result<(), AllocError>
    ensures { OnOk result (calls.new.items ≡ calls.old.items ++ calls_in_list (list_view list.now)) }
{
    statements_calls(calls, list.statements.as_slice())
}

// Adds the calls in statements.
#[cycle(statement)]
fn statements_calls(calls: &mut Vec<u32>, statements: &[TypedStatement]) -> Result<(), AllocError>
    ensures { OnOk result (calls.new.items
        ≡ calls.old.items ++ calls_in_statements (statements_view statements.now)) }
{
    for statement in statements {
        statement_calls(calls, statement)?;
    }
    Ok(())
}
