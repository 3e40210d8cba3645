//! Making typed statements.

ghost use Rattle.std.specs.Prelude.{◌≡◌, map, Ok};
ghost use Rattle.std.specs.Option.{option_map};
ghost use Rattle.typed_trees.specs.TypedTrees.{AssignmentStatement, CallStatement, MoveStatement, ReturnStatement};
ghost use Rattle.typed_trees.specs.TypedTrees.{IfStatement, DoStatement, LoopStatement, CaseStatement};
ghost use Rattle.typed_trees.specs.Views.{expression_view, target_view, arguments_view, statement_view};
ghost use Rattle.typed_trees.specs.Views.{head_view, else_view, list_view, statements_view};
ghost use Rattle.typing.specs.internal.Results.{Answers};

use failure::Failure;
use std::alloc::Global;
use typed_trees::{
    TypedAssignment, TypedCase, TypedExpression, TypedHead, TypedIf, TypedList, TypedLoop,
    TypedMove, TypedStatement, TypedTarget,
};
use typing::Fault;

/// Targets and the value that all of them get.
pub(crate) fn assignment(
    alloc: Global,
    targets: Vec<TypedTarget>,
    value: TypedExpression,
) -> Result<TypedStatement, Failure<Fault>>
    ensures view { Answers statement_view result
        (Ok (AssignmentStatement (map target_view targets.items) (expression_view value))) }
{
    let assignment = Box::new(alloc, TypedAssignment { targets, value })?;
    Ok(TypedStatement::Assignment(assignment))
}

/// A call of a procedure without a result.
pub(crate) fn call(procedure: u32, arguments: Vec<TypedExpression>) -> TypedStatement
    ensures view { statement_view result ≡ CallStatement procedure (arguments_view arguments.items) }
{
    TypedStatement::Call {
        procedure,
        arguments,
    }
}

/// CALL MOVE.
pub(crate) fn copying(alloc: Global, copied: TypedMove) -> Result<TypedStatement, Failure<Fault>>
    ensures view { Answers statement_view result (Ok (MoveStatement (expression_view copied.count)
        (expression_view copied.source) (expression_view copied.destination))) }
{
    Ok(TypedStatement::Move(Box::new(alloc, copied)?))
}

/// RETURN, and a value, if there is one.
pub(crate) fn return_value(
    alloc: Global,
    value: Option<TypedExpression>,
) -> Result<TypedStatement, Failure<Fault>>
    ensures view { Answers statement_view result (Ok (ReturnStatement (option_map expression_view value))) }
{
    let value = match value {
        Some(expression) => Some(Box::new(alloc, expression)?),
        None => None,
    };
    Ok(TypedStatement::Return(value))
}

/// IF a condition THEN a statement ELSE another, if there is one.
pub(crate) fn conditional(
    alloc: Global,
    condition: TypedExpression,
    body: TypedStatement,
    other: Option<TypedStatement>,
) -> Result<TypedStatement, Failure<Fault>>
    ensures view { Answers statement_view result
        (Ok (IfStatement (expression_view condition) (statement_view body) (else_view other))) }
{
    let chosen = TypedIf {
        condition,
        body,
        otherwise: other,
    };
    Ok(TypedStatement::If(Box::new(alloc, chosen)?))
}

/// A simple DO.
#[tactic(auto, using(typed_trees::specs::declared::statement::TypedStatement::the_lemmas, typed_trees::proofs::Views::statement_rows_are))]
pub(crate) fn block(alloc: Global, body: TypedList) -> Result<TypedStatement, Failure<Fault>>
    ensures view { Answers statement_view result (Ok (DoStatement (list_view body))) }
{
    Ok(TypedStatement::Do(Box::new(alloc, body)?))
}

/// DO WHILE or an iterative DO, by its head.
#[tactic(auto, using(typed_trees::specs::declared::statement::TypedStatement::the_lemmas, typed_trees::proofs::Views::statement_rows_are))]
pub(crate) fn do_loop(
    alloc: Global,
    head: TypedHead,
    body: TypedList,
) -> Result<TypedStatement, Failure<Fault>>
    ensures view { Answers statement_view result (Ok (LoopStatement (head_view head) (list_view body))) }
{
    let turns = TypedLoop { head, body };
    Ok(TypedStatement::Loop(Box::new(alloc, turns)?))
}

/// DO CASE a number.
#[tactic(auto, using(typed_trees::specs::declared::statement::TypedStatement::the_lemmas, typed_trees::proofs::Views::statement_rows_are))]
pub(crate) fn case(
    alloc: Global,
    choice: TypedExpression,
    body: Vec<TypedStatement>,
) -> Result<TypedStatement, Failure<Fault>>
    ensures view { Answers statement_view result
        (Ok (CaseStatement (expression_view choice) (statements_view body.items))) }
{
    let cases = TypedCase { choice, body };
    Ok(TypedStatement::Case(Box::new(alloc, cases)?))
}
