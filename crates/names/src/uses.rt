//! Uses of names in expressions.

ghost use Rattle.trees.specs.internal.Views.{argument_trees, expression_tree, head_tree, item_tree, iteration_tree, reference_tree, restricted_tree, subject_tree, target_trees};
ghost use Rattle.std.specs.Prelude.{[], ◌∷◌, ◌++◌, map};
ghost use Rattle.std.specs.List.{flat_map};
ghost use Rattle.std.specs.Option.{option_map};
ghost use Rattle.names.specs.internal.Uses.{names_in_arguments, names_in_bounds, names_in_expression, names_in_head, names_in_item, names_in_iteration, names_in_optional, names_in_reference, names_in_restricted, names_in_subject};
ghost use Rattle.names.specs.internal.BindingWalks.{Does, bound_at};

use crate::{Binding, Fault, Scopes};
use failure::Failure;
use trees::{
    Assignment, Expression, Identifier, Item, Iteration, LoopHead, Origin, Reference, Restricted,
    Selector, Subject,
};

/// Binds a name.
#[tactic(auto, using(crate::proofs::BindingWalks::bound_known, crate::proofs::BindingWalks::bound_unknown))]
pub(crate) fn bind_name(
    scopes: &Scopes,
    name: Identifier,
    bindings: &mut Vec<Binding>,
) -> Result<(), Failure<Fault>>
    ensures { Does result bindings.new.items (bound_at scopes.now (name ∷ []) bindings.old.items) }
{
    match scopes.binding(name.name) {
        Some(binding) => {
            bindings.push(binding)?;
            Ok(())
        }
        None => Err(Failure::Fault(Fault::Unknown { place: name.place })),
    }
}

/// Binds the names in an expression.
#[cycle(uses)]
pub(crate) fn bind_expression(
    scopes: &Scopes,
    expression: &Expression,
    bindings: &mut Vec<Binding>,
) -> Result<(), Failure<Fault>>
    ensures { Does result bindings.new.items
        (bound_at scopes.now (names_in_expression (expression_tree expression.now)) bindings.old.items) }
{
    match expression {
        Expression::Constant(_) | Expression::List(_) => Ok(()),
        Expression::Reference(reference) | Expression::Location(reference) => {
            bind_reference(scopes, reference, bindings)
        }
        Expression::Parenthesized(inner) => bind_expression(scopes, inner, bindings),
        Expression::Assignment { target, value } => {
            bind_reference(scopes, target, bindings)?;
            bind_expression(scopes, value, bindings)
        }
        Expression::Unary(_, operand) => bind_expression(scopes, operand, bindings),
        Expression::Binary(_, left, right) => {
            bind_expression(scopes, left, bindings)?;
            bind_expression(scopes, right, bindings)
        }
    }
}

/// Binds the names in a reference.
#[cycle(uses)]
pub(crate) fn bind_reference(
    scopes: &Scopes,
    reference: &Reference,
    bindings: &mut Vec<Binding>,
) -> Result<(), Failure<Fault>>
    ensures { Does result bindings.new.items
        (bound_at scopes.now (names_in_reference (reference_tree reference.now)) bindings.old.items) }
{
    bind_name(scopes, reference.name, bindings)?;
    bind_arguments(scopes, reference.arguments.as_slice(), bindings)?;
    match &reference.member {
        Some(member) => bind_arguments(scopes, member.arguments.as_slice(), bindings),
        None => Ok(()),
    }
}

/// Binds the names in arguments.
#[cycle(uses)]
pub(crate) fn bind_arguments(
    scopes: &Scopes,
    arguments: &[Expression],
    bindings: &mut Vec<Binding>,
) -> Result<(), Failure<Fault>>
    ensures { Does result bindings.new.items
        (bound_at scopes.now (names_in_arguments (argument_trees arguments.now)) bindings.old.items) }
{
    for argument in arguments {
        bind_expression(scopes, argument, bindings)?;
    }
    Ok(())
}

/// Binds the names in an expression, if there is one.
pub(crate) fn bind_optional(
    scopes: &Scopes,
    expression: &Option<Box<Expression>>,
    bindings: &mut Vec<Binding>,
) -> Result<(), Failure<Fault>>
    ensures { Does result bindings.new.items
        (bound_at scopes.now (names_in_optional names_in_expression (option_map
        (λ held. expression_tree held.value) expression.now)) bindings.old.items) }
{
    match expression {
        Some(expression) => bind_expression(scopes, expression, bindings),
        None => Ok(()),
    }
}

/// Binds the name and the arguments of a call.
pub(crate) fn bind_call(
    scopes: &Scopes,
    procedure: &Selector,
    bindings: &mut Vec<Binding>,
) -> Result<(), Failure<Fault>>
    ensures { Does result bindings.new.items
        (bound_at scopes.now (procedure.now.name ∷ names_in_arguments
        (argument_trees procedure.now.arguments.items)) bindings.old.items) }
{
    bind_name(scopes, procedure.name, bindings)?;
    bind_arguments(scopes, procedure.arguments.as_slice(), bindings)
}

/// Binds the names in targets.
pub(crate) fn bind_targets(
    scopes: &Scopes,
    targets: &[Reference],
    bindings: &mut Vec<Binding>,
) -> Result<(), Failure<Fault>>
    ensures { Does result bindings.new.items
        (bound_at scopes.now (flat_map names_in_reference (map reference_tree targets.now))
        bindings.old.items) }
{
    for target in targets {
        bind_reference(scopes, target, bindings)?;
    }
    Ok(())
}

/// Binds the names in an assignment.
pub(crate) fn bind_assignment(
    scopes: &Scopes,
    assignment: &Assignment,
    bindings: &mut Vec<Binding>,
) -> Result<(), Failure<Fault>>
    ensures { Does result bindings.new.items
        (bound_at scopes.now (flat_map names_in_reference
        (target_trees assignment.now.target assignment.now.others.items) ++ names_in_expression
        (expression_tree assignment.now.value)) bindings.old.items) }
{
    bind_reference(scopes, &assignment.target, bindings)?;
    bind_targets(scopes, assignment.others.as_slice(), bindings)?;
    bind_expression(scopes, &assignment.value, bindings)
}

/// Binds the names in the step of an iterative DO, if there is one.
fn bind_step(
    scopes: &Scopes,
    step: &Option<Expression>,
    bindings: &mut Vec<Binding>,
) -> Result<(), Failure<Fault>>
    ensures { Does result bindings.new.items
        (bound_at scopes.now (names_in_optional names_in_expression
        (option_map expression_tree step.now)) bindings.old.items) }
{
    match step {
        Some(step) => bind_expression(scopes, step, bindings),
        None => Ok(()),
    }
}

/// Binds the names in the bounds and the step of an iterative DO.
fn bind_bounds(
    scopes: &Scopes,
    iteration: &Iteration,
    bindings: &mut Vec<Binding>,
) -> Result<(), Failure<Fault>>
    ensures { Does result bindings.new.items
        (bound_at scopes.now (names_in_bounds (iteration_tree iteration.now)) bindings.old.items) }
{
    bind_expression(scopes, &iteration.first, bindings)?;
    bind_expression(scopes, &iteration.last, bindings)?;
    bind_step(scopes, &iteration.step, bindings)
}

/// Binds the names in the head of an iterative DO.
fn bind_iteration(
    scopes: &Scopes,
    iteration: &Iteration,
    bindings: &mut Vec<Binding>,
) -> Result<(), Failure<Fault>>
    ensures { Does result bindings.new.items
        (bound_at scopes.now (names_in_iteration (iteration_tree iteration.now)) bindings.old.items) }
{
    bind_name(scopes, iteration.variable, bindings)?;
    bind_bounds(scopes, iteration, bindings)
}

/// Binds the names in the head of a loop.
pub(crate) fn bind_head(
    scopes: &Scopes,
    head: &LoopHead,
    bindings: &mut Vec<Binding>,
) -> Result<(), Failure<Fault>>
    ensures { Does result bindings.new.items
        (bound_at scopes.now (names_in_head (head_tree head.now)) bindings.old.items) }
{
    match head {
        LoopHead::While(condition) => bind_expression(scopes, condition, bindings),
        LoopHead::Count(iteration) => bind_iteration(scopes, iteration, bindings),
    }
}

/// Binds the name in a restricted expression, if there is one.
pub(crate) fn bind_restricted(
    scopes: &Scopes,
    restricted: &Restricted,
    bindings: &mut Vec<Binding>,
) -> Result<(), Failure<Fault>>
    ensures { Does result bindings.new.items
        (bound_at scopes.now (names_in_restricted (restricted_tree restricted.now)) bindings.old.items) }
{
    match &restricted.origin {
        Origin::Constant(_) => Ok(()),
        Origin::Location(name) => bind_name(scopes, *name, bindings),
    }
}

/// Binds the names in the values of INITIAL or DATA.
pub(crate) fn bind_values(
    scopes: &Scopes,
    values: &[Restricted],
    bindings: &mut Vec<Binding>,
) -> Result<(), Failure<Fault>>
    ensures { Does result bindings.new.items
        (bound_at scopes.now (flat_map names_in_restricted (map restricted_tree values.now))
        bindings.old.items) }
{
    for value in values {
        bind_restricted(scopes, value, bindings)?;
    }
    Ok(())
}

/// Binds the name after BASED, if there is one.
pub(crate) fn bind_base(
    scopes: &Scopes,
    subject: &Subject,
    bindings: &mut Vec<Binding>,
) -> Result<(), Failure<Fault>>
    ensures { Does result bindings.new.items
        (bound_at scopes.now (names_in_subject (subject_tree subject.now)) bindings.old.items) }
{
    match subject {
        Subject::Single {
            base: Some(base),
            ..
        } => bind_name(scopes, *base, bindings),
        _ => Ok(()),
    }
}

/// Binds the names that an item uses.
pub(crate) fn bind_item(
    scopes: &Scopes,
    item: &Item,
    bindings: &mut Vec<Binding>,
) -> Result<(), Failure<Fault>>
    ensures { Does result bindings.new.items
        (bound_at scopes.now (names_in_item (item_tree item.now)) bindings.old.items) }
{
    bind_base(scopes, &item.subject, bindings)?;
    if let Some(at) = &item.at {
        bind_restricted(scopes, &at.address, bindings)?;
    }
    match &item.value_list {
        Some(list) => bind_values(scopes, list.values.as_slice(), bindings),
        None => Ok(()),
    }
}
