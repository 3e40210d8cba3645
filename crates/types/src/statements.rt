//! What statements need beside the statements in them.

ghost use Rattle.std.specs.Prelude.{◌≡◌, ◌==◌, [], ◌∷◌, length, map, Ok, Some, IfNone, IfOk, IfSome};
ghost use Rattle.trees.specs.declared.declaration.ScalarType.TheVariants.{Address};
ghost use Rattle.std.specs.Option.{option_map};
ghost use Rattle.trees.specs.internal.Views.{argument_trees, expression_tree, head_tree, iteration_tree, target_trees};
ghost use Rattle.names.specs.declared.entity.Binding.TheVariants.{BuiltInName, Declared};
ghost use Rattle.names.specs.declared.entity.BuiltIn.TheVariants.{Move};
ghost use Rattle.names.specs.declared.entity.Entity.TheVariants.{Object, Procedure};
ghost use Rattle.typed_trees.specs.Views.{arguments_view, expression_view, head_view, iteration_view, object_view, statement_view, target_view};
ghost use Rattle.typing.specs.internal.Expressions.{arguments};
ghost use Rattle.typing.specs.Nodes.{as_type as converted};
ghost use Rattle.typing.specs.References.{number_of_arguments};
ghost use Rattle.typing.specs.Statements.{assigned};
ghost use Rattle.typing.specs.internal.StatementChecks.{assignment, call, call_bound, counter_bound, destinations, goto, goto_bound, iteration, loop_head, moved, return_from, return_with, step, value};
ghost use Rattle.typing.specs.internal.Results.{Answers, Gives};
ghost use Rattle.types.specs.internal.Walking.{call_statement, counter_type, counter_view, given_in, targets_for};
ghost use Rattle.typed_expressions.specs.internal.Views.{constants_view, destination_view, known_view};
ghost use Rattle.types.specs.internal.Views.{owner_view, progress_view};

use crate::blocks::Owner;
use crate::checker::Checker;
use crate::statement_nodes;
use failure::Failure;
use names::{Binding, BuiltIn, Entity};
use std::alloc::{AllocError, Global};
use trees::{Assignment, Expression, Identifier, Iteration, LoopHead, Place, ScalarType, Selector};
use typed_expressions::{
    Constants, Destination, Known, as_type, refuse, require, require_writable, target_of,
};
use typed_trees::{
    Home, ObjectType, TypedExpression, TypedHead, TypedIteration, TypedMove, TypedObject,
    TypedStatement, TypedTarget,
};
use typing::{Cause, Fault};

impl Checker {
    /// An expression in a statement.
    pub(crate) fn value(&mut self, tree: &Expression) -> Result<TypedExpression, Failure<Fault>>
        ensures { Gives expression_view result (progress_view self.new)
            (value (expression_tree tree.now) (progress_view self.old)) }
    {
        self.known.expression(tree, &mut self.constants)
    }
}

// Targets of an assignment of a value of a type.
fn targets_of(
    alloc: Global,
    places: Vec<Destination>,
    from: ScalarType,
) -> Result<Vec<TypedTarget>, AllocError>
    ensures { IfOk result (λ made. map target_view made.items ≡
        targets_for (map destination_view places.items) from) }
{
    let mut targets = Vec::new(alloc);
    for place in places {
        targets.push(target_of(place, from))?;
    }
    Ok(targets)
}

// The assignment of a value to its targets.
fn assigned(
    alloc: Global,
    places: Vec<Destination>,
    source: TypedExpression,
) -> Result<TypedStatement, Failure<Fault>>
    ensures { Answers statement_view result
        (Ok (assigned (map destination_view places.items) (expression_view source))) }
{
    let targets = targets_of(alloc, places, source.scalar())?;
    statement_nodes::assignment(alloc, targets, source)
}

impl Checker {
    /// Targets, and then the value that all of them get.
    pub(crate) fn assignment(&mut self, tree: &Assignment) -> Result<TypedStatement, Failure<Fault>>
        ensures { Gives statement_view result (progress_view self.new)
            (assignment (target_trees tree.now.target tree.now.others.items)
            (expression_tree tree.now.value) (progress_view self.old)) }
    {
        let others = tree.others.as_slice();
        let places = self
            .known
            .destinations(&tree.target, others, &mut self.constants)?;
        let source = self.value(&tree.value)?;
        assigned(self.alloc, places, source)
    }
}

// The arguments of MOVE: the count of bytes, the source and the destination.
#[derive(Drop)]
struct Moving {
    count: TypedExpression,
    source: TypedExpression,
    destination: TypedExpression,
}

// Three values as the arguments of MOVE.
fn moving_of(values: Vec<TypedExpression>) -> Option<Moving>
    ensures three { IfSome result (λ moving.
        values.items ≡ moving.count ∷ moving.source ∷ moving.destination ∷ []) }
    ensures other { IfNone result (length values.items ≡ 3 → ⊥) }
{
    if values.len() != 3 {
        return None;
    }
    let mut values = values;
    let destination = values.pop()?;
    let source = values.pop()?;
    let count = values.pop()?;
    Some(Moving {
        count,
        source,
        destination,
    })
}

// The arguments of MOVE, as ADDRESSes.
fn as_addresses(alloc: Global, moving: Moving) -> Result<TypedMove, AllocError>
    ensures count { IfOk result (λ made.
        expression_view made.count ≡ converted Address (expression_view moving.count)) }
    ensures source { IfOk result (λ made.
        expression_view made.source ≡ converted Address (expression_view moving.source)) }
    ensures destination { IfOk result (λ made.
        expression_view made.destination ≡ converted Address (expression_view moving.destination)) }
{
    let count = as_type(alloc, moving.count, ScalarType::Address)?;
    let source = as_type(alloc, moving.source, ScalarType::Address)?;
    let destination = as_type(alloc, moving.destination, ScalarType::Address)?;
    Ok(TypedMove {
        count,
        source,
        destination,
    })
}

// CALL of MOVE, whose arguments are ADDRESSes.
#[tactic(auto, using(crate::proofs::Arguments::not_moved))]
fn moved(
    alloc: Global,
    place: Place,
    values: Vec<TypedExpression>,
) -> Result<TypedStatement, Failure<Fault>>
    ensures { Answers statement_view result (moved place (arguments_view values.items)) }
{
    match moving_of(values) {
        Some(moving) => statement_nodes::copying(alloc, as_addresses(alloc, moving)?),
        None => Err(refuse(Cause::ArgumentCount, place)),
    }
}

// Whether there are as many arguments as MOVE has.
#[tactic(auto, using(typed_expressions::proofs::GivenParts::count_of_arguments))]
fn are_three(trees: &[Expression]) -> bool
    ensures { result ≡ (number_of_arguments (argument_trees trees.now) == 3) }
{
    trees.len() == 3
}

// A call of a procedure of a number that the name stands for, which must be untyped.
fn untyped_call(
    known: &Known,
    number: u32,
    name: Identifier,
    trees: &[Expression],
    constants: &mut Constants,
) -> Result<TypedStatement, Failure<Fault>>
    ensures { Gives statement_view result (constants_view constants.new)
        (call_bound (known_view known.now) (Declared (Procedure number)) name
        (given_in (known_view known.now) (argument_trees trees.now)) (constants_view constants.old)) }
{
    let place = name.place;
    let procedure = known.procedure(name, number)?;
    require(procedure.result.is_none(), Cause::CallOfTyped, place)?;
    let values = known.call_arguments(procedure, place, trees, constants)?;
    Ok(statement_nodes::call(number, values))
}

// CALL of MOVE.
fn call_of_move(
    known: &Known,
    name: Identifier,
    trees: &[Expression],
    constants: &mut Constants,
) -> Result<TypedStatement, Failure<Fault>>
    ensures { Gives statement_view result (constants_view constants.new)
        (call_bound (known_view known.now) (BuiltInName Move) name
        (given_in (known_view known.now) (argument_trees trees.now)) (constants_view constants.old)) }
{
    let place = name.place;
    require(are_three(trees), Cause::ArgumentCount, place)?;
    let values = known.arguments(trees, constants)?;
    moved(known.alloc, place, values)
}

// CALL by the binding of a name: an untyped procedure, or MOVE.
fn call_bound(
    known: &Known,
    binding: Binding,
    name: Identifier,
    trees: &[Expression],
    constants: &mut Constants,
) -> Result<TypedStatement, Failure<Fault>>
    ensures { Gives statement_view result (constants_view constants.new)
        (call_bound (known_view known.now) binding name
        (given_in (known_view known.now) (argument_trees trees.now)) (constants_view constants.old)) }
{
    match binding {
        Binding::Declared(Entity::Procedure(number)) => {
            untyped_call(known, number, name, trees, constants)
        }
        Binding::BuiltInName(BuiltIn::Move) => call_of_move(known, name, trees, constants),
        _ => Err(refuse(Cause::CallOfNoProcedure, name.place)),
    }
}

impl Checker {
    /// CALL of an untyped procedure, or of MOVE.
    pub(crate) fn call(&mut self, procedure: &Selector) -> Result<TypedStatement, Failure<Fault>>
        ensures { Gives statement_view result (progress_view self.new)
            (call_statement procedure.now.name (argument_trees procedure.now.arguments.items)
            (progress_view self.old)) }
    {
        let binding = self.known.bound(procedure.name)?;
        call_bound(
            &self.known,
            binding,
            procedure.name,
            procedure.arguments.as_slice(),
            &mut self.constants,
        )
    }

    // RETURN of a value, in a procedure with a result of this type.
    fn return_value(
        &mut self,
        place: Place,
        scalar: ScalarType,
        tree: &Expression,
    ) -> Result<TypedStatement, Failure<Fault>>
        ensures { Gives statement_view result (progress_view self.new)
            (return_with place (Some scalar) (Some (expression_tree tree.now)) (progress_view self.old)) }
    {
        let typed = self.value(tree)?;
        let typed = as_type(self.alloc, typed, scalar)?;
        statement_nodes::return_value(self.alloc, Some(typed))
    }

    // RETURN in a procedure with this result.
    fn return_with(
        &mut self,
        place: Place,
        scalar: Option<ScalarType>,
        tree: &Option<Box<Expression>>,
    ) -> Result<TypedStatement, Failure<Fault>>
        ensures { Gives statement_view result (progress_view self.new)
            (return_with place scalar (option_map (λ held. expression_tree held.value) tree.now)
            (progress_view self.old)) }
    {
        match (scalar, tree) {
            (None, None) => statement_nodes::return_value(self.alloc, None),
            (Some(scalar), Some(tree)) => self.return_value(place, scalar, tree),
            _ => Err(refuse(Cause::ReturnMismatch, place)),
        }
    }

    /// RETURN, which stands in procedures, with a value exactly in typed ones.
    pub(crate) fn return_from(
        &mut self,
        place: Place,
        owner: Owner<'_>,
        tree: &Option<Box<Expression>>,
    ) -> Result<TypedStatement, Failure<Fault>>
        ensures { Gives statement_view result (progress_view self.new)
            (return_from place (owner_view owner.entry)
            (option_map (λ held. expression_tree held.value) tree.now) (progress_view self.old)) }
    {
        match owner {
            Owner::Module => Err(refuse(Cause::ReturnOutside, place)),
            Owner::Procedure { heading, .. } => self.return_with(place, heading.result, tree),
        }
    }
}

// The label that a name after GOTO is bound to.
fn goto_bound(place: Place, binding: Binding) -> Result<TypedStatement, Failure<Fault>>
    ensures { Answers statement_view result (goto_bound place binding) }
{
    match binding {
        Binding::Declared(Entity::Label(label)) => Ok(TypedStatement::Goto(label)),
        _ => Err(refuse(Cause::UnknownLabel, place)),
    }
}

impl Checker {
    /// GOTO a label that is known there.
    pub(crate) fn goto(&mut self, label: Identifier) -> Result<TypedStatement, Failure<Fault>>
        ensures { Gives statement_view result (progress_view self.new)
            (goto label (progress_view self.old)) }
    {
        goto_bound(label.place, self.known.scopes.jump(label.name))
    }
}

// The type of an object that is a variable of an iterative DO.
fn counter_type(object: &TypedObject, name: Identifier) -> Result<ScalarType, Failure<Fault>>
    ensures { Answers (λ scalar. scalar) result (counter_type (object_view object.now) name) }
{
    require_writable(object, name)?;
    require(
        object.dimension.is_none() && !matches!(object.home, Home::Based(_)),
        Cause::NoCounter,
        name.place,
    )?;
    match object.object_type {
        ObjectType::Scalar(scalar) => Ok(scalar),
        ObjectType::Structure(_) => Err(refuse(Cause::NoCounter, name.place)),
    }
}

// The variable of an iterative DO.
#[derive(Clone, Copy)]
struct Counter {
    object: u32,
    scalar: ScalarType,
}

// The object of a number, as the variable of an iterative DO.
fn counter_object(known: &Known, number: u32, name: Identifier) -> Result<Counter, Failure<Fault>>
    ensures { Answers counter_view result
        (counter_bound (known_view known.now) (Declared (Object number)) name) }
{
    let variable = name;
    let object = known.object(name, number)?;
    let scalar = counter_type(object, variable)?;
    Ok(Counter {
        object: number,
        scalar,
    })
}

// The variable of an iterative DO, from what its name is bound to.
fn counter_bound(
    known: &Known,
    binding: Binding,
    name: Identifier,
) -> Result<Counter, Failure<Fault>>
    ensures { Answers counter_view result (counter_bound (known_view known.now) binding name) }
{
    match binding {
        Binding::Declared(Entity::Object(number)) => counter_object(known, number, name),
        _ => Err(refuse(Cause::NoVariable, name.place)),
    }
}

impl Checker {
    // The step of an iterative DO, if there is one.
    fn step(&mut self, tree: &Option<Expression>) -> Result<Option<TypedExpression>, Failure<Fault>>
        ensures { Gives (option_map expression_view) result (progress_view self.new)
            (step (option_map expression_tree tree.now) (progress_view self.old)) }
    {
        match tree {
            Some(tree) => Ok(Some(self.value(tree)?)),
            None => Ok(None),
        }
    }

    // The head of an iterative DO.
    fn iteration(&mut self, tree: &Iteration) -> Result<TypedIteration, Failure<Fault>>
        ensures { Gives iteration_view result (progress_view self.new)
            (iteration (iteration_tree tree.now) (progress_view self.old)) }
    {
        let binding = self.known.bound(tree.variable)?;
        let counter = counter_bound(&self.known, binding, tree.variable)?;
        let first = self.value(&tree.first)?;
        let last = self.value(&tree.last)?;
        let step = self.step(&tree.step)?;
        Ok(TypedIteration {
            variable: counter.object,
            scalar: counter.scalar,
            first,
            last,
            step,
        })
    }

    /// The head of a loop.
    pub(crate) fn loop_head(&mut self, tree: &LoopHead) -> Result<TypedHead, Failure<Fault>>
        ensures { Gives head_view result (progress_view self.new)
            (loop_head (head_tree tree.now) (progress_view self.old)) }
    {
        match tree {
            LoopHead::While(condition) => Ok(TypedHead::While(self.value(condition)?)),
            LoopHead::Count(iteration) => Ok(TypedHead::Count(self.iteration(iteration)?)),
        }
    }
}
