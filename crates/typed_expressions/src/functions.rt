//! The results of the built-in functions.

ghost use Rattle.std.specs.Prelude.{◌≡◌, false, Ok, IfSome, IfNone};
ghost use Rattle.trees.specs.internal.Views.{argument_trees};
ghost use Rattle.typed_trees.specs.Views.{arguments_view, expression_view, object_view};
ghost use Rattle.typing.specs.internal.Functions.{function_of, measure_node as node_of_measure, measure_of, measured_member, measured_object, measurement, shift_of};
ghost use Rattle.typed_expressions.specs.internal.Given.{is_plain, measured_view, plain_tree, selector_tree};
ghost use Rattle.typing.specs.internal.Results.{Answers};
ghost use Rattle.typed_expressions.specs.internal.Views.{known_view};

use crate::checks::refuse;
use crate::expression_nodes;
use crate::expression_nodes::type_of_number;
use crate::known::Known;
use crate::members::{member_place, object_size};
use crate::references::only;
use failure::Failure;
use names::{Binding, Entity};
use std::alloc::Global;
use trees::{Expression, Identifier, Place, Reference, Selector, UnaryFunction};
use typed_trees::{Measure, NumberOrigin, ShiftFunction, TypedExpression, TypedObject};
use typing::{Cause, Fault};

// What LENGTH, LAST and SIZE measure: an object, or a member of it.
#[derive(Clone, Copy)]
struct Measured {
    object: u32,
    member: Option<u32>,
    dimension: Option<u16>,
    size: u32,
}

// An object that is measured, or a member of it, which stands there without subscripts.
#[tactic(auto, using(crate::proofs::GivenParts::no_arguments, crate::proofs::Operands::member_with_arguments))]
fn measured_member(
    number: u32,
    object: &TypedObject,
    member: &Option<Box<Selector>>,
) -> Result<Measured, Failure<Fault>>
    ensures { Answers measured_view result (measured_member number (object_view object.now)
        (selector_tree member.now)) }
{
    let Some(selector) = member else {
        return Ok(Measured {
            object: number,
            member: None,
            dimension: object.dimension,
            size: object_size(object)?,
        });
    };
    if selector.arguments.len() != 0 {
        return Err(refuse(Cause::NotMeasurable, selector.name.place));
    }
    let place = member_place(&object.object_type, selector.name)?;
    Ok(Measured {
        object: number,
        member: Some(place.position),
        dimension: place.member.dimension,
        size: place.member.size(),
    })
}

// The number that a measure is: LENGTH and LAST of an array alone.
fn measure_of(measure: Measure, measured: Measured, place: Place) -> Result<u32, Failure<Fault>>
    ensures { Answers (λ value. value) result (measure_of measure (measured_view measured) place) }
{
    match (measure, measured.dimension) {
        (Measure::Length, Some(count)) => Ok(u32::from(count)),
        (Measure::Last, Some(count)) => Ok(u32::from(count.saturating_sub(1))),
        (Measure::Length | Measure::Last, None) => Err(refuse(Cause::NotMeasurable, place)),
        (Measure::Size, _) => Ok(measured.size),
    }
}

// The number that a measure is, as an expression. Objects have at most 65535 bytes; a greater number would be answered
// with out of memory.
fn measure_node(
    measure: Measure,
    measured: Measured,
    value: u32,
) -> Result<TypedExpression, Failure<Fault>>
    ensures { Answers expression_view result (Ok (node_of_measure measure (measured_view measured) value)) }
{
    if value > 65_535 {
        return Err(Failure::Memory);
    }
    let value = value as u16;
    let origin = NumberOrigin::FromMeasure {
        measure,
        object: measured.object,
        member: measured.member,
    };
    Ok(expression_nodes::number(type_of_number(value), value, origin))
}

// A variable without subscripts that stands alone, or a member of one.
#[tactic(auto, using(crate::proofs::GivenParts::plain_is, crate::proofs::GivenParts::not_plain))]
fn plain(arguments: &[Expression]) -> Option<&Reference>
    ensures one { IfSome result (λ reference. argument_trees arguments.now ≡ plain_tree reference.now) }
    ensures other { IfNone result (is_plain (argument_trees arguments.now) ≡ false) }
{
    match only(arguments) {
        Some(Expression::Reference(reference)) => {
            if reference.arguments.len() == 0 {
                Some(reference)
            } else {
                None
            }
        }
        _ => None,
    }
}

/// LOW, HIGH or DOUBLE of one value.
#[tactic(auto, using(crate::proofs::Operands::no_operand, crate::proofs::Operands::one_operand))]
pub(crate) fn function_of(
    alloc: Global,
    function: UnaryFunction,
    place: Place,
    values: Vec<TypedExpression>,
) -> Result<TypedExpression, Failure<Fault>>
    ensures { Answers expression_view result (function_of function place (arguments_view values.items)) }
{
    let mut values = values;
    if values.len() != 1 {
        return Err(refuse(Cause::ArgumentCount, place));
    }
    let Some(operand) = values.pop() else {
        return Err(Failure::Memory);
    };
    expression_nodes::function(alloc, function, operand)
}

/// SHL, SHR, ROL or ROR of a value and a count.
#[tactic(auto, using(crate::proofs::Operands::no_pair, crate::proofs::Operands::two_operands))]
pub(crate) fn shift_of(
    alloc: Global,
    function: ShiftFunction,
    place: Place,
    values: Vec<TypedExpression>,
) -> Result<TypedExpression, Failure<Fault>>
    ensures { Answers expression_view result (shift_of function place (arguments_view values.items)) }
{
    let mut values = values;
    if values.len() != 2 {
        return Err(refuse(Cause::ArgumentCount, place));
    }
    let Some(count) = values.pop() else {
        return Err(Failure::Memory);
    };
    let Some(value) = values.pop() else {
        return Err(Failure::Memory);
    };
    expression_nodes::shift(alloc, function, value, count)
}

impl Known {
    // What a name that is measured stands for: an object, or a member of it.
    fn measured_object(
        &self,
        binding: Binding,
        name: Identifier,
        member: &Option<Box<Selector>>,
    ) -> Result<Measured, Failure<Fault>>
        ensures { Answers measured_view result (measured_object (known_view self.now) binding name
            (selector_tree member.now)) }
    {
        match binding {
            Binding::Declared(Entity::Object(number)) => {
                measured_member(number, self.object(name, number)?, member)
            }
            _ => Err(refuse(Cause::NoVariable, name.place)),
        }
    }

    /// LENGTH, LAST or SIZE of a variable, which stands there alone, without subscripts.
    #[tactic(auto, using(crate::proofs::Operands::no_measurement))]
    pub(crate) fn measurement(
        &self,
        measure: Measure,
        place: Place,
        arguments: &[Expression],
    ) -> Result<TypedExpression, Failure<Fault>>
        ensures { Answers expression_view result (measurement (known_view self.now) measure place
            (argument_trees arguments.now)) }
    {
        let Some(reference) = plain(arguments) else {
            return Err(refuse(Cause::NotMeasurable, place));
        };
        let binding = self.bound(reference.name)?;
        let measured = self.measured_object(binding, reference.name, &reference.member)?;
        let value = measure_of(measure, measured, reference.name.place)?;
        measure_node(measure, measured, value)
    }
}
