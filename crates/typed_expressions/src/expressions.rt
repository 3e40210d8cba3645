//! The typing of expressions.

ghost use Rattle.std.specs.Prelude.{map};
ghost use Rattle.trees.specs.Trees.{ListLeaf};
ghost use Rattle.trees.specs.internal.Views.{argument_trees, constant_tree, expression_tree, reference_tree, target_trees};
ghost use Rattle.typed_trees.specs.Views.{arguments_view, expression_view, object_view, subscript_view, type_view};
ghost use Rattle.typing.specs.internal.Expressions.{arguments, expression, given_reference, number_node};
ghost use Rattle.typing.specs.internal.ReferenceChecks.{destination_of, location_of, part_of, part_with_member, scalar_part};
ghost use Rattle.typing.specs.internal.Functions.{value_of};
ghost use Rattle.typing.specs.internal.StatementChecks.{destinations};
ghost use Rattle.typed_expressions.specs.internal.Given.{GivesScalar, extent_view, given, part_view};
ghost use Rattle.typing.specs.internal.Results.{Answers, Gives};
ghost use Rattle.typed_expressions.specs.internal.Views.{constants_view, destination_view, known_view};

use crate::checks::{refuse, require};
use crate::constants::{bytes_of_constants, number_of_constant};
use crate::expression_nodes;
use crate::expression_nodes::{target_of, type_of_number};
use crate::known::{Constants, Destination, Known};
use crate::members::{element_size, member_place};
use crate::references::{
    Extent, FoundPart, FoundScalar, has_location, number_of_arguments, part_of_member, port_of,
    require_writable, subscript_of, takes_subscripts, whole_part,
};
use failure::Failure;
use names::{Binding, BuiltIn, Entity};
use trees::{Constant, Expression, Reference};
use typed_trees::{
    ConstantItem, NumberOrigin, ObjectType, TypedExpression, TypedObject, TypedSubscript,
};
use typing::{Cause, Fault};

// A number, or a string that stands for one.
fn number_node(constant: &Constant) -> Result<TypedExpression, Failure<Fault>>
    ensures { Answers expression_view result (number_node (constant_tree constant.now)) }
{
    let value = number_of_constant(constant)?;
    let origin = match constant {
        Constant::Number(_) => NumberOrigin::FromDigits,
        Constant::String(_) => NumberOrigin::FromString,
    };
    Ok(expression_nodes::number(type_of_number(value), value, origin))
}

impl Known {
    // A constant list, which gets the next number and is added after the constants so far.
    fn list_node(
        &self,
        list: &[Constant],
        constants: &mut Constants,
    ) -> Result<TypedExpression, Failure<Fault>>
        ensures { Gives expression_view result (constants_view constants.new)
            (expression (known_view self.now) (ListLeaf (map constant_tree list.now))
            (constants_view constants.old)) }
    {
        let Ok(number) = u32::try_from(constants.lists.len()) else {
            return Err(Failure::Memory);
        };
        let bytes = bytes_of_constants(self.alloc, list)?;
        constants.lists.push(bytes)?;
        constants.items.push(ConstantItem::ConstantList(number))?;
        Ok(expression_nodes::list(number))
    }

    /// An expression with its types and conversions. The constant lists in it get the next numbers. Refused with its first
    /// fault.
    #[cycle(expression)]
    pub fn expression(
        &self,
        tree: &Expression,
        constants: &mut Constants,
    ) -> Result<TypedExpression, Failure<Fault>>
        ensures { Gives expression_view result (constants_view constants.new)
            (expression (known_view self.now) (expression_tree tree.now) (constants_view constants.old)) }
    {
        match tree {
            Expression::Constant(constant) => number_node(constant),
            Expression::Reference(reference) => self.value_of(reference, constants),
            Expression::Location(reference) => self.location_of(reference, constants),
            Expression::List(list) => self.list_node(list.as_slice(), constants),
            Expression::Parenthesized(inner) => self.expression(inner, constants),
            Expression::Assignment { target, value } => {
                let destination = self.destination(target, constants)?;
                let value = self.expression(value, constants)?;
                let target = target_of(destination, value.scalar());
                expression_nodes::assignment(self.alloc, target, value)
            }
            Expression::Unary(operator, operand) => {
                let operand = self.expression(operand, constants)?;
                expression_nodes::unary(self.alloc, *operator, operand)
            }
            Expression::Binary(operator, left, right) => {
                let left = self.expression(left, constants)?;
                let right = self.expression(right, constants)?;
                expression_nodes::binary(self.alloc, *operator, left, right)
            }
        }
    }

    /// Arguments or subscripts, from left to right, each with the type that it has by itself.
    #[cycle(expression)]
    pub fn arguments(
        &self,
        trees: &[Expression],
        constants: &mut Constants,
    ) -> Result<Vec<TypedExpression>, Failure<Fault>>
        ensures { Gives (λ made. arguments_view made.items) result (constants_view constants.new)
            (arguments (known_view self.now) (argument_trees trees.now) (constants_view constants.old)) }
    {
        let mut made = Vec::with_capacity(self.alloc, trees.len())?;
        for tree in trees {
            let argument = self.expression(tree, constants)?;
            made.push(argument)?;
        }
        Ok(made)
    }

    // A part of an object, once the subscript of the object is known: the element, or a member of it.
    #[cycle(expression)]
    fn part_with_member(
        &self,
        reference: &Reference,
        object: u32,
        object_type: &ObjectType,
        subscript: TypedSubscript,
        extent: Extent,
        constants: &mut Constants,
    ) -> Result<FoundPart, Failure<Fault>>
        ensures { Gives part_view result (constants_view constants.new)
            (part_with_member object (type_view object_type.now) (subscript_view subscript) (extent_view extent)
            (given self.now reference.now).member (constants_view constants.old)) }
    {
        let Some(selector) = &reference.member else {
            return Ok(whole_part(object, subscript, object_type));
        };
        let place = selector.name.place;
        let found = member_place(object_type, selector.name)?;
        let arguments = selector.arguments.as_slice();
        let count = number_of_arguments(arguments);
        require(
            takes_subscripts(extent, found.member.dimension, count),
            Cause::SubscriptMismatch,
            place,
        )?;
        let indices = self.arguments(arguments, constants)?;
        part_of_member(self.alloc, object, subscript, found, indices)
    }

    // What a reference to an object means.
    #[cycle(expression)]
    fn part_of(
        &self,
        reference: &Reference,
        number: u32,
        object: &TypedObject,
        extent: Extent,
        constants: &mut Constants,
    ) -> Result<FoundPart, Failure<Fault>>
        ensures { Gives part_view result (constants_view constants.new)
            (part_of number (object_view object.now) (extent_view extent) (given self.now reference.now)
            (constants_view constants.old)) }
    {
        let place = reference.name.place;
        let arguments = reference.arguments.as_slice();
        let count = number_of_arguments(arguments);
        require(
            takes_subscripts(extent, object.dimension, count),
            Cause::SubscriptMismatch,
            place,
        )?;
        let indices = self.arguments(arguments, constants)?;
        let stride = element_size(object)?;
        let subscript = subscript_of(self.alloc, stride, object.dimension, indices)?;
        self.part_with_member(
            reference,
            number,
            &object.object_type,
            subscript,
            extent,
            constants,
        )
    }

    // A reference to a scalar: an array without a subscript and a structure are not scalars.
    #[cycle(expression)]
    fn scalar_part(
        &self,
        reference: &Reference,
        number: u32,
        object: &TypedObject,
        constants: &mut Constants,
    ) -> Result<FoundScalar, Failure<Fault>>
        ensures { GivesScalar result (constants_view constants.new)
            (scalar_part number (object_view object.now) (given self.now reference.now)
            (constants_view constants.old)) }
    {
        let part = self.part_of(reference, number, object, Extent::AnElement, constants)?;
        let FoundPart {
            reference: found,
            scalar,
        } = part;
        match scalar {
            Some(scalar) => Ok(FoundScalar {
                reference: found,
                scalar,
            }),
            None => Err(refuse(Cause::MemberMismatch, reference.name.place)),
        }
    }

    // The location of an object or of a part of it; of an array or a structure the start.
    #[cycle(expression)]
    fn location_of(
        &self,
        reference: &Reference,
        constants: &mut Constants,
    ) -> Result<TypedExpression, Failure<Fault>>
        ensures { Gives expression_view result (constants_view constants.new)
            (location_of (known_view self.now) (given self.now reference.now) (constants_view constants.old)) }
    {
        let place = reference.name.place;
        match self.bound(reference.name)? {
            Binding::Declared(Entity::Object(number)) => {
                let object = self.object(reference.name, number)?;
                require(has_location(&object.home), Cause::NoLocation, place)?;
                let part = self.part_of(
                    reference,
                    number,
                    object,
                    Extent::AlsoTheWhole,
                    constants,
                )?;
                expression_nodes::location(self.alloc, part.reference)
            }
            Binding::Declared(Entity::Procedure(_)) => Err(refuse(Cause::NoLocation, place)),
            _ => Err(refuse(Cause::NoVariable, place)),
        }
    }

    // The destination of an assigned value: a scalar, or OUTPUT.
    #[cycle(expression)]
    fn destination(
        &self,
        target: &Reference,
        constants: &mut Constants,
    ) -> Result<Destination, Failure<Fault>>
        ensures { Gives destination_view result (constants_view constants.new)
            (destination_of (known_view self.now) (given self.now target.now) (constants_view constants.old)) }
    {
        let place = target.name.place;
        match self.bound(target.name)? {
            Binding::Declared(Entity::Object(number)) => {
                let object = self.object(target.name, number)?;
                require_writable(object, target.name)?;
                let FoundScalar { reference, scalar } = self.scalar_part(
                    target, number, object, constants,
                )?;
                Ok(Destination::Variable { scalar, reference })
            }
            Binding::BuiltInName(BuiltIn::Output) => {
                let port = port_of(place, target.arguments.as_slice())?;
                self.no_member(&target.member)?;
                Ok(Destination::Port(port))
            }
            _ => Err(refuse(Cause::NoVariable, place)),
        }
    }

    // The value of a scalar, a typed procedure or a built-in function.
    #[cycle(expression)]
    fn value_of(
        &self,
        reference: &Reference,
        constants: &mut Constants,
    ) -> Result<TypedExpression, Failure<Fault>>
        ensures { Gives expression_view result (constants_view constants.new)
            (value_of (known_view self.now) (given self.now reference.now) (constants_view constants.old)) }
    {
        match self.bound(reference.name)? {
            Binding::Declared(Entity::Object(number)) => {
                let object = self.object(reference.name, number)?;
                let found = self.scalar_part(reference, number, object, constants)?;
                expression_nodes::value(self.alloc, found.scalar, found.reference)
            }
            Binding::Declared(Entity::Procedure(number)) => {
                let procedure = self.procedure(reference.name, number)?;
                self.call_of(reference, number, procedure, constants)
            }
            Binding::BuiltInName(built_in) => self.built_in_value(reference, built_in, constants),
            _ => Err(refuse(Cause::NoVariable, reference.name.place)),
        }
    }
}

impl Known {
    /// The targets of an assignment, from left to right: scalars without DATA, and OUTPUT of ports.
    pub fn destinations(
        &self,
        first: &Reference,
        others: &[Reference],
        constants: &mut Constants,
    ) -> Result<Vec<Destination>, Failure<Fault>>
        ensures { Gives (λ made. map destination_view made.items) result (constants_view constants.new)
            (destinations (known_view self.now) (target_trees first.now others.now)
            (constants_view constants.old)) }
    {
        let mut made = Vec::new(self.alloc);
        let place = self.destination(first, constants)?;
        made.push(place)?;
        for target in others {
            let place = self.destination(target, constants)?;
            made.push(place)?;
        }
        Ok(made)
    }
}
