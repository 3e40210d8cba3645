//! Calls of procedures and of built-in functions.

ghost use Rattle.std.specs.Prelude.{◌≡◌, IfOk, Ok, slice_get};
ghost use Rattle.trees.specs.internal.Views.{argument_trees};
ghost use Rattle.typed_trees.specs.Views.{arguments_view, expression_view, procedure_view};
ghost use Rattle.typing.specs.internal.Expressions.{arguments};
ghost use Rattle.typing.specs.internal.Functions.{built_in_value, call_arguments, call_of, input_value, number_of_variable, shift_function, unary_function};
ghost use Rattle.typing.specs.Nodes.{arguments_as as converted};
ghost use Rattle.typed_expressions.specs.internal.Given.{as_given, given};
ghost use Rattle.typing.specs.internal.Results.{Answers, Gives};
ghost use Rattle.typed_expressions.specs.internal.Views.{constants_view, known_view};

use crate::checks::{refuse, require};
use crate::expression_nodes;
use crate::expression_nodes::as_type;
use crate::functions::{function_of, shift_of};
use crate::known::{Constants, Known};
use crate::references::{number_of_arguments, port_of};
use failure::Failure;
use names::BuiltIn;
use std::alloc::{AllocError, Global};
use trees::{Expression, Place, Reference, ScalarType, UnaryFunction};
use typed_trees::{Measure, ShiftFunction, TypedExpression, TypedProcedure};
use typing::{Cause, Fault};

// A value as one of a type, if one is given.
fn as_optional(
    alloc: Global,
    scalar: Option<ScalarType>,
    value: TypedExpression,
) -> Result<TypedExpression, AllocError>
    ensures { IfOk result (λ made. expression_view made
        ≡ as_given scalar (expression_view value)) }
{
    match scalar {
        Some(scalar) => as_type(alloc, value, scalar),
        None => Ok(value),
    }
}

// The type of a parameter, if there is one of that number.
fn scalar_at(scalars: &[ScalarType], number: usize) -> Option<ScalarType>
    ensures { result ≡ slice_get scalars.now number }
{
    match scalars.get(number) {
        Some(scalar) => Some(*scalar),
        None => None,
    }
}

// Arguments as values of types, one for each.
fn arguments_as(
    alloc: Global,
    scalars: &[ScalarType],
    values: Vec<TypedExpression>,
) -> Result<Vec<TypedExpression>, Failure<Fault>>
    ensures { Answers (λ made. arguments_view made.items) result
        (Ok (converted scalars.now (arguments_view values.items))) }
{
    let mut made = Vec::with_capacity(alloc, values.len())?;
    for value in values {
        let value = as_optional(alloc, scalar_at(scalars, made.len()), value)?;
        made.push(value)?;
    }
    Ok(made)
}

impl Known {
    /// The arguments of a call, as many as there are parameters, and as values of their types. Another number of arguments
    /// is refused, at the place of the call.
    #[cycle(expression)]
    pub fn call_arguments(
        &self,
        procedure: &TypedProcedure,
        place: Place,
        trees: &[Expression],
        constants: &mut Constants,
    ) -> Result<Vec<TypedExpression>, Failure<Fault>>
        ensures { Gives (λ made. arguments_view made.items) result (constants_view constants.new)
            (call_arguments (procedure_view procedure.now) place
            (record {
              trees = argument_trees trees.now;
              typed = arguments (known_view self.now) (argument_trees trees.now);
            }) (constants_view constants.old)) }
    {
        let scalars = procedure.parameter_types.as_slice();
        require(
            number_of_arguments(trees) == scalars.len(),
            Cause::ArgumentCount,
            place,
        )?;
        let typed = self.arguments(trees, constants)?;
        arguments_as(self.alloc, scalars, typed)
    }

    /// A call of a typed procedure.
    #[cycle(expression)]
    pub(crate) fn call_of(
        &self,
        reference: &Reference,
        number: u32,
        procedure: &TypedProcedure,
        constants: &mut Constants,
    ) -> Result<TypedExpression, Failure<Fault>>
        ensures { Gives expression_view result (constants_view constants.new)
            (call_of number (procedure_view procedure.now) (given self.now reference.now)
            (constants_view constants.old)) }
    {
        let place = reference.name.place;
        let Some(scalar) = procedure.result else {
            return Err(refuse(Cause::ValueOfUntyped, place));
        };
        let typed = self.call_arguments(
            procedure,
            place,
            reference.arguments.as_slice(),
            constants,
        )?;
        self.no_member(&reference.member)?;
        Ok(expression_nodes::call(number, scalar, typed))
    }

    // A built-in function of one value.
    #[cycle(expression)]
    fn unary_function(
        &self,
        reference: &Reference,
        function: UnaryFunction,
        constants: &mut Constants,
    ) -> Result<TypedExpression, Failure<Fault>>
        ensures { Gives expression_view result (constants_view constants.new)
            (unary_function function (given self.now reference.now) (constants_view constants.old)) }
    {
        let place = reference.name.place;
        let arguments = reference.arguments.as_slice();
        require(
            number_of_arguments(arguments) == 1,
            Cause::ArgumentCount,
            place,
        )?;
        let typed = self.arguments(arguments, constants)?;
        self.no_member(&reference.member)?;
        function_of(self.alloc, function, place, typed)
    }

    // SHL, SHR, ROL and ROR of a value and a count.
    #[cycle(expression)]
    fn shift_function(
        &self,
        reference: &Reference,
        function: ShiftFunction,
        constants: &mut Constants,
    ) -> Result<TypedExpression, Failure<Fault>>
        ensures { Gives expression_view result (constants_view constants.new)
            (shift_function function (given self.now reference.now) (constants_view constants.old)) }
    {
        let place = reference.name.place;
        let arguments = reference.arguments.as_slice();
        require(
            number_of_arguments(arguments) == 2,
            Cause::ArgumentCount,
            place,
        )?;
        let typed = self.arguments(arguments, constants)?;
        self.no_member(&reference.member)?;
        shift_of(self.alloc, function, place, typed)
    }

    // INPUT of a port.
    fn input_value(
        &self,
        reference: &Reference,
        constants: &Constants,
    ) -> Result<TypedExpression, Failure<Fault>>
        ensures { Gives expression_view result (constants_view constants.now)
            (input_value (given self.now reference.now) (constants_view constants.now)) }
    {
        let port = port_of(reference.name.place, reference.arguments.as_slice())?;
        self.no_member(&reference.member)?;
        Ok(expression_nodes::input(port))
    }

    // LENGTH, LAST or SIZE of a variable.
    fn number_of_variable(
        &self,
        reference: &Reference,
        measure: Measure,
        constants: &Constants,
    ) -> Result<TypedExpression, Failure<Fault>>
        ensures { Gives expression_view result (constants_view constants.now)
            (number_of_variable (known_view self.now) measure (given self.now reference.now)
            (constants_view constants.now)) }
    {
        let place = reference.name.place;
        let node = self.measurement(measure, place, reference.arguments.as_slice())?;
        self.no_member(&reference.member)?;
        Ok(node)
    }

    /// A built-in function. OUTPUT and MOVE give no value.
    #[cycle(expression)]
    pub(crate) fn built_in_value(
        &self,
        reference: &Reference,
        built_in: BuiltIn,
        constants: &mut Constants,
    ) -> Result<TypedExpression, Failure<Fault>>
        ensures { Gives expression_view result (constants_view constants.new)
            (built_in_value (known_view self.now) built_in (given self.now reference.now)
            (constants_view constants.old)) }
    {
        match built_in {
            BuiltIn::Input => self.input_value(reference, constants),
            BuiltIn::Unary(function) => self.unary_function(reference, function, constants),
            BuiltIn::Length => self.number_of_variable(reference, Measure::Length, constants),
            BuiltIn::Last => self.number_of_variable(reference, Measure::Last, constants),
            BuiltIn::Size => self.number_of_variable(reference, Measure::Size, constants),
            BuiltIn::ShiftLeft => self.shift_function(
                reference,
                ShiftFunction::ShiftLeft,
                constants,
            ),
            BuiltIn::ShiftRight => self.shift_function(
                reference,
                ShiftFunction::ShiftRight,
                constants,
            ),
            BuiltIn::RotateLeft => self.shift_function(
                reference,
                ShiftFunction::RotateLeft,
                constants,
            ),
            BuiltIn::RotateRight => self.shift_function(
                reference,
                ShiftFunction::RotateRight,
                constants,
            ),
            BuiltIn::Output | BuiltIn::Move => {
                Err(refuse(Cause::ValueOfUntyped, reference.name.place))
            }
        }
    }
}
