//! What references to objects mean.

ghost use Rattle.std.specs.Prelude.{◌≡◌, None, Ok, IfOk, IfSome, IfNone};
ghost use Rattle.trees.specs.Trees.{MoreArguments, NoArguments};
ghost use Rattle.trees.specs.internal.Views.{argument_trees, expression_tree};
ghost use Rattle.typed_trees.specs.Views.{arguments_view, home_view, object_view, subscript_view, type_view};
ghost use Rattle.typing.specs.References.{number_of_arguments, has_location as located, is_constant as constant, scalar_of as scalar_in};
ghost use Rattle.typing.specs.internal.ReferenceChecks.{takes_subscripts as do_take, subscript_of as subscript_for, whole_part as whole, is_writable, port_from, port_of, port_of_character as character_port, without_member};
ghost use Rattle.typed_expressions.specs.internal.Given.{extent_view, given_selector, member_part, only_tree, part_view, place_view};
ghost use Rattle.typing.specs.internal.Results.{Answers};

use crate::checks::{refuse, require};
use crate::expression_nodes::boxed_as_type;
use crate::known::Known;
use crate::members::MemberPlace;
use failure::Failure;
use std::alloc::{AllocError, Global};
use trees::{Constant, Expression, Identifier, Place, ScalarType, Selector};
use typed_trees::{Home, ObjectType, TypedExpression, TypedObject, TypedReference, TypedSubscript};
use typing::{Cause, Fault};

/// How much of an array a reference means: an element alone, or also the whole, if it has no subscript.
#[derive(Clone, Copy)]
pub(crate) enum Extent {
    AnElement,
    AlsoTheWhole,
}

/// A part of an object, with its type if it is a scalar or an array of scalars.
#[derive(Drop)]
pub(crate) struct FoundPart {
    pub(crate) reference: TypedReference,
    pub(crate) scalar: Option<ScalarType>,
}

/// A scalar, with its type.
#[derive(Drop)]
pub(crate) struct FoundScalar {
    pub(crate) reference: TypedReference,
    pub(crate) scalar: ScalarType,
}

/// Whether `count` subscripts go with a dimension.
pub(crate) fn takes_subscripts(extent: Extent, dimension: Option<u16>, count: usize) -> bool
    ensures { result ≡ do_take (extent_view extent) dimension count }
{
    match (dimension, extent) {
        (None, _) => count == 0,
        (Some(_), Extent::AnElement) => count == 1,
        (Some(_), Extent::AlsoTheWhole) => count <= 1,
    }
}

/// The subscript of an array, as an ADDRESS; an object that is not an array has no subscript.
#[tactic(auto, using(crate::proofs::Subscripts::several_indices))]
pub(crate) fn subscript_of(
    alloc: Global,
    stride: u32,
    dimension: Option<u16>,
    indices: Vec<TypedExpression>,
) -> Result<TypedSubscript, AllocError>
    ensures { IfOk result (λ made. subscript_view made
        ≡ subscript_for stride dimension (arguments_view indices.items)) }
{
    let mut indices = indices;
    let Some(count) = dimension else {
        return Ok(TypedSubscript::Absent);
    };
    if indices.len() > 1 {
        return Ok(TypedSubscript::Absent);
    }
    let Some(index) = indices.pop() else {
        return Ok(TypedSubscript::Absent);
    };
    let index = boxed_as_type(alloc, index, ScalarType::Address)?;
    Ok(TypedSubscript::Present {
        stride,
        count: u32::from(count),
        index,
    })
}

// The type of a scalar; a structure has none.
fn scalar_of(object_type: &ObjectType) -> Option<ScalarType>
    ensures { result ≡ scalar_in (type_view object_type.now) }
{
    match object_type {
        ObjectType::Scalar(scalar) => Some(*scalar),
        ObjectType::Structure(_) => None,
    }
}

/// An object, or an element of it.
pub(crate) fn whole_part(
    object: u32,
    subscript: TypedSubscript,
    object_type: &ObjectType,
) -> FoundPart
    ensures { part_view result ≡ whole object (subscript_view subscript) (type_view object_type.now) }
{
    FoundPart {
        reference: TypedReference {
            object,
            subscript,
            member: None,
            offset: 0,
            member_subscript: TypedSubscript::Absent,
        },
        scalar: scalar_of(object_type),
    }
}

/// A member of an object, or of an element of it.
pub(crate) fn part_of_member(
    alloc: Global,
    object: u32,
    subscript: TypedSubscript,
    place: MemberPlace,
    indices: Vec<TypedExpression>,
) -> Result<FoundPart, Failure<Fault>>
    ensures { Answers part_view result (Ok (member_part object (subscript_view subscript)
        (place_view place) (arguments_view indices.items))) }
{
    let stride = match place.member.scalar {
        ScalarType::Byte => 1,
        ScalarType::Address => 2,
    };
    let member_subscript = subscript_of(alloc, stride, place.member.dimension, indices)?;
    Ok(FoundPart {
        reference: TypedReference {
            object,
            subscript,
            member: Some(place.position),
            offset: place.offset,
            member_subscript,
        },
        scalar: Some(place.member.scalar),
    })
}

/// Whether an object lies at an address of its own.
pub(crate) fn has_location(home: &Home) -> bool
    ensures { result ≡ located (home_view home.now) }
{
    !matches!(home, Home::Frame(_))
}

// Whether an object has DATA.
fn is_constant(home: &Home) -> bool
    ensures { result ≡ constant (home_view home.now) }
{
    matches!(home, Home::Constant(_))
}

/// Checks that an object may be written to by its name: it has no DATA.
pub fn require_writable(object: &TypedObject, name: Identifier) -> Result<(), Failure<Fault>>
    ensures { Answers (λ _. tt) result (is_writable (object_view object.now) name) }
{
    require(
        !is_constant(&object.home),
        Cause::ConstantWritten,
        name.place,
    )
}

impl Known {
    /// The result of a procedure has no members.
    pub(crate) fn no_member(&self, member: &Option<Box<Selector>>) -> Result<(), Failure<Fault>>
        ensures { Answers (λ _. tt) result (without_member (given_selector self.now member.now)) }
    {
        match member {
            None => Ok(()),
            Some(selector) => Err(refuse(Cause::MemberMismatch, selector.name.place)),
        }
    }
}

// The port of a number.
fn port_from(place: Place, number: u16) -> Result<u8, Failure<Fault>>
    ensures { Answers (λ port. port) result (port_from place number) }
{
    require(number <= 255, Cause::PortTooLarge, place)?;
    Ok(number as u8)
}

// The port that a string of one character gives.
fn port_of_character(place: Place, characters: &[u8]) -> Result<u8, Failure<Fault>>
    ensures { Answers (λ port. port) result (character_port place characters.now) }
{
    match characters {
        [character] => port_from(place, *character as u16),
        _ => Err(refuse(Cause::PortNotConstant, place)),
    }
}

/// How many arguments there are.
#[tactic(auto, using(crate::proofs::GivenParts::count_of_arguments))]
pub(crate) fn number_of_arguments(arguments: &[Expression]) -> usize
    ensures { result ≡ number_of_arguments (argument_trees arguments.now) }
{
    arguments.len()
}

/// An argument that stands alone.
#[tactic(auto, using(crate::proofs::Subscripts::one_argument, crate::proofs::Subscripts::no_only))]
pub(crate) fn only(arguments: &[Expression]) -> Option<&Expression>
    ensures one { IfSome result (λ argument. argument_trees arguments.now
        ≡ MoreArguments (expression_tree argument.now) NoArguments) }
    ensures other { IfNone result (only_tree (argument_trees arguments.now) ≡ None) }
{
    if arguments.len() == 1 {
        arguments.first()
    } else {
        None
    }
}

/// The port that arguments give: a number up to 255, or a string of one character.
#[tactic(auto, using(crate::proofs::Subscripts::no_port))]
pub(crate) fn port_of(place: Place, arguments: &[Expression]) -> Result<u8, Failure<Fault>>
    ensures { Answers (λ port. port) result (port_of place (argument_trees arguments.now)) }
{
    match only(arguments) {
        Some(Expression::Constant(Constant::Number(number))) => {
            port_from(number.place, number.value)
        }
        Some(Expression::Constant(Constant::String(string))) => {
            port_of_character(place, string.characters.as_slice())
        }
        _ => Err(refuse(Cause::PortNotConstant, place)),
    }
}
