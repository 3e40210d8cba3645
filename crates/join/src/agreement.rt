//! Whether two declarations of a name agree.

ghost use Rattle.std.specs.Prelude.{◌≡◌, ◌&&◌};
ghost use Rattle.typed_trees.specs.Views.{object_view, procedure_view, type_view};
ghost use Rattle.layout.specs.Joined.{DeclaredObject, DeclaredProcedure, agree, same_dimension, same_members, same_parameters, same_result, same_scalar, same_type};

use trees::ScalarType;
use typed_trees::{Members, ObjectType, TypedMember, TypedObject, TypedProcedure};

// Whether two types of scalars are one.
fn same_scalar(left: ScalarType, right: ScalarType) -> bool
    ensures { result ≡ same_scalar left right }
{
    match (left, right) {
        (ScalarType::Byte, ScalarType::Byte) => true,
        (ScalarType::Address, ScalarType::Address) => true,
        _ => false,
    }
}

// Whether both are arrays of as many elements, or neither is an array.
fn same_dimension(left: Option<u16>, right: Option<u16>) -> bool
    ensures { result ≡ same_dimension left right }
{
    match (left, right) {
        (None, None) => true,
        (Some(left), Some(right)) => left == right,
        _ => false,
    }
}

// Whether two members agree, whatever their names.
fn same_member(left: TypedMember, right: TypedMember) -> bool
    ensures { result ≡ same_scalar left.scalar right.scalar && same_dimension left.dimension right.dimension }
{
    same_scalar(left.scalar, right.scalar) && same_dimension(left.dimension, right.dimension)
}

// Whether two structures have the same members by their positions.
#[tactic(auto, using(crate::proofs::SameLists::members_next, crate::proofs::SameLists::members_differ, crate::proofs::SameLists::members_short, crate::proofs::SameLists::members_missing, crate::proofs::SameLists::members_end, crate::proofs::SameLists::members_within))]
fn same_members(left: &Members, right: &Members) -> bool
    ensures { result ≡ same_members left.now right.now }
{
    for position in 0..left.len() {
        match (left.get(position), right.get(position)) {
            (Some(one), Some(other)) => {
                if !same_member(one, other) {
                    return false;
                }
            }
            _ => return false,
        }
    }
    left.len() == right.len()
}

// Whether two objects have one type.
fn same_type(left: &ObjectType, right: &ObjectType) -> bool
    ensures { result ≡ same_type (type_view left.now) (type_view right.now) }
{
    match (left, right) {
        (ObjectType::Scalar(left), ObjectType::Scalar(right)) => same_scalar(*left, *right),
        (ObjectType::Structure(left), ObjectType::Structure(right)) => same_members(left, right),
        _ => false,
    }
}

// Whether two procedures have one result.
fn same_result(left: Option<ScalarType>, right: Option<ScalarType>) -> bool
    ensures { result ≡ same_result left right }
{
    match (left, right) {
        (None, None) => true,
        (Some(left), Some(right)) => same_scalar(left, right),
        _ => false,
    }
}

// Whether two procedures have parameters of the same types.
fn same_parameters(left: &[ScalarType], right: &[ScalarType]) -> bool
    ensures { result ≡ same_parameters left.now right.now }
{
    let mut lefts = left;
    let mut rights = right;
    while let [left, more_lefts @ ..] = lefts {
        let [right, more_rights @ ..] = rights else {
            return false;
        };
        if !same_scalar(*left, *right) {
            return false;
        }
        lefts = more_lefts;
        rights = more_rights;
    }
    rights.is_empty()
}

/// Whether two objects agree.
pub(crate) fn objects_agree(left: &TypedObject, right: &TypedObject) -> bool
    ensures { result
        ≡ agree (DeclaredObject (object_view left.now)) (DeclaredObject (object_view right.now)) }
{
    same_dimension(left.dimension, right.dimension)
        && same_type(&left.object_type, &right.object_type)
}

/// Whether two procedures agree.
pub(crate) fn procedures_agree(left: &TypedProcedure, right: &TypedProcedure) -> bool
    ensures { result
        ≡ agree (DeclaredProcedure (procedure_view left.now)) (DeclaredProcedure (procedure_view right.now)) }
{
    same_result(left.result, right.result)
        && same_parameters(
            left.parameter_types.as_slice(),
            right.parameter_types.as_slice(),
        )
}
