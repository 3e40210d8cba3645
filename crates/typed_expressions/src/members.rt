//! The members of structures, and the sizes of objects. Objects have at most 65535 bytes, so that each number here fits;
//! one that did not would be answered with out of memory.

ghost use Rattle.std.specs.Prelude.{Ok};
ghost use Rattle.typed_trees.specs.Sizes.{size_of_element, size_of_object};
ghost use Rattle.typed_trees.specs.Views.{object_view, type_view};
ghost use Rattle.typed_expressions.specs.internal.Given.{member_place as place_of, place_view};
ghost use Rattle.typing.specs.internal.Results.{Answers};

use crate::checks::refuse;
use failure::Failure;
use trees::Identifier;
use typed_trees::{ObjectType, TypedMember, TypedObject};
use typing::{Cause, Fault};

/// A member of a structure: its position, and its offset in an element.
#[derive(Clone, Copy)]
pub(crate) struct MemberPlace {
    pub(crate) position: u32,
    pub(crate) offset: u32,
    pub(crate) member: TypedMember,
}

/// The member of a name.
#[tactic(auto, using(crate::proofs::MemberPlaces::uncapped, crate::proofs::MemberPlaces::unknown))]
pub(crate) fn member_place(
    object_type: &ObjectType,
    name: Identifier,
) -> Result<MemberPlace, Failure<Fault>>
    ensures { Answers place_view result (place_of (type_view object_type.now) name) }
{
    let ObjectType::Structure(members) = object_type else {
        return Err(refuse(Cause::MemberMismatch, name.place));
    };
    let Some(found) = members.named(name.name) else {
        return Err(refuse(Cause::UnknownName, name.place));
    };
    if found.position > 4_294_967_295 || found.offset == 4_294_967_295 {
        return Err(Failure::Memory);
    }
    Ok(MemberPlace {
        position: found.position as u32,
        offset: found.offset,
        member: found.member,
    })
}

/// The size of an element of an object.
pub(crate) fn element_size(object: &TypedObject) -> Result<u32, Failure<Fault>>
    ensures { Answers (λ size. size) result (Ok (size_of_element (type_view object.now.object_type))) }
{
    let size = object.element_size();
    if size == 4_294_967_295 {
        return Err(Failure::Memory);
    }
    Ok(size)
}

/// The size of an object.
pub(crate) fn object_size(object: &TypedObject) -> Result<u32, Failure<Fault>>
    ensures { Answers (λ size. size) result (Ok (size_of_object (object_view object.now))) }
{
    let size = object.size();
    if size == 4_294_967_295 {
        return Err(Failure::Memory);
    }
    Ok(size)
}
