//! What is known at a place of a text.

ghost use Rattle.std.specs.Prelude.{◌≡◌, Some};
ghost use Rattle.typed_trees.specs.Views.{object_view, procedure_view};
ghost use Rattle.typing.specs.internal.ReferenceChecks.{bound, object_of, procedure_of};
ghost use Rattle.typing.specs.internal.Results.{Answers};
ghost use Rattle.typed_expressions.specs.internal.Views.{known_view};

use crate::checks::refuse;
use failure::Failure;
use names::{Binding, Scopes};
use std::alloc::Global;
use trees::{Identifier, ScalarType};
use typed_trees::{ConstantItem, TypedObject, TypedProcedure, TypedReference};
use typing::{Cause, Fault};

/// What names stand for at a place, and the objects and procedures so far.
#[derive(Drop)]
pub struct Known {
    /// The allocator of typed trees.
    pub alloc: Global,
    /// What the names stand for that are visible at the place.
    pub scopes: Scopes,
    /// The objects so far, by their numbers.
    pub objects: Vec<TypedObject>,
    /// The procedures so far, by their numbers.
    pub procedures: Vec<TypedProcedure>,
}

/// The constants so far.
#[derive(Drop)]
pub struct Constants {
    /// The bytes of each constant list, by its number.
    pub lists: Vec<Vec<u8>>,
    /// The objects with DATA and the constant lists, in the order of the text.
    pub items: Vec<ConstantItem>,
}

/// Where a value goes, before its type is known.
#[derive(Drop)]
pub enum Destination {
    /// A scalar, with its type.
    Variable {
        scalar: ScalarType,
        reference: TypedReference,
    },
    /// OUTPUT of a port.
    Port(u8),
}

impl Known {
    /// What a name is bound to. A name that nothing declares is refused as unknown.
    pub fn bound(&self, name: Identifier) -> Result<Binding, Failure<Fault>>
        ensures { Answers (λ binding. binding) result (bound (known_view self.now) name) }
    {
        match self.scopes.binding(name.name) {
            Some(binding) => Ok(binding),
            None => Err(refuse(Cause::UnknownName, name.place)),
        }
    }

    /// The object of a number that a name stands for. A number that no object has is refused as the
    /// name of no variable.
    pub fn object(&self, name: Identifier, number: u32) -> Result<&TypedObject, Failure<Fault>>
        ensures { Answers (λ found. object_view found.now) result
            (object_of (known_view self.now) name number) }
    {
        match self.objects.get(number as usize) {
            Some(object) => Ok(object),
            None => Err(refuse(Cause::NoVariable, name.place)),
        }
    }

    /// The procedure of a number that a name stands for. A number that no procedure has is refused as the
    /// name of no procedure.
    pub fn procedure(
        &self,
        name: Identifier,
        number: u32,
    ) -> Result<&TypedProcedure, Failure<Fault>>
        ensures { Answers (λ found. procedure_view found.now) result
            (procedure_of (known_view self.now) name number) }
    {
        match self.procedures.get(number as usize) {
            Some(procedure) => Ok(procedure),
            None => Err(refuse(Cause::CallOfNoProcedure, name.place)),
        }
    }
}
