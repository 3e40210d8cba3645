//! What modules share.

ghost use Rattle.std.specs.Prelude.{◌≡◌, ◌++◌, List, filter_map, map, option_map, OnOk, IfOk};
ghost use Rattle.failure.specs.Failure.{IfFault};
ghost use Rattle.typed_trees.specs.Views.{module_view};
ghost use Rattle.layout.specs.Joined.{agree, global_of, globals_of, is_public_procedure};
ghost use Rattle.join.specs.internal.Shared.{global_view, globals_view};

use crate::agreement::{objects_agree, procedures_agree};
use crate::fault::Fault;
use failure::Failure;
use std::alloc::Global;
use trees::Name;
use typed_trees::{GlobalItem, Typed, TypedObject, TypedProcedure, Visibility};

/// An object or a procedure that modules share, in one of them.
#[derive(Clone, Copy)]
pub(crate) enum Shared<'a> {
    Object(&'a TypedObject),
    Procedure(&'a TypedProcedure),
}

// Whether a procedure is PUBLIC.
fn is_public_procedure(visibility: Visibility) -> bool
    ensures { result ≡ is_public_procedure visibility }
{
    match visibility {
        Visibility::Public => true,
        Visibility::Private | Visibility::External => false,
    }
}

impl<'a> Shared<'a> {
    /// Its name.
    pub(crate) fn name(self) -> Name
        ensures { result ≡ (global_view self.entry).name }
    {
        match self {
            Shared::Object(object) => object.name,
            Shared::Procedure(procedure) => procedure.name,
        }
    }

    /// Whether it is PUBLIC; else it is EXTERNAL.
    pub(crate) fn is_public(self) -> bool
        ensures { result ≡ (global_view self.entry).is_public }
    {
        match self {
            Shared::Object(object) => object.is_public,
            Shared::Procedure(procedure) => is_public_procedure(procedure.visibility),
        }
    }

    /// Whether two of them are declared alike.
    pub(crate) fn agrees(self, other: Shared<'_>) -> bool
        ensures { result ≡ agree (global_view self.entry).declared (global_view other.entry).declared }
    {
        match (self, other) {
            (Shared::Object(left), Shared::Object(right)) => objects_agree(left, right),
            (Shared::Procedure(left), Shared::Procedure(right)) => procedures_agree(left, right),
            _ => false,
        }
    }
}

// What a module shares by a number.
fn global_at(typed: &Typed, item: GlobalItem) -> Option<Shared<'_>>
    ensures { option_map global_view result ≡ global_of (module_view typed.now) item }
{
    match item {
        GlobalItem::GlobalObject(number) => match typed.objects.get(number as usize) {
            Some(object) => Some(Shared::Object(object)),
            None => None,
        },
        GlobalItem::GlobalProcedure(number) => match typed.procedures.get(number as usize) {
            Some(procedure) => Some(Shared::Procedure(procedure)),
            None => None,
        },
    }
}

// Adds what a module shares.
fn push_shared<'a>(globals: &mut Vec<Shared<'a>>, typed: &'a Typed) -> Result<(), Failure<Fault>>
    ensures ok { OnOk result (globals_view globals.new.items
        ≡ globals_view globals.old.items
        ++ filter_map (global_of (module_view typed.now)) typed.now.globals.items) }
    ensures err { IfFault result (λ _. ⊥) }
{
    let mut rest = typed.globals.as_slice();
    while let [item, more @ ..] = rest {
        if let Some(found) = global_at(typed, *item) {
            globals.push(found)?;
        }
        rest = more;
    }
    Ok(())
}

/// What modules share, in the order of the modules and in that of each text.
#[tactic(auto, using(crate::proofs::GlobalLoops::modules_ended))]
pub(crate) fn shared_by(alloc: Global, modules: &[Typed]) -> Result<Vec<Shared<'_>>, Failure<Fault>>
    ensures ok { IfOk result (λ globals.
        globals_view globals.items ≡ globals_of (map module_view modules.now)) }
    ensures err { IfFault result (λ _. ⊥) }
{
    let mut globals = Vec::new(alloc);
    for typed in modules {
        push_shared(&mut globals, typed)?;
    }
    Ok(globals)
}
