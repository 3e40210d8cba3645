//! How far a text is typed.

ghost use Rattle.std.specs.Prelude.{◌≡◌};
ghost use Rattle.typing.specs.internal.Results.{as_fault};

use failure::Failure;
use names::Scopes;
use std::alloc::Global;
use typed_expressions::{Constants, Known, refuse};
use typed_trees::GlobalItem;
use typing::{Cause, Fault};

/// Goes through a module from its start: what is known at a place, the constants and the globals so far, and the bytes so
/// far of the variables of the REENTRANT procedure that the place is in.
#[derive(Drop)]
pub(crate) struct Checker {
    pub(crate) alloc: Global,
    pub(crate) known: Known,
    pub(crate) constants: Constants,
    pub(crate) globals: Vec<GlobalItem>,
    pub(crate) frame: u32,
}

impl Checker {
    ghost use Rattle.typing.specs.Modules.{at_the_beginning};
    ghost use Rattle.types.specs.internal.Views.{progress_view};

    /// A checker at the start of a module.
    pub(crate) fn new(alloc: Global) -> Checker
        ensures { progress_view result ≡ at_the_beginning }
    {
        Checker {
            alloc,
            known: Known {
                alloc,
                scopes: Scopes::new(alloc),
                objects: Vec::new(alloc),
                procedures: Vec::new(alloc),
            },
            constants: Constants {
                lists: Vec::new(alloc),
                items: Vec::new(alloc),
            },
            globals: Vec::new(alloc),
            frame: 0,
        }
    }
}

/// What the scopes answer to a declaration, as the checker answers it.
pub(crate) fn answer_of_scopes(
    declared: Result<(), Failure<names::Fault>>,
) -> Result<(), Failure<Fault>>
    ensures { result ≡ as_fault declared }
{
    match declared {
        Ok(()) => Ok(()),
        Err(Failure::Memory) => Err(Failure::Memory),
        Err(Failure::Fault(fault)) => Err(refuse(Cause::DeclaredTwice, fault.place())),
    }
}
