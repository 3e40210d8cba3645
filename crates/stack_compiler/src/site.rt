//! Where a part of a program stands, and what names and numbers mean there.

use resolving::{Found, Program, Storage};
use std::alloc::Global;

/// Where a part of a program stands: in a module of a program that lies somewhere.
#[derive(Clone, Copy)]
pub(crate) struct Site<'a> {
    pub(crate) alloc: Global,
    pub(crate) program: &'a Program<'a>,
    pub(crate) number_of_module: usize,
}

impl<'a> Site<'a> {
    ghost use Rattle.std.specs.Prelude.{◌≡◌, option_map};
    ghost use Rattle.meaning.specs.Access.{address_of, home_of};
    ghost use Rattle.meaning.specs.Meaning.{address_of_list, callee_in};
    ghost use Rattle.resolving.specs.internal.Storage.{storage_by};
    ghost use Rattle.resolving.specs.internal.Views.{found_view, site_view as surroundings_view};
    ghost use Rattle.stack_code.specs.internal.Code.{surroundings_at};
    ghost use Rattle.stack_compiler.specs.internal.Sites.{site_view};

    // The module, with the meaning of its names and numbers.
    fn module(&self) -> resolving::Site<'a>
        ensures { surroundings_view result ≡ surroundings_at (site_view self.now) }
    {
        resolving::Site {
            program: self.program,
            number_of_module: self.number_of_module,
        }
    }

    /// What an object of the module is found by.
    pub(crate) fn storage_of(&self, object: u32) -> Storage
        ensures { result ≡ storage_by (home_of (surroundings_at (site_view self.now)) object) }
    {
        self.module().storage_of(object)
    }

    /// Where an object of the module begins that is not BASED.
    pub(crate) fn address_of(&self, object: u32) -> u16
        ensures { result ≡ address_of (surroundings_at (site_view self.now)) object }
    {
        self.module().address_of(object)
    }

    /// Where a constant list of the module lies.
    pub(crate) fn address_of_list(&self, list: u32) -> u16
        ensures { result ≡ address_of_list (surroundings_at (site_view self.now)) list }
    {
        self.module().address_of_list(list)
    }

    /// What a procedure of the module stands for where it is called.
    pub(crate) fn callee(&self, procedure: u32) -> Option<Found>
        ensures { option_map found_view result ≡ callee_in (surroundings_at (site_view self.now)) procedure }
    {
        self.module().callee(procedure)
    }
}
