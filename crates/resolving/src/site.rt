//! Where a part of a program stands, and what names and numbers mean there.

ghost use Rattle.std.specs.Prelude.{◌≡◌};
ghost use Rattle.typed_trees.specs.Views.{home_view, module_view};
ghost use Rattle.meaning.specs.Access.{home_in};
ghost use Rattle.resolving.specs.internal.Storage.{storage_by};

use crate::program::Program;
use crate::publics::Found;
use typed_trees::{Home, Typed, TypedObject, TypedProcedure, Visibility};

/// Where a part of a program stands: in a module, by its number from 0 on.
#[derive(Clone, Copy)]
pub struct Site<'a> {
    pub program: &'a Program<'a>,
    pub number_of_module: usize,
}

/// How an object is found.
#[derive(Clone, Copy)]
pub enum Storage {
    /// In the frame of the call that runs.
    Frame,
    /// At the address that its base has as its value, by the number of the base's object.
    Base(u32),
    /// At an address, which `Site::address_of` gives.
    Memory,
}

// How an object is found, by where it lives.
fn storage_by(home: &Home) -> Storage
    ensures { result ≡ storage_by (home_view home.now) }
{
    match home {
        Home::Frame(_) => Storage::Frame,
        Home::Based(base) => Storage::Base(*base),
        Home::Data(_) | Home::Constant(_) | Home::At(_) | Home::External | Home::Absent => {
            Storage::Memory
        }
    }
}

// How an object of a module is found.
fn storage_in(typed: &Typed, object: u32) -> Storage
    ensures { result ≡ storage_by (home_in (module_view typed.now) object) }
{
    match typed.objects.get(object as usize) {
        Some(object) => storage_by(&object.home),
        None => Storage::Memory,
    }
}

impl<'a> Site<'a> {
    ghost use Rattle.std.specs.Prelude.{◌≡◌, option_map};
    ghost use Rattle.typed_trees.specs.Views.{object_view, procedure_view};
    ghost use Rattle.layout.specs.Joined.{object_meant, procedure_meant};
    ghost use Rattle.layout.specs.StartingMemory.{address_in};
    ghost use Rattle.meaning.specs.Access.{address_of, home_of};
    ghost use Rattle.meaning.specs.Meaning.{address_of_list, callee_in};
    ghost use Rattle.resolving.specs.internal.Storage.{storage_by};
    ghost use Rattle.resolving.specs.internal.Views.{found_view, site_view};
    ghost use Rattle.resolving.specs.internal.Sites.{meant_at};

    /// How an object of the module is found; `Storage::Memory` if it has no object of that number.
    pub fn storage_of(&self, object: u32) -> Storage
        ensures { result ≡ storage_by (home_of (site_view self.now) object) }
    {
        match self.program.modules.get(self.number_of_module) {
            Some(typed) => storage_in(typed, object),
            None => Storage::Memory,
        }
    }

    // What an object of the module stands for.
    fn meant(&self, object: u32) -> Option<Found>
        ensures { option_map found_view result ≡ meant_at (site_view self.now) object }
    {
        let typed = self.program.modules.get(self.number_of_module)?;
        self.object_meant(typed.objects.get(object as usize)?, object as usize)
    }

    // What an object of the module stands for that has this number there.
    fn object_meant(&self, meant: &TypedObject, number: usize) -> Option<Found>
        ensures { option_map found_view result ≡ object_meant (site_view self.now).program.modules
            (record { number_of_module = (site_view self.now).number_of_module; number = number })
            (object_view meant.now) (object_view meant.now).home }
    {
        match meant.home {
            Home::External => self.program.object_named(meant.name),
            Home::Data(_)
            | Home::Constant(_)
            | Home::At(_)
            | Home::Based(_)
            | Home::Absent
            | Home::Frame(_) => Some(Found {
                number_of_module: self.number_of_module,
                number,
            }),
        }
    }

    // Where an object of the program lies.
    fn address_at(&self, found: Found) -> u16
        ensures { result ≡ address_in (site_view self.now).program.placement (found_view found) }
    {
        match self.program.placement.modules().get(found.number_of_module) {
            Some(placed) => match placed.objects.get(found.number) {
                Some(address) => *address,
                None => 0,
            },
            None => 0,
        }
    }

    /// Where an object of the module begins that is not BASED, an EXTERNAL one where the PUBLIC of its name does.
    #[tactic(auto, using(crate::proofs::Sites::address_found, crate::proofs::Sites::no_address))]
    pub fn address_of(&self, object: u32) -> u16
        ensures { result ≡ address_of (site_view self.now) object }
    {
        match self.meant(object) {
            Some(found) => self.address_at(found),
            None => 0,
        }
    }

    /// Where a constant list of the module lies.
    pub fn address_of_list(&self, list: u32) -> u16
        ensures { result ≡ address_of_list (site_view self.now) list }
    {
        match self.program.placement.modules().get(self.number_of_module) {
            Some(placed) => match placed.lists.get(list as usize) {
                Some(address) => *address,
                None => 0,
            },
            None => 0,
        }
    }

    /// What a procedure of the module stands for where it is called, an EXTERNAL one for the PUBLIC of its name.
    pub fn callee(&self, procedure: u32) -> Option<Found>
        ensures { option_map found_view result ≡ callee_in (site_view self.now) procedure }
    {
        let typed = self.program.modules.get(self.number_of_module)?;
        self.procedure_meant(
            typed.procedures.get(procedure as usize)?,
            procedure as usize,
        )
    }

    // What a procedure of the module stands for that has this number there.
    fn procedure_meant(&self, callee: &TypedProcedure, number: usize) -> Option<Found>
        ensures { option_map found_view result ≡ procedure_meant (site_view self.now).program.modules
            (record { number_of_module = (site_view self.now).number_of_module; number = number })
            (procedure_view callee.now) (procedure_view callee.now).visibility }
    {
        match callee.visibility {
            Visibility::External => self.program.procedure_named(callee.name),
            Visibility::Private | Visibility::Public => Some(Found {
                number_of_module: self.number_of_module,
                number,
            }),
        }
    }
}
