//! A program at a placement, with what its names stand for.

ghost use Rattle.std.specs.Prelude.{◌≡◌, map};
ghost use Rattle.typed_trees.specs.Views.{module_view};
ghost use Rattle.resolving.specs.internal.PublicNames.{public_objects, public_procedures};

use crate::publics::{Found, found_in, public_objects, public_procedures};
use indexmap::IndexMap;
use join::Joined;
use placing::Placement;
use std::alloc::{AllocError, Global};
use trees::Name;
use typed_trees::Typed;

/// A program where it lies, with the first PUBLIC object and the first PUBLIC procedure of each name, so that what an
/// EXTERNAL stands for is found at once.
#[derive(Drop)]
pub struct Program<'a> {
    pub modules: &'a [Typed],
    pub placement: &'a Placement,
    objects: IndexMap<Name, Found>,
    procedures: IndexMap<Name, Found>,
    ghost objects_stand: { objects.entries ≡ public_objects (map module_view modules.now) },
    ghost procedures_stand: { procedures.entries ≡ public_procedures (map module_view modules.now) },
}

impl<'a> Program<'a> {
    ghost use Rattle.std.specs.Prelude.{◌≡◌, [], IfOk, map, option_map};
    ghost use Rattle.typed_trees.specs.Views.{module_view};
    ghost use Rattle.layout.specs.Joined.{first_found, public_object_in, public_procedure_in};
    ghost use Rattle.join.specs.Views.{modules_of};
    ghost use Rattle.placing.specs.Views.{placement_view};
    ghost use Rattle.resolving.specs.internal.Views.{found_view, program_view};

    /// A joined program at a placement. Fails only if memory runs out for the names of its PUBLICs.
    pub fn new(
        alloc: Global,
        joined: &'a Joined,
        placement: &'a Placement,
    ) -> Result<Program<'a>, AllocError>
        ensures placed { IfOk result (λ program. program_view program ≡ record {
          modules = map module_view (modules_of joined.now);
          placement = placement_view placement.now;
          script = [];
        }) }
    {
        let modules = joined.modules();
        let objects = public_objects(alloc, modules)?;
        let procedures = public_procedures(alloc, modules)?;
        Ok(Program {
            modules,
            placement,
            objects,
            procedures,
        })
    }

    /// The PUBLIC object of a name.
    #[tactic(auto, using(crate::proofs::PublicNames::object_named))]
    pub(crate) fn object_named(&self, name: Name) -> Option<Found>
        ensures { option_map found_view result
            ≡ first_found 0 (public_object_in name) (program_view self.now).modules }
    {
        found_in(&self.objects, name)
    }

    /// The PUBLIC procedure of a name.
    #[tactic(auto, using(crate::proofs::PublicNames::procedure_named))]
    pub(crate) fn procedure_named(&self, name: Name) -> Option<Found>
        ensures { option_map found_view result
            ≡ first_found 0 (public_procedure_in name) (program_view self.now).modules }
    {
        found_in(&self.procedures, name)
    }
}
