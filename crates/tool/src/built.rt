//! Programs that lie at their places.

ghost use Rattle.std.specs.Prelude.{◌≡◌};
ghost use Rattle.placing.specs.Views.{placement_view};
ghost use Rattle.tool.specs.Construction.{IsConstruction};
ghost use Rattle.tool.specs.Marks.{LieInEach};
ghost use Rattle.sources.specs.Programs.{program_modules};
ghost use Rattle.tool.specs.internal.Inside.{IsMadeConstruction, construction_with};

use codegen8080::CodeMarks;
use join::Joined;
use locate::Absolute;
use mem80::Plan;
use object_modules::ObjectModule;
use placing::Placement;
use sources::Placed;
use std::marker::Model;

/// A program, where it lies, the object module of each of its modules, its image, and the marks of the code of each module.
#[derive(Drop)]
pub struct Built {
    program: Joined,
    plan: Plan,
    placement: Placement,
    objects: Vec<ObjectModule>,
    image: Absolute,
    marks: Vec<CodeMarks>,
}

impl Model for Built {
    ghost use Rattle.tool.specs.Construction.{Construction};

    ghost Value = { Construction };

    ghost use Rattle.join.specs.contracts.joined.Joined as joined;
    ghost use Rattle.std.specs.Coded.{codes};

    ghost coded = { Prim.hlevel (codes, joined.the_row.coded) };

    ghost use Rattle.tool.specs.internal.Inside.{construction_of, IsConstructionInside};

    ghost view = { construction_of };

    ghost invariant = { IsConstructionInside };
}

impl Built {
    // A program that was placed by a plan, with its object modules, its image and the marks of its modules.
    pub(crate) fn new(
        placed: Placed,
        plan: Plan,
        objects: Vec<ObjectModule>,
        image: Absolute,
        marks: Vec<CodeMarks>,
    ) -> Built
        requires made { IsMadeConstruction (construction_with placed plan objects.items image) }
        requires marked { LieInEach (program_modules placed.program) objects.items marks.items }
        ensures { result ≡ construction_with placed plan objects.items image }
    {
        let Placed { program, placement } = placed;
        Built {
            program,
            plan,
            placement,
            objects,
            image,
            marks,
        }
    }

    /// The joined program.
    pub fn program(&self) -> &Joined
        ensures shown { result.now ≡ self.now.program }
        ensures construction { IsConstruction self.now }
    {
        &self.program
    }

    /// The plan that it was placed by.
    pub fn plan(&self) -> &Plan
        ensures shown { result.now ≡ self.now.plan }
        ensures construction { IsConstruction self.now }
    {
        &self.plan
    }

    /// Where its modules, its code and its stack lie.
    pub fn placement(&self) -> &Placement
        ensures shown { placement_view result.now ≡ self.now.placement }
        ensures construction { IsConstruction self.now }
    {
        &self.placement
    }

    /// The object modules of its modules, in their order.
    pub fn objects(&self) -> &[ObjectModule]
        ensures shown { result.now ≡ self.now.objects }
        ensures construction { IsConstruction self.now }
    {
        self.objects.as_slice()
    }

    /// Its image.
    pub fn image(&self) -> &Absolute
        ensures shown { result.now ≡ self.now.image }
        ensures construction { IsConstruction self.now }
    {
        &self.image
    }

    /// Where the parts of the code of each of its modules begin, in the order of its modules.
    pub fn marks(&self) -> &[CodeMarks]
        ensures marked { LieInEach (program_modules self.now.program) self.now.objects result.now }
        ensures construction { IsConstruction self.now }
    {
        self.marks.as_slice()
    }
}
