//! A file that spells a module, as it is linked.

ghost use Rattle.std.specs.Prelude.{◌≡◌};
ghost use Rattle.object_modules.specs.Module.{IsObjectModule};
ghost use Rattle.object_modules.specs.internal.Walks.{module_by};
ghost use Rattle.objmod.specs.internal.Keeping.{ContentsFit};

use crate::contents::add_contents;
use crate::fixes::ContentFixes;
use link_modules::{GrowingSegment, Linkable, Named, Resolved};
use object_modules::{Alignment, PublicName, Segment};
use objmod::Walk;
use std::alloc::{AllocError, Global};
use std::marker::Model;

/// A file that spells a module, and hands out its names. It borrows the bytes of the file. Contracts see the walk.
#[derive(Drop)]
pub(crate) struct ObjectFile<'a> {
    walk: Walk<'a>,
}

impl<'a> Model for ObjectFile<'a> {
    ghost use Rattle.std.specs.Prelude.{IsTrue, map};
    ghost use Rattle.std.specs.List.{list_all};
    ghost use Rattle.symbols.specs.Names.{is_name};
    ghost use Rattle.object_modules.specs.Walking.{Walking};
    ghost use Rattle.objmod.specs.internal.Keeping.{ContentsFit};
    ghost use Rattle.link_laws.specs.internal.Growing.{public_name};

    ghost Value = { Walking };

    ghost view = { λ file. file.walk };

    ghost invariant = { λ file. record {
      named : IsTrue (is_name file.walk.name);
      externals : IsTrue (list_all is_name file.walk.externals);
      publics : IsTrue (list_all is_name (map public_name file.walk.publics));
      fits : ContentsFit file.walk;
    } };
}

impl<'a> ObjectFile<'a> {
    /// The file that a walk goes over, before it handed out anything.
    pub(crate) fn new(walk: Walk<'a>) -> ObjectFile<'a>
        requires valid { IsObjectModule (module_by walk) }
        requires fits { ContentsFit walk }
        ensures same { result ≡ walk.entry }
        ensures valid { IsObjectModule (module_by result) }
    {
        ObjectFile { walk }
    }
}

impl<'a> Linkable for ObjectFile<'a> {
    ghost told = { module_by };

    fn again(&self) -> ObjectFile<'a> {
        ObjectFile {
            walk: self.walk.again(),
        }
    }

    #[tactic(auto, using(link_laws::proofs::ModuleTold::length_told))]
    fn length(&self, segment: Segment) -> u16 {
        self.walk.length(segment)
    }

    #[tactic(auto, using(link_laws::proofs::ModuleTold::alignment_told))]
    fn alignment(&self, segment: Segment) -> Alignment {
        self.walk.alignment(segment)
    }

    #[tactic(auto, using(link_laws::proofs::ModuleTold::start_told))]
    fn start(&self) -> Option<u16> {
        self.walk.start()
    }

    fn add_contents(
        &self,
        alloc: Global,
        code: &mut GrowingSegment,
        data_bytes: &mut GrowingSegment,
        resolved: &Resolved,
    ) -> Result<(), AllocError> {
        let mut fixes = ContentFixes::new(alloc);
        let mut walk = self.walk.again();
        add_contents(alloc, code, data_bytes, &mut fixes, resolved, &mut walk)?;
        Ok(())
    }
}

impl<'a> Named<'a> for ObjectFile<'a> {
    #[tactic(auto, using(link_laws::proofs::ModuleTold::name_told))]
    fn name(&self) -> &'a [u8] {
        self.walk.name()
    }

    fn next_public(&mut self) -> Option<PublicName<'a>> {
        self.walk.next_public()
    }

    fn next_external(&mut self) -> Option<&'a [u8]> {
        self.walk.next_external()
    }
}
