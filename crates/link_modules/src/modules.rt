//! Object modules, as they are linked.

ghost use Rattle.std.specs.Prelude.{◌≡◌, IfOk};
ghost use Rattle.object_modules.specs.Module.{IsObjectModule};

use crate::growing::GrowingSegment;
use crate::inputs::Input;
use crate::linkable::{Linkable, Named};
use crate::resolved::Resolved;
use crate::runs::add_runs;
use object_modules::{Alignment, Name, ObjectModule, OwnedPublic, PublicName, Segment};
use std::alloc::{AllocError, Global};
use std::marker::Model;

/// An object module that hands out its names. Contracts see the module with those that are left.
#[derive(Drop)]
pub(crate) struct ModuleWalk<'a> {
    object: &'a ObjectModule,
    name: &'a [u8],
    publics: &'a [OwnedPublic],
    externals: &'a [Name],
}

impl<'a> Model for ModuleWalk<'a> {
    ghost use Rattle.std.specs.Prelude.{◌≡◌, map};
    ghost use Rattle.object_modules.specs.Module.{IsObjectModule, ObjectModule as ObjectValue};
    ghost use Rattle.object_modules.specs.internal.Views.{owned_public_view};

    ghost Value = { ObjectValue };

    ghost view = { λ walk. record walk.object.now {
      publics = map owned_public_view walk.publics.now;
      externals = walk.externals.now;
    } };

    ghost invariant = { λ walk. record {
      named : walk.name.now ≡ walk.object.now.name;
      valid : IsObjectModule walk.object.now;
    } };
}

impl<'a> ModuleWalk<'a> {
    /// A module with all of its names.
    pub(crate) fn new(object: &'a ObjectModule) -> ModuleWalk<'a>
        ensures same { result ≡ object.now }
        ensures valid { IsObjectModule result }
    {
        ModuleWalk {
            object,
            name: object.name(),
            publics: object.publics(),
            externals: object.externals(),
        }
    }
}

impl<'a> Linkable for ModuleWalk<'a> {
    ghost told = { λ walk. walk };

    fn again(&self) -> ModuleWalk<'a> {
        ModuleWalk {
            object: self.object,
            name: self.name,
            publics: self.publics,
            externals: self.externals,
        }
    }

    fn length(&self, segment: Segment) -> u16 {
        self.object.length(segment)
    }

    fn alignment(&self, segment: Segment) -> Alignment {
        self.object.alignment(segment)
    }

    fn start(&self) -> Option<u16> {
        self.object.start()
    }

    fn add_contents(
        &self,
        alloc: Global,
        code: &mut GrowingSegment,
        data_bytes: &mut GrowingSegment,
        resolved: &Resolved,
    ) -> Result<(), AllocError> {
        add_runs(alloc, code, Segment::Code, self.object, resolved)?;
        add_runs(alloc, data_bytes, Segment::Data, self.object, resolved)?;
        Ok(())
    }
}

impl<'a> Named<'a> for ModuleWalk<'a> {
    fn name(&self) -> &'a [u8] {
        self.name
    }

    fn next_public(&mut self) -> Option<PublicName<'a>> {
        match self.publics {
            [first, rest @ ..] => {
                self.publics = rest;
                Some(PublicName {
                    segment: first.segment,
                    offset: first.offset,
                    name: first.name.as_slice(),
                })
            }
            [] => None,
        }
    }

    fn next_external(&mut self) -> Option<&'a [u8]> {
        match self.externals {
            [first, rest @ ..] => {
                self.externals = rest;
                Some(first.as_slice())
            }
            [] => None,
        }
    }
}

/// Object modules, to be linked.
pub(crate) fn inputs_of<'a>(
    alloc: Global,
    modules: &'a [ObjectModule],
) -> Result<Vec<Input<ModuleWalk<'a>>>, AllocError>
    ensures { IfOk result (λ inputs. inputs.items ≡ modules.now) }
{
    let mut inputs = Vec::with_capacity(alloc, modules.len())?;
    for module in modules {
        inputs.push(Input::new(ModuleWalk::new(module)))?;
    }
    Ok(inputs)
}
