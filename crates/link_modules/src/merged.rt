//! What a merge is.

ghost use Rattle.std.specs.Prelude.{◌≡◌, ◌<◌, length, map};
ghost use Rattle.object_modules.specs.Displacements.{start_in};
ghost use Rattle.link_modules.specs.internal.Views.{start_view};

use crate::placed::ModuleStart;
use object_modules::{ObjectModule, Segment};
use std::marker::Model;

/// A merge.
pub struct Merged {
    object: ObjectModule,
    starts: Vec<ModuleStart>,
}

impl Model for Merged {
    ghost use Rattle.std.specs.Prelude.{map};
    ghost use Rattle.link_modules.specs.Merging.{Merged as MergedValue};
    ghost use Rattle.link_modules.specs.internal.Views.{start_view};

    ghost Value = { MergedValue };

    ghost view = { λ merged. record {
      object = merged.object;
      starts = map start_view merged.starts.items;
    } };
}

impl Merged {
    // A merge of these.
    pub(crate) fn new(object: ObjectModule, starts: Vec<ModuleStart>) -> Merged
        ensures object { result.object ≡ object }
        ensures starts { result.starts ≡ map start_view starts.items }
    {
        Merged { object, starts }
    }

    /// The merged module.
    pub fn module(&self) -> &ObjectModule
        ensures { result.now ≡ self.now.object }
    {
        &self.object
    }

    /// The merged module by itself.
    pub fn into_module(self) -> ObjectModule
        ensures { result ≡ self.object }
    {
        let Merged { object, starts: _ } = self;
        object
    }

    /// Where the piece of a segment of a module begins, 0 to 65535. Modules are counted from 0.
    pub fn start_of(&self, number: usize, segment: Segment) -> u16
        requires { number < length self.now.starts }
        ensures { result ≡ start_in self.now.starts number segment }
    {
        match self.starts.get(number) {
            Some(start) => match segment {
                Segment::Code => start.code,
                Segment::Data => start.data_start,
                Segment::Absolute | Segment::Stack => 0,
            },
            None => 0,
        }
    }
}

// Written out, so that what it holds is let go here, and each crate that lets one go calls this.
impl Drop for Merged {
    fn drop(self) {
        let Merged {
            object: _,
            starts: _,
        } = self;
    }
}
