//! Object modules.

ghost use Rattle.std.specs.Prelude.{◌≡◌, IsTrue, map, slice_get, option_map};
ghost use Rattle.std.specs.List.{list_all};
ghost use Rattle.object_modules.specs.Module.{IsObjectModule, alignment_of, length_of, places_of};
ghost use Rattle.object_modules.specs.Runs.{fixed_run, fixes_in, runs_of};
ghost use Rattle.object_modules.specs.Stored.{are_longest, fixes_ascend, is_in_a_run};
ghost use Rattle.object_modules.specs.Text.{runs_from};
ghost use Rattle.object_modules.specs.internal.Views.{AreKept, module_of_parts, owned_public_view, public_view};

use crate::public::{OwnedPublic, PublicName};
use crate::segment::{Alignment, Fix, Segment};
use crate::stored::{Run, SegmentBytes};
use std::marker::Model;
use symbols::Name;

/// What an object module is made of.
pub struct ModuleParts {
    /// Its own name; a public or an external name may be the same.
    pub name: Name,
    /// The code segment.
    pub code: SegmentBytes,
    /// The data segment.
    pub data_bytes: SegmentBytes,
    /// How many bytes the stack segment has, 0 to 65535.
    pub stack_length: u16,
    /// The public names in their order, none of them twice and none an external name.
    pub publics: Vec<OwnedPublic>,
    /// The external names, none of them twice. The number of one is its index, from 0.
    pub externals: Vec<Name>,
    /// The offset in the code where a main module starts, 0 to 65535; none in another module.
    pub start: Option<u16>,
}

/// An object module: what a linker and a loader know of a module, whatever file spells it.
pub struct ObjectModule {
    parts: ModuleParts,
}

impl Model for ObjectModule {
    ghost use Rattle.object_modules.specs.Module.{ObjectModule as ObjectValue};
    ghost use Rattle.object_modules.specs.internal.Views.{AreKept, module_of_parts};

    ghost Value = { ObjectValue };

    ghost view = { λ object. module_of_parts object.parts };

    ghost invariant = { λ object. AreKept object.parts };
}

impl ObjectModule {
    /// A module of these parts, which are those of a valid module: each segment has its longest runs and its
    /// fixes in the order of their offsets. Takes no memory.
    pub fn from_parts(parts: ModuleParts) -> ObjectModule
        requires { AreKept parts }
        ensures { result ≡ module_of_parts parts }
    {
        ObjectModule { parts }
    }

    /// Its own name: 1 to 31 characters (Module Header Record). The module is valid.
    pub fn name(&self) -> &[u8]
        ensures name { result.now ≡ self.now.name }
        ensures object { IsObjectModule self.now }
    {
        self.parts.name.as_slice()
    }

    /// How many bytes a segment has, 0 to 65535; 0 for the absolute one.
    #[tactic(auto, using(crate::proofs::ObjectLaws::code_length, crate::proofs::ObjectLaws::data_length))]
    pub fn length(&self, segment: Segment) -> u16
        ensures { result ≡ length_of self.now segment }
    {
        match segment {
            Segment::Absolute => 0,
            Segment::Code => self.parts.code.size(),
            Segment::Data => self.parts.data_bytes.size(),
            Segment::Stack => self.parts.stack_length,
        }
    }

    /// How many bytes its stack segment has, 0 to 65535.
    pub fn stack_length(&self) -> u16
        ensures { result ≡ self.now.stack_length }
    {
        self.parts.stack_length
    }

    /// Where a segment may begin; anywhere for the absolute one and the stack.
    pub fn alignment(&self, segment: Segment) -> Alignment
        ensures { result ≡ alignment_of self.now segment }
    {
        match segment {
            Segment::Code => self.parts.code.alignment(),
            Segment::Data => self.parts.data_bytes.alignment(),
            Segment::Absolute | Segment::Stack => Alignment::Byte,
        }
    }

    /// The offset in its code where it starts, 0 to 65535, if it is a main module. The module is valid.
    pub fn start(&self) -> Option<u16>
        ensures start { result ≡ self.now.start }
        ensures object { IsObjectModule self.now }
    {
        self.parts.start
    }

    /// Its public names in their order, none of them twice.
    pub fn publics(&self) -> &[OwnedPublic]
        ensures { map owned_public_view result.now ≡ self.now.publics }
    {
        self.parts.publics.as_slice()
    }

    /// The public name with this index, from 0; none if the index is too great.
    pub fn public(&self, number: usize) -> Option<PublicName<'_>>
        ensures { option_map public_view result ≡ slice_get self.now.publics number }
    {
        match self.parts.publics.get(number) {
            Some(public) => Some(public.borrowed()),
            None => None,
        }
    }

    /// Its external names in their order, none of them twice.
    pub fn externals(&self) -> &[Name]
        ensures { result.now ≡ self.now.externals }
    {
        self.parts.externals.as_slice()
    }

    /// The external name with this number, from 0; none if the number is too great.
    pub fn external(&self, number: usize) -> Option<&[u8]>
        ensures { option_map (λ name. name.now) result ≡ slice_get self.now.externals number }
    {
        match self.parts.externals.get(number) {
            Some(name) => Some(name.as_slice()),
            None => None,
        }
    }

    /// The longest runs of bytes that are set in a segment, in the order of their offsets: each has bytes,
    /// ends before the offset where the next one begins, and lies within the segment. None in the absolute
    /// segment and the stack.
    #[tactic(auto, using(crate::proofs::ObjectLaws::absolute_fixed, crate::proofs::ObjectLaws::absolute_runs, crate::proofs::ObjectLaws::code_fixed, crate::proofs::ObjectLaws::code_longest, crate::proofs::ObjectLaws::code_runs, crate::proofs::ObjectLaws::data_fixed, crate::proofs::ObjectLaws::data_longest, crate::proofs::ObjectLaws::data_runs, crate::proofs::ObjectLaws::stack_fixed, crate::proofs::ObjectLaws::stack_runs))]
    pub fn runs(&self, segment: Segment) -> &[Run]
        ensures runs { result.now ≡ runs_of self.now segment }
        ensures fixed { runs_from 0 (places_of self.now segment)
            ≡ map (fixed_run (fixes_in self.now segment)) result.now }
        ensures longest { IsTrue (are_longest (length_of self.now segment) result.now) }
    {
        match segment {
            Segment::Code => self.parts.code.runs(),
            Segment::Data => self.parts.data_bytes.runs(),
            Segment::Absolute | Segment::Stack => &[],
        }
    }

    /// The fixes of a segment in the order of their offsets: none begins before the one before it ends, and
    /// all bytes of each are in one run. None in the absolute segment and the stack.
    #[tactic(auto, using(crate::proofs::ObjectLaws::absolute_fixes, crate::proofs::ObjectLaws::code_fixes, crate::proofs::ObjectLaws::code_within, crate::proofs::ObjectLaws::data_fixes, crate::proofs::ObjectLaws::data_within, crate::proofs::ObjectLaws::stack_fixes))]
    pub fn fixes(&self, segment: Segment) -> &[Fix]
        ensures fixes { result.now ≡ fixes_in self.now segment }
        ensures ascending { IsTrue (fixes_ascend result.now) }
        ensures within { IsTrue (list_all (is_in_a_run segment (runs_of self.now segment)) result.now) }
    {
        match segment {
            Segment::Code => self.parts.code.fixes(),
            Segment::Data => self.parts.data_bytes.fixes(),
            Segment::Absolute | Segment::Stack => &[],
        }
    }
}

// Written out, so that the parts are freed here, and each crate that frees them calls this.
impl Drop for ModuleParts {
    fn drop(self) {
        let ModuleParts {
            name: _,
            code: _,
            data_bytes: _,
            stack_length: _,
            publics: _,
            externals: _,
            start: _,
        } = self;
    }
}

impl Drop for ObjectModule {
    fn drop(self) {
        let ObjectModule { parts: _ } = self;
    }
}
