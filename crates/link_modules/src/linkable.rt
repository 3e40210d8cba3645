//! What can be linked: a module, wherever its names and its bytes lie.

ghost use Rattle.std.specs.Prelude.{◌≡◌, ◌+◌, ◌≤◌, IsTrue, IfSome, OnOk};
ghost use Rattle.std.specs.Option.{option_map};
ghost use Rattle.symbols.specs.Names.{is_name};
ghost use Rattle.object_modules.specs.declared.segment.Segment.TheVariants.{Code, Data};
ghost use Rattle.object_modules.specs.Displacements.{start_of};
ghost use Rattle.object_modules.specs.Module.{ObjectModule, alignment_of, length_of};
ghost use Rattle.object_modules.specs.internal.Views.{public_view};
ghost use Rattle.object_modules.specs.internal.Walks.{HandsOut};
ghost use Rattle.link_laws.specs.internal.Growing.{grown_from};

use crate::growing::GrowingSegment;
use crate::resolved::Resolved;
use object_modules::{Alignment, PublicName, Segment};
use std::alloc::{AllocError, Global};

/// A module that can be linked: what it says of itself, and its code and data.
pub trait Linkable: Drop + Sized {
    // The module, without the names that were handed out.
    ghost told: { Self → ObjectModule };

    /// The same module, from its place. Takes no memory.
    fn again(&self) -> Self
        ensures { result ≡ self.now };

    /// How many bytes a segment has, 0 to 65535; 0 for the absolute one.
    fn length(&self, segment: Segment) -> u16
        ensures { result ≡ length_of (told self.now) segment };

    /// Where a segment may begin; anywhere for the absolute one and the stack.
    fn alignment(&self, segment: Segment) -> Alignment
        ensures { result ≡ alignment_of (told self.now) segment };

    /// The offset in its code where it starts, if it is a main module.
    fn start(&self) -> Option<u16>
        ensures { result ≡ (told self.now).start };

    /// Adds its code and its data to the segments of a merge, at their places there.
    fn add_contents(
        &self,
        alloc: Global,
        code: &mut GrowingSegment,
        data_bytes: &mut GrowingSegment,
        resolved: &Resolved,
    ) -> Result<(), AllocError>
        requires code { start_of resolved.now.start Code + length_of (told self.now) Code ≤ 65535 }
        requires data_bytes { start_of resolved.now.start Data + length_of (told self.now) Data ≤ 65535 }
        ensures code { OnOk result (code.new ≡ grown_from resolved.now Code code.old (told self.now)) }
        ensures data_bytes { OnOk result
            (data_bytes.new ≡ grown_from resolved.now Data data_bytes.old (told self.now)) };
}

/// A module that can be linked, and hands out its names one after another. It lends their characters.
pub trait Named<'a>: Linkable {
    /// The name of the module.
    fn name(&self) -> &'a [u8]
        ensures same { result.now ≡ (Self.told self.now).name }
        ensures valid { IsTrue (is_name result.now) };

    /// The next public name.
    fn next_public(&mut self) -> Option<PublicName<'a>>
        ensures next { HandsOut (Self.told self.old).publics (Self.told self.new).publics
            (option_map public_view result) }
        ensures valid { IfSome result (λ public. IsTrue (is_name public.name.now)) };

    /// The next external name.
    fn next_external(&mut self) -> Option<&'a [u8]>
        ensures next { HandsOut (Self.told self.old).externals (Self.told self.new).externals
            (option_map (λ name. name.now) result) }
        ensures valid { IfSome result (λ name. IsTrue (is_name name.now)) };
}
