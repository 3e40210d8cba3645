//! A module of a merge, and where its pieces begin there.

ghost use Rattle.std.specs.Prelude.{◌≡◌, ◌+◌, ◌≤◌, length};
ghost use Rattle.object_modules.specs.Displacements.{displacement_in};
ghost use Rattle.object_modules.specs.Module.{IsObjectModule, length_of};
ghost use Rattle.link_modules.specs.internal.Views.{start_view};

use crate::inputs::Input;
use crate::linkable::Linkable;
use object_modules::Segment;
use std::marker::Model;

/// Where the pieces of a module begin in those of a merge.
#[derive(Clone, Copy)]
pub(crate) struct ModuleStart {
    pub(crate) code: u16,
    pub(crate) data_start: u16,
}

impl ModuleStart {
    ghost use Rattle.std.specs.Prelude.{◌≡◌};
    ghost use Rattle.object_modules.specs.Displacements.{start_of};
    ghost use Rattle.link_modules.specs.internal.Views.{start_view};

    /// Where the piece of a segment begins; 0 for the absolute one and the stack.
    pub(crate) fn of(self, segment: Segment) -> u16
        ensures { result ≡ start_of (start_view self) segment }
    {
        match segment {
            Segment::Code => self.code,
            Segment::Data => self.data_start,
            Segment::Absolute | Segment::Stack => 0,
        }
    }
}

/// A module, and where its pieces begin in those of a merge.
#[derive(Drop)]
pub(crate) struct Placed<'s, L: Linkable> {
    item: &'s L,
    start: ModuleStart,
}

impl<'s, L: Linkable> Model for Placed<'s, L> {
    ghost use Rattle.object_modules.specs.Displacements.{Linked};
    ghost use Rattle.link_modules.specs.internal.Views.{start_view};
    ghost use Rattle.link_laws.specs.internal.Building.{Fits};

    ghost Value = { Linked };

    ghost view = { λ placed. record { object = L.told placed.item.now; start = start_view placed.start } };

    ghost invariant = { λ placed.
        Fits (record { object = L.told placed.item.now; start = start_view placed.start }) };
}

impl<'s, L: Linkable> Placed<'s, L> {
    /// A module with pieces that begin at a place and end within their segments.
    pub(crate) fn new(input: &'s Input<L>, start: ModuleStart) -> Placed<'s, L>
        requires code { start.code + length input.now.code.places ≤ 65535 }
        requires data_bytes { start.data_start + length input.now.data_places.places ≤ 65535 }
        ensures object { result.object ≡ input.now }
        ensures start { result.start ≡ start_view start }
        ensures valid { IsObjectModule input.now }
    {
        Placed {
            item: input.item(),
            start,
        }
    }

    /// What it is read from.
    pub(crate) fn item(&self) -> &'s L
        ensures same { L.told result.now ≡ self.now.object }
        ensures code { (self.now.start).code + length (L.told result.now).code.places ≤ 65535 }
        ensures data_bytes { (self.now.start).data_start
            + length (L.told result.now).data_places.places ≤ 65535 }
    {
        self.item
    }

    /// A walk over its names.
    pub(crate) fn walk(&self) -> L
        ensures externals { (L.told result).externals ≡ self.now.object.externals }
        ensures publics { (L.told result).publics ≡ self.now.object.publics }
    {
        self.item.again()
    }

    /// Where its pieces begin.
    pub(crate) fn starts(&self) -> ModuleStart
        ensures { start_view result ≡ self.now.start }
    {
        self.start
    }

    /// Where its piece of a segment begins; 0 for the absolute one and the stack.
    pub(crate) fn start(&self, segment: Segment) -> u16
        ensures start { result ≡ displacement_in self.now segment }
        ensures fits { result + length_of self.now.object segment ≤ 65535 }
    {
        self.start.of(segment)
    }

    /// Where its piece of a segment ends.
    pub(crate) fn end(&self, segment: Segment) -> u16
        ensures { result ≡ displacement_in self.now segment + length_of self.now.object segment }
    {
        self.start(segment) + self.item.length(segment)
    }
}
