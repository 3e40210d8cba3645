//! Modules to be linked, as contracts see them.

ghost use Rattle.std.specs.Prelude.{◌≡◌};
ghost use Rattle.object_modules.specs.Module.{IsObjectModule, alignment_of, length_of};

use crate::linkable::Linkable;
use object_modules::{Alignment, Segment};
use std::marker::Model;

/// A module to be linked, with all of its names. Contracts see the module.
#[derive(Drop)]
pub struct Input<L: Linkable> {
    item: L,
}

impl<L: Linkable> Model for Input<L> {
    ghost use Rattle.object_modules.specs.Module.{IsObjectModule, ObjectModule as ObjectValue};

    ghost Value = { ObjectValue };

    ghost view = { λ input. L.told input.item };

    ghost invariant = { λ input. IsObjectModule (L.told input.item) };
}

impl<L: Linkable> Input<L> {
    /// A module that has handed out none of its names.
    pub fn new(item: L) -> Input<L>
        requires { IsObjectModule (L.told item) }
        ensures { result ≡ L.told item }
    {
        Input { item }
    }

    /// What it is read from.
    pub(crate) fn item(&self) -> &L
        ensures same { L.told result.now ≡ self.now }
        ensures valid { IsObjectModule self.now }
    {
        &self.item
    }

    /// A walk over its names.
    pub(crate) fn walk(&self) -> L
        ensures externals { (L.told result).externals ≡ self.now.externals }
        ensures publics { (L.told result).publics ≡ self.now.publics }
    {
        self.item.again()
    }

    /// How many bytes a segment has, 0 to 65535; 0 for the absolute one.
    pub(crate) fn length(&self, segment: Segment) -> u16
        ensures { result ≡ length_of self.now segment }
    {
        self.item.length(segment)
    }

    /// Where a segment may begin; anywhere for the absolute one and the stack.
    pub(crate) fn alignment(&self, segment: Segment) -> Alignment
        ensures { result ≡ alignment_of self.now segment }
    {
        self.item.alignment(segment)
    }

    /// The offset in its code where it starts, if it is a main module.
    pub(crate) fn start(&self) -> Option<u16>
        ensures { result ≡ self.now.start }
    {
        self.item.start()
    }
}
