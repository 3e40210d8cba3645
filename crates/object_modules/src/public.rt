//! Public names of object modules.

use crate::segment::Segment;
use symbols::Name;

/// A public name of a module: a place that other modules may refer to by the name (Public Declarations
/// Record).
#[derive(Clone, Copy, Debug)]
pub struct OwnedPublic {
    /// The segment that the place is counted from; the stack has none in a valid module.
    pub segment: Segment,
    /// The place, from the start of the segment, 0 to 65535; an address for the absolute one.
    pub offset: u16,
    pub name: Name,
}

/// A public name, whose characters stand elsewhere.
#[derive(Clone, Copy, Debug)]
pub struct PublicName<'a> {
    pub segment: Segment,
    /// The place, from the start of the segment, 0 to 65535.
    pub offset: u16,
    /// Its characters, 1 to 31 in a valid module.
    pub name: &'a [u8],
}

impl OwnedPublic {
    ghost use Rattle.std.specs.Prelude.{◌≡◌};
    ghost use Rattle.object_modules.specs.internal.Views.{owned_public_view, public_view};

    /// The same public name, with the characters that stand here.
    pub fn borrowed(&self) -> PublicName<'_>
        ensures { public_view result ≡ owned_public_view self.now }
    {
        PublicName {
            segment: self.segment,
            offset: self.offset,
            name: self.name.as_slice(),
        }
    }
}
