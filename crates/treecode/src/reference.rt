//! References to objects and parts of objects, and targets of assignments.

ghost use Rattle.std.specs.Prelude.{◌≡◌};
ghost use Rattle.treecode.specs.internal.Queries.{source};

use crate::expression::ExpressionNumber;
use trees::ScalarType;

/// A subscript: the value of an ADDRESS expression, and the stride in bytes (0 to 65535).
#[derive(Clone, Copy)]
pub struct Subscript {
    pub index: ExpressionNumber,
    pub stride: u16,
}

/// A reference to an object or a part of it: an element of the object, a member at an offset in that element, and an
/// element of that member.
#[derive(Clone, Copy)]
pub struct Reference {
    /// The object, by its number in the module.
    pub object: u32,
    pub subscript: Option<Subscript>,
    /// The offset of the member in the element; 0 without a member.
    pub offset: u16,
    pub member_subscript: Option<Subscript>,
}

/// The target that a value of the type `from` is assigned to.
#[derive(Clone, Copy)]
pub enum Target {
    /// A scalar of the type `to`, which the value is converted to.
    Stored {
        from: ScalarType,
        to: ScalarType,
        reference: Reference,
    },
    /// A port, which takes the low byte.
    Sent {
        from: ScalarType,
        port: u8,
    },
}

impl Target {
    /// The type of the value that is assigned to it.
    pub fn source(&self) -> ScalarType
        ensures { result ≡ source self.now }
    {
        match self {
            Target::Stored { from, .. } | Target::Sent { from, .. } => *from,
        }
    }
}
