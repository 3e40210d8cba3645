//! The small parts of typed trees, which are copied.

use trees::{Name, ScalarType};

/// The built-in functions that move the bits of a value by a count.
#[derive(Clone, Copy)]
pub enum ShiftFunction {
    ShiftLeft,
    ShiftRight,
    RotateLeft,
    RotateRight,
}

/// The built-in functions of an object that are numbers.
#[derive(Clone, Copy)]
pub enum Measure {
    /// How many elements an array has.
    Length,
    /// The greatest subscript of an array.
    Last,
    /// How many bytes a variable takes.
    Size,
}

/// How a number was written.
#[derive(Clone, Copy)]
pub enum NumberOrigin {
    /// In digits.
    FromDigits,
    /// As a string of one or two characters.
    FromString,
    /// As LENGTH, LAST or SIZE of an object, or of a member of it, by its position in the structure.
    FromMeasure {
        measure: Measure,
        object: u32,
        member: Option<u32>,
    },
}

/// Which modules see a procedure: its own, others too, or it is another's.
#[derive(Clone, Copy)]
pub enum Visibility {
    Private,
    Public,
    External,
}

/// A member of a structure.
#[derive(Clone, Copy)]
pub struct TypedMember {
    pub name: Name,
    /// How many elements it has, if it is an array.
    pub dimension: Option<u16>,
    pub scalar: ScalarType,
}

/// What the bytes of an object are filled with.
#[derive(Clone, Copy)]
pub enum InitialValue {
    /// A byte.
    ByteValue(u8),
    /// Two bytes, the low one first.
    WordValue(u16),
    /// Two bytes: the address of an object, with a number added to it.
    LocationValue { object: u32, offset: u16 },
}

/// Where AT puts an object.
#[derive(Clone, Copy)]
pub enum AtAddress {
    /// At an address.
    AtNumber(u16),
    /// At a distance from where another object begins.
    AtObject { object: u32, offset: u16 },
}

/// An object or a list among the constants of a module, by its number.
#[derive(Clone, Copy)]
pub enum ConstantItem {
    /// An object with DATA.
    ConstantObject(u32),
    /// A constant list.
    ConstantList(u32),
}

/// An object or a procedure that is PUBLIC or EXTERNAL in a module, by its number.
#[derive(Clone, Copy)]
pub enum GlobalItem {
    GlobalObject(u32),
    GlobalProcedure(u32),
}

impl TypedMember {
    ghost use Rattle.std.specs.Prelude.{◌≡◌};
    ghost use Rattle.typed_trees.specs.Sizes.{size_of_member};

    /// How many bytes it takes, at most 131,070.
    pub fn size(&self) -> u32
        ensures { result ≡ size_of_member self.now }
    {
        let count = match self.dimension {
            Some(count) => count as u32,
            None => 1,
        };
        count * scalar_size(self.scalar)
    }
}

ghost use Rattle.std.specs.Prelude.{◌≡◌};
ghost use Rattle.typed_trees.specs.Sizes.{size_of_scalar};

/// How many bytes a scalar takes.
pub(crate) fn scalar_size(scalar: ScalarType) -> u32
    ensures { result ≡ size_of_scalar scalar }
{
    match scalar {
        ScalarType::Byte => 1,
        ScalarType::Address => 2,
    }
}
