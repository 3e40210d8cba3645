//! Places and locations, before the segments of a module have their addresses.

/// A known word: a number, or an address relative to a segment of the module or to an EXTERNAL name.
#[derive(Clone, Copy, PartialEq, Eq)]
pub enum Place {
    /// A number.
    Number(u16),
    /// This offset from the start of the code segment, which begins with the constants.
    Code(u16),
    /// This offset from the start of the data segment.
    Data(u16),
    /// This offset, modulo 65536, from the address of an EXTERNAL name, by its index among the external names.
    External { offset: u16, name: u32 },
}

/// The location of a scalar without a subscript and without a base.
#[derive(Clone, Copy, PartialEq, Eq)]
pub enum Location {
    /// In memory.
    Static(Place),
    /// This offset from the start of a variable or parameter in the frame of a REENTRANT procedure, by its number
    /// there.
    Frame { variable: u16, offset: u16 },
}

/// The start of an object.
#[derive(Clone, Copy)]
pub enum Home {
    /// In memory.
    Static(Place),
    /// At the address that a scalar holds, its base.
    Based(Location),
    /// At the start of a variable or parameter in the frame of a REENTRANT procedure, by its number there.
    Frame(u16),
}

impl Place {
    ghost use Rattle.std.specs.Prelude.{◌≡◌};
    ghost use Rattle.treecode.specs.internal.Homes.{number_of_place, place_after};

    /// The place `distance` bytes further on, modulo 65536.
    pub fn after(self, distance: u16) -> Place
        ensures { result ≡ place_after self distance }
    {
        match self {
            Place::Number(number) => Place::Number(number.wrapping_add(distance)),
            Place::Code(offset) => Place::Code(offset.wrapping_add(distance)),
            Place::Data(offset) => Place::Data(offset.wrapping_add(distance)),
            Place::External { name, offset } => Place::External {
                name,
                offset: offset.wrapping_add(distance),
            },
        }
    }

    /// The number, if the place is one.
    pub fn number(self) -> Option<u16>
        ensures { result ≡ number_of_place self }
    {
        match self {
            Place::Number(number) => Some(number),
            Place::Code(_) | Place::Data(_) | Place::External { .. } => None,
        }
    }
}

impl Location {
    ghost use Rattle.std.specs.Prelude.{◌≡◌};
    ghost use Rattle.treecode.specs.internal.Homes.{location_after};

    /// The location `distance` bytes further on, modulo 65536.
    pub fn after(self, distance: u16) -> Location
        ensures { result ≡ location_after self distance }
    {
        match self {
            Location::Static(place) => Location::Static(place.after(distance)),
            Location::Frame { variable, offset } => Location::Frame {
                variable,
                offset: offset.wrapping_add(distance),
            },
        }
    }
}
