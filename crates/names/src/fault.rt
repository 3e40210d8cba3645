//! What is wrong with a name.

use std::fmt;
use std::fmt::{Debug, Formatter};
use thiserror::Error;
use trees::Place;

/// What is wrong with a name. The place is that of the name. Lines are counted from 1.
#[derive(Clone, Copy, Error)]
pub enum Fault {
    /// A name is used where no declaration of it is known.
    #[error("line {}: a name that is not declared here", place.line)]
    Unknown { place: Place },
    /// A name is declared where it has been declared before.
    #[error("line {}: a name that is declared twice", place.line)]
    DeclaredTwice { place: Place },
}

// Written out, since a place has none. It shows the message.
impl Debug for Fault {
    fn fmt<W: fmt::Write>(&self, f: &mut Formatter<W>) -> fmt::Result {
        write!(f, "{self}")
    }
}

impl Fault {
    ghost use Rattle.std.specs.Prelude.{◌≡◌};
    ghost use Rattle.names.specs.internal.Faults.{line_of, number_of, place_of};

    /// The number by which the documentation and the command line know the fault.
    pub fn number(&self) -> &'static str
        ensures { result.now ≡ number_of self.now }
    {
        match self {
            Fault::Unknown { .. } => "C11",
            Fault::DeclaredTwice { .. } => "C12",
        }
    }

    /// The place of the name.
    pub fn place(&self) -> Place
        ensures { result ≡ place_of self.now }
    {
        match self {
            Fault::Unknown { place } | Fault::DeclaredTwice { place } => *place,
        }
    }

    /// The line of the name.
    pub fn line(&self) -> u32
        ensures { result ≡ line_of self.now }
    {
        self.place().line
    }
}
