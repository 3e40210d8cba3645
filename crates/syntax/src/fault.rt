//! Why words are not a module.

use std::fmt;
use thiserror::Error;
use trees::Place;

/// Why words are not a module, with the place of the word at fault.
#[derive(Clone, Copy, Error)]
pub enum Fault {
    /// A word that no module has there.
    #[error("line {}: a word that cannot stand here", .place.line)]
    Word { place: Place },
    /// The words end before the module does. The place is that of the last word; of no words it is the start of
    /// line 1.
    #[error("line {}: the words end before the module does", .place.line)]
    End { place: Place },
    /// The word begins what would be nested more than 64 levels deep. If the words end there, the place is that of
    /// the last one.
    #[error("line {}: nested more than 64 levels deep", .place.line)]
    Depth { place: Place },
    /// The name after END is not that of what it ends. The place is that of the name after END.
    #[error("line {}: a name after END that is not the name of what ends", .place.line)]
    EndName { place: Place },
}

impl fmt::Debug for Fault {
    fn fmt<W: fmt::Write>(&self, f: &mut fmt::Formatter<W>) -> fmt::Result {
        fmt::Display::fmt(self, f)
    }
}

impl Fault {
    ghost use Rattle.std.specs.Prelude.{◌≡◌};
    ghost use Rattle.syntax.specs.Faults.{number_of, line_of, place_of};

    /// The number by which the documentation and the command line know the fault.
    pub fn number(&self) -> &'static str
        ensures { result.now ≡ number_of self.now }
    {
        match self {
            Fault::Word { .. } | Fault::End { .. } => "C7",
            Fault::Depth { .. } => "C8",
            Fault::EndName { .. } => "C9",
        }
    }

    /// The place of the word at which the fault is found.
    pub fn place(&self) -> Place
        ensures { result ≡ place_of self.now }
    {
        match self {
            Fault::Word { place }
            | Fault::End { place }
            | Fault::Depth { place }
            | Fault::EndName { place } => *place,
        }
    }

    /// The line at which the fault is found, counted from 1.
    pub fn line(&self) -> u32
        ensures { result ≡ line_of self.now }
    {
        self.place().line
    }
}
