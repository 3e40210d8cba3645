//! Why modules make no program.

use thiserror::Error;
use trees::Name;

/// Why modules make no program. The names are those of the first EXTERNAL or PUBLIC with the fault; no fault has a line.
#[derive(Clone, Copy, Debug, Error)]
pub enum Fault {
    /// J1: an EXTERNAL name that no module has as PUBLIC.
    #[error("{name} is EXTERNAL, and no module has it as PUBLIC")]
    NoPublic { name: Name },
    /// J2: two PUBLICs of one name.
    #[error("{name} is PUBLIC twice")]
    PublicTwice { name: Name },
    /// J3: an EXTERNAL and the PUBLIC of its name are declared with different types.
    #[error("{name} is declared otherwise where it is PUBLIC")]
    DeclarationsDiffer { name: Name },
    /// J4: no module has statements at its outer level, or more than one has.
    #[error("not just one module is a main module")]
    NotOneMain,
}

impl Fault {
    ghost use Rattle.std.specs.Prelude.{◌≡◌};
    ghost use Rattle.join.specs.Views.{number_of};

    /// The number by which the documentation and the command line know the fault.
    pub fn number(&self) -> &'static str
        ensures { result.now ≡ number_of self.now }
    {
        match self {
            Fault::NoPublic { .. } => "J1",
            Fault::PublicTwice { .. } => "J2",
            Fault::DeclarationsDiffer { .. } => "J3",
            Fault::NotOneMain => "J4",
        }
    }
}
