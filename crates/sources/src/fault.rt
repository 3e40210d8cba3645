//! Why modules do not make a program, or one that can't lie as planned.

use thiserror::Error;
use trees::Name;

/// Why modules do not make a program, or one that can't lie as planned. No fault has a line.
#[derive(Clone, Copy, Debug, Error)]
pub enum ProgramFault {
    /// The modules do not make a program.
    #[error("{0}")]
    Join(join::Fault),
    /// The program can't lie as planned.
    #[error("{0}")]
    Placement(placing::Fault),
}

impl ProgramFault {
    ghost use Rattle.std.specs.Prelude.{◌≡◌};
    ghost use Rattle.sources.specs.ProgramFaults.{name_of, number_of};

    /// The number of the fault, as `plm` prints it.
    pub fn number(&self) -> &'static str
        ensures { result.now ≡ number_of self.now }
    {
        match self {
            ProgramFault::Join(fault) => fault.number(),
            ProgramFault::Placement(fault) => fault.number(),
        }
    }

    /// The name of the first EXTERNAL, PUBLIC or AT object that the fault is about, if it has one.
    pub fn name(&self) -> Option<Name>
        ensures { result ≡ name_of self.now }
    {
        match self {
            ProgramFault::Join(
                join::Fault::NoPublic { name }
                | join::Fault::PublicTwice { name }
                | join::Fault::DeclarationsDiffer { name },
            )
            | ProgramFault::Placement(placing::Fault::ObjectMisplaced { name }) => Some(*name),
            _ => None,
        }
    }
}
