//! The faults of code generation.

use thiserror::Error;

/// A fault of code generation.
#[derive(Clone, Copy, Debug, Error)]
pub enum Fault {
    /// G1: its code segment would have more than 65535 bytes.
    #[error("a code segment of more than 65535 bytes")]
    TooLong,
}

impl Fault {
    ghost use Rattle.std.specs.Prelude.{◌≡◌};
    ghost use Rattle.codegen8080.specs.Faults.{number_of};

    /// The number of the fault in the documentation and on the command line.
    pub fn number(&self) -> &'static str
        ensures { result.now ≡ number_of self.now }
    {
        match self {
            Fault::TooLong => "G1",
        }
    }
}
