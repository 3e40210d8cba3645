//! Why code can't be assembled.

use thiserror::Error;

/// Why code can't be assembled. If both causes hold, it is the first.
#[derive(Clone, Copy, Debug, Error)]
pub enum Fault {
    /// A1: a label is not bound.
    #[error("a label that is not bound")]
    UnboundLabel,
    /// A2: the code has more than 65535 bytes.
    #[error("code of more than 65535 bytes")]
    TooLong,
}

impl Fault {
    ghost use Rattle.std.specs.Prelude.{◌≡◌};
    ghost use Rattle.asm8080.specs.Numbers.{number_of};

    /// The number by which the documentation knows the fault.
    pub fn number(&self) -> &'static str
        ensures { result.now ≡ number_of self.now }
    {
        match self {
            Fault::UnboundLabel => "A1",
            Fault::TooLong => "A2",
        }
    }
}
