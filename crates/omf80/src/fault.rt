//! Why bytes begin with no record.

use thiserror::Error;

/// Why bytes begin with no record.
#[derive(Clone, Copy, Debug, Error)]
pub enum Fault {
    /// O1: the bytes end before the record does.
    #[error("the file ends within a record, or without an end-of-file record")]
    Truncated,
    /// O2: the bytes of the record don't add up to 0.
    #[error("a record whose bytes don't add up to 0")]
    WrongSum,
    /// O3: the record states a length of 0 or of more than 1028.
    #[error("a record with a length of 0 or of more than 1028")]
    WrongLength,
    /// O4: no record has this type.
    #[error("a type that no record of this profile has")]
    UnknownType,
}

impl Fault {
    ghost use Rattle.std.specs.Prelude.{◌≡◌};
    ghost use Rattle.omf80.specs.internal.Numbers.{number_of};

    /// The number by which the documentation knows the fault.
    pub fn number(&self) -> &'static str
        ensures { result.now ≡ number_of self.now }
    {
        match self {
            Fault::Truncated => "O1",
            Fault::WrongSum => "O2",
            Fault::WrongLength => "O3",
            Fault::UnknownType => "O4",
        }
    }
}
