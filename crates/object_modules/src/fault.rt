//! Why bytes are not an object file.

use thiserror::Error;

/// Why bytes are not an object file: the first fault in them.
#[derive(Clone, Copy, Debug, Error)]
pub enum Fault {
    /// O1: the bytes end within a record, or before an end-of-file record.
    #[error("the file ends within a record, or without an end-of-file record")]
    Truncated,
    /// O2: the bytes of a record don't add up to 0.
    #[error("a record whose bytes don't add up to 0")]
    WrongSum,
    /// O3: a record states a length of 0 or of more than 1028.
    #[error("a record with a length of 0 or of more than 1028")]
    WrongLength,
    /// O4: no record has this type.
    #[error("a type that no record of this profile has")]
    UnknownType,
    /// O5: a record where it may not stand, or bytes after the end of the file.
    #[error("a record where it may not stand, or bytes after the end of the file")]
    OutOfOrder,
    /// O6: a body that its record may not have.
    #[error("a record with a body that it may not have")]
    WrongBody,
    /// O7: a content that passes the end of its segment, or doesn't begin after the one before it there.
    #[error("a content that passes its segment, overlaps another, or doesn't ascend")]
    ContentMisplaced,
    /// O8: a fix that is not within its content, or that shares a byte with another.
    #[error("a fix outside its content, or one that shares a byte with another")]
    FixMisplaced,
    /// O9: an alignment other than byte, or page for code and data.
    #[error("an alignment that is not served")]
    WrongAlignment,
}

impl Fault {
    ghost use Rattle.std.specs.Prelude.{◌≡◌};
    ghost use Rattle.object_modules.specs.Numbers.{number_of};

    /// The number by which the documentation knows the fault.
    pub fn number(&self) -> &'static str
        ensures { result.now ≡ number_of self.now }
    {
        match self {
            Fault::Truncated => "O1",
            Fault::WrongSum => "O2",
            Fault::WrongLength => "O3",
            Fault::UnknownType => "O4",
            Fault::OutOfOrder => "O5",
            Fault::WrongBody => "O6",
            Fault::ContentMisplaced => "O7",
            Fault::FixMisplaced => "O8",
            Fault::WrongAlignment => "O9",
        }
    }
}
