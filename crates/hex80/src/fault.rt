//! Why a text is not a HEX text.

use thiserror::Error;

/// How many bytes a written line has, but for the last of a piece.
pub const BYTES_IN_LINE: usize = 16;

/// Why a text is not a HEX text: the first fault in it.
#[derive(Clone, Copy, Debug, Error)]
pub enum Fault {
    /// H1: neither a data line nor the end line, or text after the end line.
    #[error("a line that is neither a data line nor the last one")]
    BadLine,
    /// H2: the bytes of a line don't add up to 0.
    #[error("a line whose bytes don't add up to 0")]
    WrongSum,
    /// H3: the text ends without an end line.
    #[error("no end line")]
    NoEnd,
    /// H4: a line has an address that a line before it has.
    #[error("two lines with bytes for one address")]
    Overlap,
}

impl Fault {
    ghost use Rattle.std.specs.Prelude.{◌≡◌};
    ghost use Rattle.hex80.specs.Numbers.{number_of};

    /// The number by which the documentation knows the fault.
    pub fn number(&self) -> &'static str
        ensures { result.now ≡ number_of self.now }
    {
        match self {
            Fault::BadLine => "H1",
            Fault::WrongSum => "H2",
            Fault::NoEnd => "H3",
            Fault::Overlap => "H4",
        }
    }
}
