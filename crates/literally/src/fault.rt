//! Why a list of words has no expansion.

ghost use Rattle.std.specs.Prelude.{◌≡◌};
ghost use Rattle.literally.specs.Fault.{number_of, start_of, line_of};

use crate::limits::{DEEPEST, MOST_WORDS};
use thiserror::Error;

/// Why a list of words has no expansion. `start` and `line` are those of the word of the list at which the fault is
/// found: the place of its first byte in the source, counted from 0, and its line, counted from 1.
#[derive(Clone, Copy, Debug, Error)]
pub enum Fault {
    /// The text of a definition is not a list of words. Its start and its line are those of the string.
    #[error("{0}, in the text of a LITERALLY definition")]
    Text(words::Fault),
    /// A name is replaced within too many texts.
    #[error("line {line}: LITERALLY definitions within one another more than {most} deep", most = DEEPEST)]
    Depth { start: u32, line: u32 },
    /// The list and the texts have too many words.
    #[error("line {line}: more than {most} words with those of LITERALLY definitions", most = MOST_WORDS)]
    Count { start: u32, line: u32 },
    /// The text of a definition holds a quote.
    #[error("line {line}: a quote in the text of a LITERALLY definition")]
    Quote { start: u32, line: u32 },
    /// A name that has a definition is defined again.
    #[error("line {line}: a name that LITERALLY defines already")]
    Again { start: u32, line: u32 },
}

impl Fault {
    /// The number under which the fault is reported: `C5` or `C6`, or that of the fault of a text, `C1` to `C4`.
    pub fn number(&self) -> &'static str
        ensures { result.now ≡ number_of self.now }
    {
        match self {
            Fault::Text(fault) => fault.number(),
            Fault::Depth { .. } => "C5",
            Fault::Count { .. } => "C5",
            Fault::Quote { .. } => "C6",
            Fault::Again { .. } => "C6",
        }
    }

    /// The place of the first byte of the word at which the fault is found, counted from 0.
    pub fn start(&self) -> u32
        ensures { result ≡ start_of self.now }
    {
        match self {
            Fault::Text(fault) => fault.start(),
            Fault::Depth { start, .. } => *start,
            Fault::Count { start, .. } => *start,
            Fault::Quote { start, .. } => *start,
            Fault::Again { start, .. } => *start,
        }
    }

    /// The line of the word at which the fault is found, counted from 1.
    pub fn line(&self) -> u32
        ensures { result ≡ line_of self.now }
    {
        match self {
            Fault::Text(fault) => fault.line(),
            Fault::Depth { line, .. } => *line,
            Fault::Count { line, .. } => *line,
            Fault::Quote { line, .. } => *line,
            Fault::Again { line, .. } => *line,
        }
    }
}
