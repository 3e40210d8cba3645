//! Why a source text is not a list of words.

ghost use Rattle.std.specs.Prelude.{◌≡◌};
ghost use Rattle.words.specs.Fault.{number_of, start_of, line_of};

use crate::limits::GREATEST_NUMBER;
use symbols::LONGEST_NAME;
use thiserror::Error;

/// Why a source text is not a list of words. `start` is the place of the first byte of the word or comment at fault,
/// counted from 0. `line` is the line of this place, counted from 1.
#[derive(Clone, Copy, Debug, Error)]
pub enum Fault {
    /// A character that begins no word, or that a string or a comment may not have.
    #[error("line {line}: a character that is not valid here")]
    Character { start: u32, line: u32 },
    /// A string or a comment that is not closed.
    #[error("line {line}: a string or a comment that is not closed")]
    Unclosed { start: u32, line: u32 },
    /// A number that is too great, or one with a character that is not a digit of its base.
    #[error("line {line}: a number over {most}, or a digit that its base does not have", most = GREATEST_NUMBER)]
    Number { start: u32, line: u32 },
    /// A name that is too long.
    #[error("line {line}: a name of more than {most} characters", most = LONGEST_NAME)]
    Name { start: u32, line: u32 },
}

impl Fault {
    /// The number under which the fault is reported: `C1` to `C4`.
    pub fn number(&self) -> &'static str
        ensures { result.now ≡ number_of self.now }
    {
        match self {
            Fault::Character { .. } => "C1",
            Fault::Unclosed { .. } => "C2",
            Fault::Number { .. } => "C3",
            Fault::Name { .. } => "C4",
        }
    }

    /// The place of the first byte of the word or comment at fault, counted from 0.
    pub fn start(&self) -> u32
        ensures { result ≡ start_of self.now }
    {
        match self {
            Fault::Character { start, .. } => *start,
            Fault::Unclosed { start, .. } => *start,
            Fault::Number { start, .. } => *start,
            Fault::Name { start, .. } => *start,
        }
    }

    /// The line on which the word or comment at fault begins, counted from 1.
    pub fn line(&self) -> u32
        ensures { result ≡ line_of self.now }
    {
        match self {
            Fault::Character { line, .. } => *line,
            Fault::Unclosed { line, .. } => *line,
            Fault::Number { line, .. } => *line,
            Fault::Name { line, .. } => *line,
        }
    }
}
