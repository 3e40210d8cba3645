//! The scanner.

ghost use Rattle.std.specs.Prelude.{◌≡◌, ◌≤◌, length, IfOk};
ghost use Rattle.failure.specs.Failure.{IfFault};
ghost use Rattle.words.specs.Spelling.{lexemes_of, fault_of, Spells, IsFirstFault, AreSlices, StartsRise};

use crate::characters::count_of_line_feeds;
use crate::fault::Fault;
use crate::items::{Cause, Item, next_item};
use crate::limits::LONGEST_SOURCE;
use crate::word::Word;
use failure::Failure;
use std::alloc::Global;

/// Splits a source text into its words. They come in order, each with the slice of the source that it is. A text
/// that is not a list of words is refused with its first fault. One pass, which takes memory for the words alone.
pub fn scan<'a>(alloc: Global, source: &'a [u8]) -> Result<Vec<Word<'a>>, Failure<Fault>>
    requires { length source.now ≤ LONGEST_SOURCE }
    ensures spells { IfOk result (λ words. Spells source.now (lexemes_of words.items)) }
    ensures slices { IfOk result (λ words. AreSlices source.now (lexemes_of words.items)) }
    ensures rising { IfOk result (λ words. StartsRise (lexemes_of words.items)) }
    ensures fault { IfFault result (IsFirstFault source.now) }
{
    let mut words = Vec::new(alloc);
    let mut start = 0;
    let mut line = 1;
    loop {
        match next_item(&source[start..]) {
            Item::Ending => return Ok(words),
            Item::Wrong(cause) => {
                return Err(Failure::Fault(fault_of(cause, start as u32, line)));
            }
            Item::Blank(length) => {
                line += count_of_line_feeds(&source[start..start + length]) as u32;
                start += length;
            }
            Item::Spelled(kind, length) => {
                let text = &source[start..start + length];
                words.push(Word {
                    kind,
                    text,
                    start: start as u32,
                    line,
                })?;
                line += count_of_line_feeds(text) as u32;
                start += length;
            }
        }
    }
}

// The fault that a cause is at a place on a line.
fn fault_of(cause: Cause, start: u32, line: u32) -> Fault
    ensures { result ≡ fault_of cause start line }
{
    match cause {
        Cause::BadCharacter => Fault::Character { start, line },
        Cause::NotClosed => Fault::Unclosed { start, line },
        Cause::BadNumber => Fault::Number { start, line },
        Cause::LongName => Fault::Name { start, line },
    }
}
