//! The definitions in force.

ghost use Rattle.std.specs.Prelude.{◌≡◌, ℕ, ◌-◌, [], ◌∷◌, ◌++◌, List, length, reverse, slice_range};
ghost use Rattle.std.specs.Prelude.{OnOk, MatchOption, Some, if◌then◌else◌};
ghost use Rattle.std.specs.Option.{option_map};
ghost use Rattle.std.specs.Str.{bytes_eq};
ghost use Rattle.failure.specs.Failure.{IfFault};
ghost use Rattle.symbols.specs.Names.{name_of};
ghost use Rattle.words.specs.Spelling.{Lexeme, lexeme_of, lexemes_of};
ghost use Rattle.literally.specs.Definitions.{name_defined, has_quote, in_force};
ghost use Rattle.literally.specs.Expansion.{IsSound, at_string};
ghost use Rattle.literally.specs.internal.Held.{words_for, AreHeld, StandsFor};
ghost use Rattle.literally.specs.internal.Steps.{IsFaultAt};

use crate::fault::Fault;
use crate::names::Name;
use failure::Failure;
use indexmap::IndexMap;
use std::alloc::{AllocError, Global};
use words::{Kind, ReservedWord, Word, scan};

/// The definitions in force: the words of the text of each name.
#[derive(Drop)]
pub(crate) struct Definitions<'a> {
    texts: IndexMap<Name<'a>, Vec<Word<'a>>>,
}

impl<'a> Definitions<'a> {
    // No definitions.
    pub(crate) fn new(alloc: Global) -> Self
        ensures { AreHeld [] result.texts }
    {
        Definitions {
            texts: IndexMap::new(alloc),
        }
    }

    // The words that replace a word, if it is a name in force.
    pub(crate) fn text_for(&self, word: &Word<'a>) -> Option<&[Word<'a>]>
        ensures { (output : List Lexeme) → AreHeld output self.now.texts → MatchOption result
            (in_force output (lexeme_of word.now) ≡ None)
            (λ text. StandsFor output (lexeme_of word.now) (lexemes_of text.now)) }
    {
        match word.kind {
            Kind::Name => match self.texts.get(&Name { text: word.text }) {
                Some(text) => Some(text.as_slice()),
                None => None,
            },
            _ => None,
        }
    }

    // Adds the definition that a word completes after an output, if it completes one.
    pub(crate) fn define(
        &mut self,
        alloc: Global,
        output: &[Word<'a>],
        word: Word<'a>,
    ) -> Result<(), Failure<Fault>>
        requires { AreHeld (lexemes_of output.now) self.old.texts }
        ensures sound { OnOk result (IsSound (lexemes_of output.now) (lexeme_of word.entry)) }
        ensures held { OnOk result
            (AreHeld (lexemes_of output.now ++ lexeme_of word.entry ∷ []) self.new.texts) }
        ensures fault { IfFault result (λ fault. (processed : ℕ)
            → IsFaultAt (lexemes_of output.now) processed (lexeme_of word.entry) fault) }
    {
        let Some(name) = name_to_define(output, word) else {
            return Ok(());
        };
        let text = text_of(word.text);
        if has_quote(text) {
            return Err(Failure::Fault(Fault::Quote {
                start: word.start,
                line: word.line,
            }));
        }
        match scan(alloc, text) {
            Ok(words) => {
                self.insert(name, words)?;
                Ok(())
            }
            Err(Failure::Fault(fault)) => {
                Err(Failure::Fault(Fault::Text(at_string(word, fault))))
            }
            Err(Failure::Memory) => Err(Failure::Memory),
        }
    }

    // Adds the words of a name's text.
    fn insert(&mut self, name: Name<'a>, words: Vec<Word<'a>>) -> Result<(), AllocError>
        ensures { OnOk result ((other : List ℕ) → words_for self.new.texts other
            ≡ (if bytes_eq other (name_of name.entry.text.now) then Some words.entry
            else words_for self.old.texts other)) }
    {
        self.texts.insert(name, words)?;
        Ok(())
    }
}

// The name that a word defines after an output, if it completes a definition.
fn name_to_define<'a>(output: &[Word<'a>], word: Word<'a>) -> Option<Name<'a>>
    ensures { option_map (λ name. name_of name.text.now) result
        ≡ name_defined (lexeme_of word.entry) (reverse (lexemes_of output.now)) }
{
    match output {
        [.., name, literally]
            if word.kind == Kind::String
                && literally.kind == Kind::Reserved(ReservedWord::Literally)
                && name.kind == Kind::Name => { Some(Name { text: name.text }) }
        _ => None,
    }
}

// The bytes between the quotes of a string.
fn text_of(string: &[u8]) -> &[u8]
    ensures { result.now ≡ slice_range string.now 1 (length string.now - 1) }
{
    match string {
        [_, text @ .., _] => text,
        _ => &[],
    }
}

// Whether a text holds a quote.
fn has_quote(text: &[u8]) -> bool
    ensures { result ≡ has_quote text.now }
{
    text.iter().any(|b| *b == b'\'')
}

// The fault of a text, at the start and on the line of its string.
fn at_string(string: Word, fault: words::Fault) -> words::Fault
    ensures { result ≡ at_string (lexeme_of string.entry) fault }
{
    let start = string.start;
    let line = string.line;
    match fault {
        words::Fault::Character { .. } => words::Fault::Character { start, line },
        words::Fault::Unclosed { .. } => words::Fault::Unclosed { start, line },
        words::Fault::Number { .. } => words::Fault::Number { start, line },
        words::Fault::Name { .. } => words::Fault::Name { start, line },
    }
}
