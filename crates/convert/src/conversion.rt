//! Conversion of a text.

ghost use Rattle.std.specs.Prelude.{◌≤◌, length, IfOk};
ghost use Rattle.failure.specs.Failure.{IfFault};
ghost use Rattle.words.specs.Spelling.{Spells, lexemes_of};
ghost use Rattle.literally.specs.Expansion.{Expands};
ghost use Rattle.convert.specs.Conversion.{IsChanged, IsConversion, IsRefused};
ghost use Rattle.convert.specs.Edits.{changes_of};

use crate::class::see;
use crate::converting::{Note, change_all, note_all};
use crate::edit::{Edit, splice};
use crate::rule::Rule;
use failure::Failure;
use literally::{Fault, expand};
use std::alloc::{AllocError, Global};
use words::{LONGEST_SOURCE, Word, scan};

/// A converted text: the changes that were made, and what could not be changed, in the order of the text.
#[derive(Drop)]
pub struct Conversion {
    pub text: Vec<u8>,
    pub edits: Vec<Edit>,
    pub notes: Vec<Note>,
}

/// A text with its words changed by rules, as `RULES`. A text that is not a list of words, or in which a definition by
/// LITERALLY is refused, is refused with that fault. Takes memory and time that grow with the text and its expansion.
pub fn convert(alloc: Global, rules: &[Rule], source: &[u8]) -> Result<Conversion, Failure<Fault>>
    requires { length source.now ≤ LONGEST_SOURCE }
    ensures converted { IfOk result (λ conversion. IsConversion rules.now source.now
        conversion.text.items (changes_of conversion.edits.items) conversion.notes.items) }
    ensures fault { IfFault result (IsRefused source.now) }
{
    let words = words_of(alloc, source)?;
    let expanded = expansion_of(alloc, source, words.as_slice())?;
    let conversion = change(alloc, rules, source, words.as_slice(), expanded.as_slice())?;
    Ok(conversion)
}

// The words of a text.
fn words_of(alloc: Global, source: &[u8]) -> Result<Vec<Word<'_>>, Failure<Fault>>
    requires { length source.now ≤ LONGEST_SOURCE }
    ensures spells { IfOk result (λ words. Spells source.now (lexemes_of words.items)) }
    ensures fault { IfFault result (IsRefused source.now) }
{
    match scan(alloc, source) {
        Ok(words) => Ok(words),
        Err(Failure::Fault(fault)) => Err(Failure::Fault(Fault::Text(fault))),
        Err(Failure::Memory) => Err(Failure::Memory),
    }
}

// The expansion of the words of a text, which are few then.
fn expansion_of<'a>(
    alloc: Global,
    source: &[u8],
    words: &[Word<'a>],
) -> Result<Vec<Word<'a>>, Failure<Fault>>
    requires { Spells source.now (lexemes_of words.now) }
    ensures expansion { IfOk result (λ output. Expands (lexemes_of words.now) (lexemes_of output.items)) }
    ensures fault { IfFault result (IsRefused source.now) }
    ensures few { IfOk result (λ _. length words.now ≤ 4294967296) }
    ensures short { IfOk result (λ output. length output.items ≤ 4294967296) }
{
    match expand(alloc, words) {
        Ok(output) => Ok(output),
        Err(Failure::Fault(fault)) => Err(Failure::Fault(fault)),
        Err(Failure::Memory) => Err(Failure::Memory),
    }
}

// A text with these words, which have this expansion, changed.
fn change(
    alloc: Global,
    rules: &[Rule],
    source: &[u8],
    words: &[Word],
    expanded: &[Word],
) -> Result<Conversion, AllocError>
    requires words { length words.now ≤ 4294967296 }
    requires expanded { length expanded.now ≤ 4294967296 }
    ensures { IfOk result (λ conversion. IsChanged rules.now source.now words.now expanded.now
        conversion.text.items (changes_of conversion.edits.items) conversion.notes.items) }
{
    let seen = see(alloc, words, expanded)?;
    let mut edits = Vec::new(alloc);
    let mut notes = Vec::new(alloc);
    change_all(alloc, rules, source, seen.as_slice(), &mut edits)?;
    note_all(rules, seen.as_slice(), &mut notes)?;
    let text = splice(alloc, source, edits.as_slice())?;
    Ok(Conversion { text, edits, notes })
}
