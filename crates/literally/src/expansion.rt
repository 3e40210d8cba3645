//! The expansion.

ghost use Rattle.std.specs.Prelude.{◌≡◌, ◌↔◌, IsTrue, false, ◌+◌, ◌<◌, ◌≤◌, [], ◌∷◌, ◌++◌, OnOk, IfOk, IfErr};
ghost use Rattle.failure.specs.Failure.{IfFault};
ghost use Rattle.words.specs.Spelling.{lexeme_of, lexemes_of};
ghost use Rattle.literally.specs.Expansion.{at_use, begins_with_literally, is_defined_again, IsSound};
ghost use Rattle.literally.specs.Expansion.{Expands, FaultFrom, IsFault};
ghost use Rattle.literally.specs.internal.Held.{AreHeld, StandsFor};
ghost use Rattle.literally.specs.internal.Steps.{Adds, IsFaultAt};

use crate::definitions::Definitions;
use crate::fault::Fault;
use crate::limits::{DEEPEST, MOST_WORDS};
use failure::Failure;
use std::alloc::{AllocError, Global};
use words::{Kind, ReservedWord, Word};

/// Replaces each name that LITERALLY defines by the words of its text, and again the names among these. A definition
/// is a name, LITERALLY and a string in a row in the output. These three words stay, and the definition holds for the
/// words after them. A replacing word has the start and the line of the word that it replaces. Words that have no
/// expansion are refused with a fault. Time and memory grow with the number of words that are processed: those of the
/// list, and those of each text as often as it is used.
pub fn expand<'a>(alloc: Global, words: &[Word<'a>]) -> Result<Vec<Word<'a>>, Failure<Fault>>
    ensures expansion { IfOk result (λ output. Expands (lexemes_of words.now) (lexemes_of output.items)) }
    ensures fault { IfFault result (IsFault (lexemes_of words.now)) }
{
    let mut definitions = Definitions::new(alloc);
    let mut output = Vec::new(alloc);
    let mut processed = 0;
    for (i, word) in words.iter().enumerate() {
        processed = expand_word(
            alloc,
            &mut definitions,
            *word,
            &words[i + 1..],
            processed,
            &mut output,
        )?;
    }
    Ok(output)
}

// Adds to the output what a word of the list becomes, and returns how many words are then processed. The words after
// it decide whether it is defined again.
fn expand_word<'a>(
    alloc: Global,
    definitions: &mut Definitions<'a>,
    word: Word<'a>,
    after: &[Word<'a>],
    processed: usize,
    output: &mut Vec<Word<'a>>,
) -> Result<usize, Failure<Fault>>
    requires held { AreHeld (lexemes_of output.old.items) definitions.old.texts }
    requires processed { processed ≤ MOST_WORDS }
    ensures added { IfOk result
        (Adds (lexemes_of output.old.items) processed (lexeme_of word.entry) (lexemes_of output.new.items)) }
    ensures sound { OnOk result (IsSound (lexemes_of output.old.items) (lexeme_of word.entry)) }
    ensures once { OnOk result (is_defined_again
        (lexemes_of output.old.items) (lexeme_of word.entry) (lexemes_of after.now) ≡ false) }
    ensures held { OnOk result (AreHeld (lexemes_of output.new.items) definitions.new.texts) }
    ensures fault { IfFault result
        (FaultFrom (lexemes_of output.old.items) processed (lexeme_of word.entry ∷ lexemes_of after.now)) }
{
    match definitions.text_for(&word) {
        Some(_) if begins_with_literally(after) => {
            Err(Failure::Fault(Fault::Again {
                start: word.start,
                line: word.line,
            }))
        }
        Some(text) => replace(alloc, definitions, word, text, processed, output),
        None => {
            let processed = count_word(processed, word)?;
            definitions.define(alloc, output, word)?;
            push_word(output, word)?;
            Ok(processed)
        }
    }
}

// Adds to the output what a word of the list that stands for a text becomes, and returns how many words are then
// processed. The texts that are not done wait on a stack.
fn replace<'a, 'd>(
    alloc: Global,
    definitions: &'d Definitions<'a>,
    used: Word<'a>,
    text: &'d [Word<'a>],
    processed: usize,
    output: &mut Vec<Word<'a>>,
) -> Result<usize, Failure<Fault>>
    requires held { AreHeld (lexemes_of output.old.items) definitions.now.texts }
    requires text { StandsFor (lexemes_of output.old.items) (lexeme_of used) (lexemes_of text.now) }
    requires processed { processed ≤ MOST_WORDS }
    ensures added { IfOk result
        (Adds (lexemes_of output.old.items) processed (lexeme_of used.entry) (lexemes_of output.new.items)) }
    ensures fault { IfFault result
        (IsFaultAt (lexemes_of output.old.items) processed (lexeme_of used.entry)) }
{
    let mut processed = count_word(processed, used)?;
    let mut pending = Vec::new(alloc);
    push_text(&mut pending, text)?;
    while let Some(words) = pending.pop() {
        let [word, rest @ ..] = words else {
            continue;
        };
        processed = count_word(processed, used)?;
        push_text(&mut pending, rest)?;
        let Some(inner) = definitions.text_for(word) else {
            push_word(output, at_use(used, *word))?;
            continue;
        };
        if is_deepest(pending.len()) {
            return Err(Failure::Fault(Fault::Depth {
                start: used.start,
                line: used.line,
            }));
        }
        push_text(&mut pending, inner)?;
    }
    Ok(processed)
}

// Whether a name at this depth of texts is not replaced any more.
fn is_deepest(depth: usize) -> bool
    ensures { IsTrue result ↔ (depth ≡ DEEPEST) }
{
    depth == DEEPEST
}

// Counts one more word as processed, for this word of the list.
fn count_word(processed: usize, word: Word) -> Result<usize, Failure<Fault>>
    ensures ok { IfOk result (λ count. (count ≡ processed + 1) × (count ≤ MOST_WORDS)) }
    ensures err { IfErr result
        (λ failure. (failure ≡ Failure.Fault (Fault.Count word.entry.start word.entry.line)) × (MOST_WORDS < processed + 1)) }
{
    if processed >= MOST_WORDS {
        return Err(Failure::Fault(Fault::Count {
            start: word.start,
            line: word.line,
        }));
    }
    Ok(processed + 1)
}

// A word of a text at the place of the word that the text replaces.
fn at_use<'a>(used: Word<'a>, word: Word<'a>) -> Word<'a>
    ensures { lexeme_of result ≡ at_use (lexeme_of used.entry) (lexeme_of word.entry) }
{
    Word {
        kind: word.kind,
        text: word.text,
        start: used.start,
        line: used.line,
    }
}

// Whether the first of some words is LITERALLY.
fn begins_with_literally(words: &[Word]) -> bool
    ensures { result ≡ begins_with_literally (lexemes_of words.now) }
{
    match words {
        [word, ..] => word.kind == Kind::Reserved(ReservedWord::Literally),
        [] => false,
    }
}

// Adds a word at the end.
fn push_word<'a>(words: &mut Vec<Word<'a>>, word: Word<'a>) -> Result<(), AllocError>
    ensures { OnOk result
        (lexemes_of words.new.items ≡ lexemes_of words.old.items ++ lexeme_of word.entry ∷ []) }
{
    words.push(word)?;
    Ok(())
}

// Adds words to be processed before all others.
fn push_text<'a, 'd>(
    pending: &mut Vec<&'d [Word<'a>]>,
    text: &'d [Word<'a>],
) -> Result<(), AllocError>
    ensures { OnOk result (pending.new.items ≡ pending.old.items ++ text.entry ∷ []) }
{
    pending.push(text)?;
    Ok(())
}
