//! What words are to the rules.

ghost use Rattle.std.specs.Prelude.{◌≡◌, ◌≤◌, ◌+◌, [], ◌∷◌, ◌++◌, length, IfOk};
ghost use Rattle.convert.specs.Classes.{seen, seen_in, class_here, count_at, class_of, is_value};
ghost use Rattle.convert.specs.Classes.{class_at_end, class_of_end, closed, has_other_name, last_block, opened};

use crate::labels::{front_words, is_label_of, is_name};
use std::alloc::{AllocError, Global};
use words::{Kind, Mark, ReservedWord, Word};

/// What a word is to the rules. A name that LITERALLY defines as one word is what that word is.
#[derive(Clone, Copy)]
pub enum Class {
    /// A name.
    Name,
    /// A reserved word.
    Reserved(ReservedWord),
    /// A number.
    Number,
    /// A number with which the text begins.
    FirstNumber,
    /// A string.
    String,
    /// A mark.
    Mark(Mark),
    /// The END of a DO that is in a block, with one of its labels or without a name.
    EndOfDo,
    /// The END of a DO that is in a block, with a name that is no label of the DO.
    EndOfOther,
    /// A name that LITERALLY defines as a number.
    Constant,
    /// A name that LITERALLY defines as no word, or as several.
    Several,
}

/// A word of the source, with what it is to the rules.
#[derive(Clone, Copy)]
pub struct Seen<'a> {
    pub class: Class,
    pub word: Word<'a>,
}

/// A block that is open at a word of the source.
#[derive(Clone, Copy)]
pub struct Opened {
    /// Whether it is a DO that is in a block.
    pub inner: bool,
    /// How many words stand before its DO or PROCEDURE.
    pub place: usize,
}

/// The words of a source as the rules see them, from these words and from their expansion.
pub(crate) fn see<'a>(
    alloc: Global,
    words: &[Word<'a>],
    expanded: &[Word<'a>],
) -> Result<Vec<Seen<'a>>, AllocError>
    requires { length expanded.now ≤ 4294967296 }
    ensures seen { IfOk result (λ all. all.items ≡ seen words.now expanded.now) }
    ensures count { IfOk result (λ all. length all.items ≡ length words.now) }
{
    let mut all = Vec::new(alloc);
    let mut blocks = Vec::new(alloc);
    see_all(words, expanded, &mut blocks, &mut all)?;
    Ok(all)
}

// Adds words as the rules see them, where these blocks are open.
fn see_all<'a>(
    words: &[Word<'a>],
    expanded: &[Word<'a>],
    blocks: &mut Vec<Opened>,
    all: &mut Vec<Seen<'a>>,
) -> Result<(), AllocError>
    requires { length expanded.now ≤ 4294967296 }
    ensures seen { IfOk result (λ _. all.new.items
        ≡ all.old.items ++ seen_in blocks.old.items all.old.items words.now expanded.now) }
    ensures count { IfOk result (λ _. length all.new.items ≡ length all.old.items + length words.now) }
{
    let mut rest = expanded;
    let mut after = words;
    while let [word, more @ ..] = after {
        let count = count_at(word.start, rest);
        see_word(word, &rest[..count], more, &rest[count..], blocks, all)?;
        rest = &rest[count..];
        after = more;
    }
    Ok(())
}

// Adds a word, for which these words stand, before other words with their expansion.
fn see_word<'a>(
    word: &Word<'a>,
    standing: &[Word<'a>],
    words: &[Word<'a>],
    expanded: &[Word<'a>],
    blocks: &mut Vec<Opened>,
    all: &mut Vec<Seen<'a>>,
) -> Result<(), AllocError>
    ensures seen { IfOk result (λ _. let class = class_here
        blocks.old.items all.old.items word.now standing.now words.now expanded.now in
        all.new.items ≡ all.old.items ++ record { class = class; word = word.now } ∷ []) }
    ensures blocks { IfOk result (λ _. let class = class_here
        blocks.old.items all.old.items word.now standing.now words.now expanded.now in
        blocks.new.items ≡ opened class (length all.old.items) (closed class blocks.old.items)) }
{
    let before = all.as_slice();
    let alone = class_of(standing, word.kind, before.is_empty());
    let class = class_in_block(alone, blocks.as_slice(), before, words, expanded);
    close_block(class, blocks);
    open_block(class, all.len(), blocks)?;
    all.push(Seen { class, word: *word })?;
    Ok(())
}

// How many words at the front have this start.
fn count_at(start: u32, words: &[Word]) -> usize
    ensures count { result ≡ count_at start words.now }
    ensures within { result ≤ length words.now }
{
    let mut count = 0;
    let mut rest = words;
    while let [word, more @ ..] = rest {
        if word.start != start {
            return count;
        }
        count += 1;
        rest = more;
    }
    count
}

// Whether a word is a number or a string.
fn is_value(kind: Kind) -> bool
    ensures { result ≡ is_value kind }
{
    matches!(kind, Kind::Number(_) | Kind::String)
}

// What a word of a kind is, for which these words stand.
fn class_of(words: &[Word], kind: Kind, first: bool) -> Class
    ensures { result ≡ class_of words.now kind first }
{
    match words {
        [word] if !is_value(word.kind) || is_value(kind) => match word.kind {
            Kind::Name => Class::Name,
            Kind::Reserved(word) => Class::Reserved(word),
            Kind::Number(_) if first => Class::FirstNumber,
            Kind::Number(_) => Class::Number,
            Kind::String => Class::String,
            Kind::Mark(mark) => Class::Mark(mark),
        },
        [_] => Class::Constant,
        _ => Class::Several,
    }
}

// What a word of a class is in these blocks, after these words and before others with their expansion.
fn class_in_block(
    class: Class,
    blocks: &[Opened],
    before: &[Seen],
    words: &[Word],
    expanded: &[Word],
) -> Class
    ensures { result
        ≡ class_at_end class (class_of_end (last_block blocks.now) before.now words.now expanded.now) }
{
    match class {
        Class::Reserved(ReservedWord::End) => {
            class_of_end(last_block(blocks), before, words, expanded)
        }
        other => other,
    }
}

// The last of the open blocks.
fn last_block(blocks: &[Opened]) -> Opened
    ensures { result ≡ last_block blocks.now }
{
    if blocks.is_empty() {
        Opened {
            inner: false,
            place: 0,
        }
    } else {
        blocks[blocks.len() - 1]
    }
}

// What an END is that ends this block.
fn class_of_end(block: Opened, before: &[Seen], words: &[Word], expanded: &[Word]) -> Class
    ensures { result ≡ class_of_end block before.now words.now expanded.now }
{
    if !block.inner {
        Class::Reserved(ReservedWord::End)
    } else if has_other_name(front_words(before, block.place), words, expanded) {
        Class::EndOfOther
    } else {
        Class::EndOfDo
    }
}

// Whether words begin with a name that is no label at the end of the words before a DO.
fn has_other_name(before: &[Seen], words: &[Word], expanded: &[Word]) -> bool
    ensures { result ≡ has_other_name before.now words.now expanded.now }
{
    match words {
        [word, ..] => {
            let count = count_at(word.start, expanded);
            is_name(class_of(&expanded[..count], word.kind, false))
                && !is_label_of(before, word.text)
        }
        [] => false,
    }
}

// Closes the last block at an END.
fn close_block(class: Class, blocks: &mut Vec<Opened>)
    ensures { blocks.new.items ≡ closed class blocks.old.items }
{
    match class {
        Class::EndOfDo | Class::EndOfOther | Class::Reserved(ReservedWord::End) => {
            let _ = blocks.pop();
        }
        _ => {}
    }
}

// Opens a block at a DO or a PROCEDURE, with this many words before it.
fn open_block(class: Class, place: usize, blocks: &mut Vec<Opened>) -> Result<(), AllocError>
    ensures { IfOk result (λ _. blocks.new.items ≡ opened class place blocks.old.items) }
{
    match class {
        Class::Reserved(ReservedWord::Do) => {
            let inner = !blocks.is_empty();
            blocks.push(Opened { inner, place })?;
            Ok(())
        }
        Class::Reserved(ReservedWord::Procedure) => {
            blocks.push(Opened {
                inner: false,
                place,
            })?;
            Ok(())
        }
        _ => Ok(()),
    }
}
