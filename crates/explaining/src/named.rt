//! Labels and procedures of a source, by their names.

use crate::left_out::is_same_name;
use crate::openers::{Opened, openers};
use std::alloc::{AllocError, Global};
use words::{Kind, Mark, ReservedWord, Word};

// How many words stand before the first procedure of a name, or the first label: a name and a colon, with PROCEDURE after it
// or not.
fn count_before(words: &[Word], name: &[u8], is_procedure: bool) -> usize {
    let mut rest = words;
    while let [first, more @ ..] = rest {
        if let [colon, next, ..] = more
            && colon.kind == Kind::Mark(Mark::Colon)
            && (next.kind == Kind::Reserved(ReservedWord::Procedure)) == is_procedure
            && is_same_name(first.text, name)
        {
            return words.len().saturating_sub(rest.len());
        }
        rest = more;
    }
    words.len()
}

/// The line of the first procedure of a name, or of the first label.
pub(crate) fn find_named(words: &[Word], name: &[u8], is_procedure: bool) -> Option<u32> {
    let word = words.get(count_before(words, name, is_procedure))?;
    Some(word.line)
}

// The line of the innermost procedure around the place after `words`.
fn procedure_after(alloc: Global, words: &[Word]) -> Result<Option<u32>, AllocError> {
    let mut line = None;
    for opener in &openers(alloc, words)? {
        if matches!(opener.opened, Opened::Procedure) {
            line = Some(opener.line);
        }
    }
    Ok(line)
}

/// Whether the first label of a name is in another procedure than the place after `before`, the first ones of `words`.
pub(crate) fn leaves_procedure(
    alloc: Global,
    words: &[Word],
    before: &[Word],
    name: &[u8],
) -> bool {
    let label = count_before(words, name, false);
    let there = procedure_after(alloc, words.get(..label).unwrap_or(&[]));
    match (procedure_after(alloc, before), there) {
        (Ok(Some(from)), Ok(to)) => to != Some(from),
        _ => false,
    }
}
