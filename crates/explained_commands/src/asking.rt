//! The words of a command line, with and without those that ask for an explanation.

ghost use Rattle.std.specs.Prelude.{◌≡◌, length, IfOk};
ghost use Rattle.clap.specs.Walk.{texts};
ghost use Rattle.explained_commands.specs.Asking.{asks, is_asking, names_table, plain_words, table_count};

use std::alloc::{AllocError, Global};

// The word that asks for an explanation, what begins one that also names a table of lines, and the word after which no word
// does.
const ASKING: &str = "--explain";

const ASKING_BY: &str = "--explain=";

const END: &str = "--";

// Whether a word names a table of lines.
fn names_table(word: &str) -> bool
    ensures { result ≡ names_table word.now }
{
    word.as_bytes().starts_with(ASKING_BY.as_bytes())
}

// Whether a word asks for an explanation.
fn is_asking(word: &str) -> bool
    ensures { result ≡ is_asking word.now }
{
    word == ASKING || names_table(word)
}

/// Whether one of the words after the first, which is the program's name, asks for an explanation.
pub(crate) fn asks(words: &[&str]) -> bool
    ensures { result ≡ asks (texts words.now) }
{
    if let [_, after @ ..] = words {
        let mut rest = after;
        while let [word, more @ ..] = rest {
            if is_asking(word) {
                return true;
            }
            if *word == END {
                return false;
            }
            rest = more;
        }
    }
    false
}

/// The words without those that ask for an explanation.
pub(crate) fn plain_words<'a>(alloc: Global, words: &[&'a str]) -> Result<Vec<&'a str>, AllocError>
    ensures { IfOk result (λ plain. texts plain.items ≡ plain_words (texts words.now)) }
{
    let mut plain = Vec::new(alloc);
    if let [name, after @ ..] = words {
        plain.push(*name)?;
        let mut rest = after;
        while let [word, more @ ..] = rest {
            if *word == END {
                plain.extend_from_slice(rest)?;
                return Ok(plain);
            }
            if !is_asking(word) {
                plain.push(*word)?;
            }
            rest = more;
        }
    }
    Ok(plain)
}

/// The names of the tables that the words name.
pub(crate) fn table_names<'a>(alloc: Global, words: &[&'a str]) -> Result<Vec<&'a str>, AllocError>
    ensures { IfOk result (λ tables. length tables.items ≡ table_count (texts words.now)) }
{
    let mut tables = Vec::new(alloc);
    if let [_, after @ ..] = words {
        let mut rest = after;
        while let [word, more @ ..] = rest {
            if *word == END {
                return Ok(tables);
            }
            if names_table(word) {
                tables.push(word.strip_prefix(ASKING_BY).unwrap_or(""))?;
            }
            rest = more;
        }
    }
    Ok(tables)
}
