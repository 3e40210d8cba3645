//! What is open at a place of a source: a module, procedures and DOs that no END has ended.

use std::alloc::{AllocError, Global};
use words::{Kind, Mark, ReservedWord, Word};

/// What an END ends.
#[derive(Clone, Copy)]
pub(crate) enum Opened {
    /// The module, by the DO after its name.
    Module,
    Procedure,
    /// A DO of any form.
    Group,
}

/// A word that an END is to end: what it opens, the name of the module or the procedure, its line, and how many words stand
/// before it.
#[derive(Clone, Copy)]
pub(crate) struct Opener<'a> {
    pub(crate) opened: Opened,
    pub(crate) name: &'a [u8],
    pub(crate) line: u32,
    pub(crate) at: usize,
}

impl Opener<'_> {
    /// What it opens, before its name.
    pub(crate) fn what(&self) -> &'static str {
        match self.opened {
            Opened::Module => "the module ",
            Opened::Procedure => "the procedure ",
            Opened::Group => "the DO",
        }
    }
}

// Takes a word in, before which other words stand.
fn take_word<'a>(
    open: &mut Vec<Opener<'a>>,
    before: &[Word<'a>],
    word: &Word<'a>,
) -> Result<(), AllocError> {
    let opened = match word.kind {
        Kind::Reserved(ReservedWord::Procedure) => Opened::Procedure,
        Kind::Reserved(ReservedWord::Do) if before.len() <= 2 => Opened::Module,
        Kind::Reserved(ReservedWord::Do) => Opened::Group,
        Kind::Reserved(ReservedWord::End) => {
            let _ = open.pop();
            return Ok(());
        }
        _ => return Ok(()),
    };
    let name: &[u8] = match before {
        [.., name, colon]
            if colon.kind == Kind::Mark(Mark::Colon) && !matches!(opened, Opened::Group) => {
            name.text
        }
        _ => &[],
    };
    let (line, at) = (word.line, before.len());
    open.push(Opener {
        opened,
        name,
        line,
        at,
    })?;
    Ok(())
}

/// What is open after words, the outermost first.
pub(crate) fn openers<'a>(
    alloc: Global,
    words: &[Word<'a>],
) -> Result<Vec<Opener<'a>>, AllocError> {
    let mut open = Vec::new(alloc);
    let mut rest = words;
    while let [word, more @ ..] = rest {
        let passed = words.len().saturating_sub(rest.len());
        let (before, _) = words.split_at(passed.min(words.len()));
        take_word(&mut open, before, word)?;
        rest = more;
    }
    Ok(open)
}
