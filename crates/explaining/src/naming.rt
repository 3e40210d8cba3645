//! Where names are declared among the words of a source.

use crate::left_out::is_same_name;
use crate::openers::Opener;
use words::{Kind, Mark, ReservedWord, Word};

/// The words and marks that follow a name in its declaration.
pub(crate) const DECLARING: [Kind; 7] = [
    Kind::Mark(Mark::Colon),
    Kind::Reserved(ReservedWord::Address),
    Kind::Reserved(ReservedWord::Based),
    Kind::Reserved(ReservedWord::Byte),
    Kind::Reserved(ReservedWord::Literally),
    Kind::Reserved(ReservedWord::Structure),
    Kind::Reserved(ReservedWord::Label),
];

/// What a name is declared as.
#[derive(Clone, Copy, PartialEq, Eq)]
pub(crate) enum Named {
    /// A variable or a parameter.
    Object,
    /// A member of a structure.
    Member,
}

// A list of names: what they are declared as, and how many parentheses are open around them.
#[derive(Clone, Copy)]
struct List {
    named: Named,
    depth: u32,
}

// What was seen of a statement: how many parentheses are open, the list of names that is not ended, what a name is declared as
// that comes next, and the last word.
#[derive(Clone, Copy)]
struct Naming {
    depth: u32,
    list: Option<List>,
    awaited: Option<Named>,
    last: Kind,
}

impl Naming {
    // What is known before the first word of a statement.
    fn new() -> Naming {
        Naming {
            depth: 0,
            list: None,
            awaited: None,
            last: Kind::Mark(Mark::Semicolon),
        }
    }

    // Takes in a parenthesis that opens. The answer is what a name after it is declared as.
    fn open(&mut self) -> Option<Named> {
        self.depth = self.depth.saturating_add(1);
        let named = match self.last {
            Kind::Reserved(ReservedWord::Structure) => Some(Named::Member),
            Kind::Reserved(ReservedWord::Procedure) => Some(Named::Object),
            _ => self.awaited,
        };
        if let Some(named) = named {
            let depth = self.depth;
            self.list = Some(List { named, depth });
        }
        named
    }

    // Takes in a parenthesis that closes: after a list of names comes the next of the statement.
    fn close(&mut self) {
        self.depth = self.depth.saturating_sub(1);
        if let Some(list) = self.list
            && list.depth > self.depth
        {
            let (named, depth) = (Named::Object, self.depth);
            self.list = Some(List { named, depth });
        }
    }

    // Takes in a word.
    fn add(&mut self, kind: Kind) {
        let mut awaited = None;
        match kind {
            Kind::Reserved(ReservedWord::Declare) => {
                let (named, depth) = (Named::Object, self.depth);
                self.list = Some(List { named, depth });
                awaited = Some(named);
            }
            Kind::Mark(Mark::LeftParenthesis) => awaited = self.open(),
            Kind::Mark(Mark::RightParenthesis) => self.close(),
            Kind::Mark(Mark::Semicolon) => *self = Naming::new(),
            Kind::Mark(Mark::Comma) => {
                if let Some(list) = self.list
                    && list.depth == self.depth
                {
                    awaited = Some(list.named);
                }
            }
            _ => {}
        }
        self.awaited = awaited;
        self.last = kind;
    }
}

/// What a name is declared as that comes after words, if that is a place where a name is declared.
pub(crate) fn awaited_after(words: &[Word]) -> Option<Named> {
    let mut naming = Naming::new();
    for word in words {
        naming.add(word.kind);
    }
    naming.awaited
}

/// The line of the first word of a name that a text is defined for.
pub(crate) fn find_defined(words: &[Word], name: &[u8]) -> Option<u32> {
    for (at, word) in words.iter().enumerate() {
        let is_named = is_same_name(word.text, name);
        let is_defined = is_definition(
            words.get(at.saturating_add(1)),
            words.get(at.saturating_add(2)),
        );
        if is_named && is_defined {
            return Some(word.line);
        }
    }
    None
}

// Whether words after a name are LITERALLY, or a name that stands for this, and a string.
fn is_definition(middle: Option<&Word>, text: Option<&Word>) -> bool {
    match (middle, text) {
        (Some(middle), Some(text)) => is_definition_of(middle.kind, text.kind),
        _ => false,
    }
}

// Whether such kinds of words stand after a name that is defined.
fn is_definition_of(middle: Kind, text: Kind) -> bool {
    match (middle, text) {
        (Kind::Name | Kind::Reserved(ReservedWord::Literally), Kind::String) => true,
        _ => false,
    }
}

/// How many words stand before the first one that declares a variable or a parameter of a name.
pub(crate) fn find_object(words: &[Word], name: &[u8]) -> Option<usize> {
    let mut naming = Naming::new();
    for (at, word) in words.iter().enumerate() {
        if naming.awaited == Some(Named::Object) && is_same_name(word.text, name) {
            return Some(at);
        }
        naming.add(word.kind);
    }
    None
}

/// Whether a name is declared in words, by its type, its text or its label: a name that comes before one of these, and not
/// before a type after a label, as a word for PROCEDURE does.
pub(crate) fn is_declared(words: &[Word], name: &[u8]) -> bool {
    let mut is_after = false;
    let mut is_heading = false;
    let mut last = Kind::Mark(Mark::Semicolon);
    for word in words {
        let is_label = word.kind == Kind::Mark(Mark::Colon);
        if is_after && DECLARING.contains(&word.kind) && (is_label || !is_heading) {
            return true;
        }
        is_after = is_same_name(word.text, name);
        is_heading = last == Kind::Mark(Mark::Colon);
        last = word.kind;
    }
    false
}

/// Whether the first of words is declared by those after it: by a type, a text or a base, after its dimension if it has one.
pub(crate) fn declares_first(words: &[Word]) -> bool {
    let follows = match words {
        [_, open, _, close, follows, ..]
            if open.kind == Kind::Mark(Mark::LeftParenthesis)
                && close.kind == Kind::Mark(Mark::RightParenthesis) => { follows.kind }
        [_, follows, ..] => follows.kind,
        _ => return false,
    };
    DECLARING.contains(&follows) && follows != Kind::Mark(Mark::Colon)
}

/// Whether words declare a name: a variable, a parameter, a label or a procedure.
pub(crate) fn is_known(words: &[Word], name: &[u8]) -> bool {
    is_declared(words, name) || find_object(words, name).is_some()
}

/// The last word that declares a name in a block, which begins with its DO or PROCEDURE: as what is wanted, or for an object
/// also as a procedure or a label.
pub(crate) fn find_in_block<'a>(
    block: &[Word<'a>],
    name: &[u8],
    wanted: Named,
) -> Option<Word<'a>> {
    let mut naming = Naming::new();
    let mut level = 0_u32;
    let mut found = None;
    for (at, word) in block.iter().enumerate() {
        let is_named = match block.get(at.saturating_add(1)) {
            Some(next) if next.kind == Kind::Mark(Mark::Colon) => wanted == Named::Object,
            _ => naming.awaited == Some(wanted),
        };
        if is_named && level == 1 && is_same_name(word.text, name) {
            found = Some(*word);
        }
        match word.kind {
            Kind::Reserved(ReservedWord::Do | ReservedWord::Procedure) => {
                level = level.saturating_add(1);
            }
            Kind::Reserved(ReservedWord::End) => level = level.saturating_sub(1),
            _ => {}
        }
        naming.add(word.kind);
    }
    found
}

// The line of the last word that declares an object of a name in the block that begins after this many words.
fn line_in_block(words: &[Word], at: usize, name: &[u8]) -> Option<u32> {
    let (_, block) = words.split_at(at.min(words.len()));
    let found = find_in_block(block, name, Named::Object)?;
    Some(found.line)
}

/// The line of the declaration of the object that a name is after words, in the innermost of the blocks that are open there.
pub(crate) fn line_of_object(open: &[Opener], words: &[Word], name: &[u8]) -> Option<u32> {
    let mut line = None;
    for opener in open {
        line = line_in_block(words, opener.at, name).or(line);
    }
    line
}
