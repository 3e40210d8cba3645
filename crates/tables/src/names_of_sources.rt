//! The words of a text, what LITERALLY puts in their place, and what names are bound to.

use crate::Count;
use crate::page::Page;
use crate::scanned::scanned;
use host::Failure;
use literally::expand;
use names::{Binding, BuiltIn, Entity, bind};
use std::alloc::Global;
use syntax::parse;
use trees::{Module, Name, UnaryFunction};
use words::{Kind, Mark, ReservedWord, Word};

// The words of `M: DO;`, `A = 0AH;` and `END M;`, a line each: what they are, where they begin, and their lines.
static WORDS: [(Kind, &[u8], u32, u32); 11] = [
    (Kind::Name, b"M", 0, 1),
    (Kind::Mark(Mark::Colon), b":", 1, 1),
    (Kind::Reserved(ReservedWord::Do), b"DO", 3, 1),
    (Kind::Mark(Mark::Semicolon), b";", 5, 1),
    (Kind::Name, b"A", 7, 2),
    (Kind::Mark(Mark::EqualSign), b"=", 9, 2),
    (Kind::Number(10), b"0AH", 11, 2),
    (Kind::Mark(Mark::Semicolon), b";", 14, 2),
    (Kind::Reserved(ReservedWord::End), b"END", 16, 3),
    (Kind::Name, b"M", 20, 3),
    (Kind::Mark(Mark::Semicolon), b";", 21, 3),
];

// Whether a word is this one, begins there and is on that line.
fn is_word(word: &Word, wanted: (Kind, &[u8], u32, u32)) -> bool {
    let (kind, text, start, line) = wanted;
    word.kind == kind && word.text == text && word.start == start && word.line == line
}

// Prints how many words of a text are others than they are to be.
fn print_words(page: &mut Page) {
    let mut count = Count::new();
    if let Some(words) = scanned(page.alloc(), b"M: DO;\nA = 0AH;\nEND M;") {
        for (word, wanted) in words.iter().zip(WORDS.iter()) {
            count.add(is_word(word, *wanted));
        }
    }
    count.print(page, " words of a text, ", " differ\n");
}

// A name that stands for a name that stands for a number, used on line 2.
const DEFINITIONS: &[u8] =
    b"M: DO; DECLARE ONE LITERALLY 'TWO', TWO LITERALLY '2';\nOUTPUT(0) = ONE; END M;";

// Prints how many words there are after LITERALLY has replaced each name, and whether the number is in the place of its name.
fn print_replaced(page: &mut Page) {
    let Some(words) = scanned(page.alloc(), DEFINITIONS) else {
        return page.note(false);
    };
    let Ok(words) = expand(page.alloc(), words.as_slice()) else {
        return page.note(false);
    };
    page.number("after LITERALLY: ", words.len() as u64);
    let is_there = match words.as_slice().get(18) {
        Some(word) => is_word(word, (Kind::Number(2), b"2", 67, 2)),
        None => false,
    };
    page.text(if is_there {
        " words, with 2 for ONE\n"
    } else {
        " words, without 2 for ONE\n"
    });
}

// Texts that are not names. The first has 32 characters.
static NO_NAMES: [&[u8]; 5] = [b"ABCDEFGHIJKLMNOPQRSTUVWXYZ012345", b"1A", b"$", b"", b"A+"];

// A procedure and its module have labels of one name, and the procedure calls itself.
const NAMES: &[u8] =
    b"M: DO; P: PROCEDURE (X); DECLARE X BYTE; L: X = LOW(X); GOTO L; CALL P(X); END P; L: CALL P(2); GOTO L; END;";

// What its names are bound to, in the order of their uses.
static BINDINGS: [Binding; 8] = [
    Binding::Declared(Entity::Object(0)),
    Binding::BuiltInName(BuiltIn::Unary(UnaryFunction::Low)),
    Binding::Declared(Entity::Object(0)),
    Binding::Declared(Entity::Label(0)),
    Binding::Declared(Entity::Procedure(0)),
    Binding::Declared(Entity::Object(0)),
    Binding::Declared(Entity::Procedure(0)),
    Binding::Declared(Entity::Label(1)),
];

// The tree of a source, if it is a module.
fn parsed(alloc: Global, source: &[u8]) -> Option<Module> {
    let words = scanned(alloc, source)?;
    parse(alloc, words.as_slice()).ok()
}

// Prints how many names of a source are bound otherwise than they are to be.
fn print_bindings(page: &mut Page) {
    let Some(module) = parsed(page.alloc(), NAMES) else {
        return page.note(false);
    };
    let mut count = Count::new();
    if let Ok(bound) = bind(page.alloc(), module) {
        for (binding, wanted) in bound.bindings.iter().zip(BINDINGS.iter()) {
            count.add(binding == wanted);
        }
    }
    count.print(page, " names bound, ", " differ\n");
}

// A parameter is not declared by its heading. The typing of a module finds that first, with another number.
const HEADING: &[u8] = b"M: DO; P: PROCEDURE (X);\nX = 1; END; END;";

// Prints why the names of a source are not bound.
fn print_unbound(page: &mut Page) {
    let Some(module) = parsed(page.alloc(), HEADING) else {
        return page.note(false);
    };
    match bind(page.alloc(), module) {
        Err(Failure::Fault(fault)) => {
            page.text("a heading declares nothing: ");
            page.text(fault.number());
            page.number(" ", fault.line() as u64);
            page.text("\n");
        }
        Ok(_) | Err(Failure::Memory) => page.note(false),
    }
}

/// Prints what words a text has, what LITERALLY makes of them, how many texts are names that are not to be, and what names are bound to.
pub fn print_names(page: &mut Page) {
    print_words(page);
    print_replaced(page);
    let mut count = Count::new();
    for text in NO_NAMES.iter() {
        count.add(Name::from_text(text).is_none());
    }
    count.print(page, " texts that are no names, ", " differ\n");
    print_bindings(page);
    print_unbound(page);
}
