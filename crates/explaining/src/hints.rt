//! What is likely wrong at a word of a source that cannot stand where it stands.

use crate::dimensions::said_of_dimension;
use crate::left_out::{cure_of, cure_of_strange, is_built_in, is_same_name};
use crate::misspelled::{Meant, is_near_do, meant_at, said_of_file};
use crate::naming::{DECLARING, awaited_after, declares_first, find_object, is_declared, is_known};
use crate::openers::{Opened, Opener};
use crate::page::{Page, Piece};
use crate::spots::{said_at, said_of_assignment};
use crate::statements::{depth_of, is_reserved_name, line_of_do, may_end_after, statement_of};
use words::{Kind, Mark, ReservedWord, Word};

/// What is likely wrong.
#[derive(Clone, Copy)]
pub(crate) enum Hint<'a> {
    /// The word of this line that comes before is not followed by what may have to come between.
    Missing {
        what: &'static str,
        line: u32,
    },
    /// A name stands after the END of a DO, which begins on this line.
    NamedGroup {
        line: u32,
    },
    /// The name of something around this DO stands after its END.
    NamedAround {
        line: u32,
    },
    /// A declaration stands among the statements of this procedure, which begins on this line.
    Late {
        name: &'a [u8],
        line: u32,
    },
    /// This reserved word stands where a name is declared.
    Reserved(&'a [u8]),
    /// BASED and its variable stand after the type, and not after the name.
    LateBase {
        name: &'a [u8],
        base: &'a [u8],
        type_word: &'a [u8],
    },
    /// A reserved word may be meant by a name.
    Meant(Meant<'a>),
    /// What this sentence says.
    Said(&'static str),
}

/// Whether one of those that are open has a name.
pub(crate) fn is_around(open: &[Opener], name: &[u8]) -> bool {
    for opener in open {
        if is_same_name(opener.name, name) {
            return true;
        }
    }
    false
}

// That a declaration stands among statements.
const LATE: &str = "Declarations and procedures come before the first statement of their block";

// That the text does not begin as a module.
const NO_MODULE: Hint<'static> = Hint::Said(
    "A source is one module: NAME: DO; before it, and END NAME; after it",
);

// That an address stands after GO TO.
const GO_TO_ADDRESS: &str =
    "GO TO an address: in MON1 or MON2 of CP/M delete it and write EXTERNAL in the heading; for GO TO 0 write CALL MON1(0, 0)";

// That parentheses hold no value.
const NO_VALUE: &str = "A value is missing between the parentheses";

// The reserved words that may be the last one of a statement.
const ENDING: [ReservedWord; 11] = [
    ReservedWord::Address,
    ReservedWord::Byte,
    ReservedWord::Case,
    ReservedWord::Do,
    ReservedWord::End,
    ReservedWord::External,
    ReservedWord::Halt,
    ReservedWord::Procedure,
    ReservedWord::Public,
    ReservedWord::Reentrant,
    ReservedWord::Return,
];

// The reserved words that may begin a statement or a declaration.
const BEGINNING: [ReservedWord; 12] = [
    ReservedWord::Call,
    ReservedWord::Declare,
    ReservedWord::Disable,
    ReservedWord::Do,
    ReservedWord::Else,
    ReservedWord::Enable,
    ReservedWord::End,
    ReservedWord::Go,
    ReservedWord::Goto,
    ReservedWord::Halt,
    ReservedWord::If,
    ReservedWord::Return,
];

// The types of one word.
const TYPES: [Kind; 2] = [
    Kind::Reserved(ReservedWord::Address),
    Kind::Reserved(ReservedWord::Byte),
];

// Whether a semicolon may be missing between two words: the first may end a statement, and the second may begin one.
fn may_part(before: &Word, word: &Word) -> bool {
    let may_end = match before.kind {
        Kind::Name | Kind::Number(_) | Kind::String => true,
        Kind::Mark(mark) => mark == Mark::RightParenthesis,
        Kind::Reserved(reserved) => ENDING.contains(&reserved),
    };
    let may_begin = match word.kind {
        Kind::Name => true,
        Kind::Number(_) | Kind::String | Kind::Mark(_) => false,
        Kind::Reserved(reserved) => BEGINNING.contains(&reserved),
    };
    may_end && may_begin
}

// Whether a semicolon is likely missing between two words: it may be, and they are on two lines.
fn lacks_semicolon(before: &Word, word: &Word) -> bool {
    before.line < word.line && may_part(before, word)
}

// Whether an IF of words has no THEN yet.
fn awaits_then(words: &[Word]) -> bool {
    let mut is_awaited = false;
    for word in words {
        match word.kind {
            Kind::Reserved(ReservedWord::If) => is_awaited = true,
            Kind::Reserved(ReservedWord::Then) | Kind::Mark(Mark::Semicolon) => is_awaited = false,
            _ => {}
        }
    }
    is_awaited
}

// Whether a DECLARE goes on after words with a name that those after them declare, or its list of names or one of parameters
// goes on.
fn goes_on(before: &[Word], after: &[Word]) -> bool {
    let statement = statement_of(before);
    let first = match statement {
        [first, ..] => first.kind,
        [] => return false,
    };
    let is_listed = match after {
        [_, next, ..] => {
            next.kind == Kind::Mark(Mark::Comma) || next.kind == Kind::Mark(Mark::RightParenthesis)
        }
        _ => false,
    };
    let is_in_list = is_listed && depth_of(statement) > 0;
    match first {
        Kind::Reserved(ReservedWord::Declare) => is_in_list || declares_first(after),
        Kind::Reserved(ReservedWord::Procedure) => is_in_list,
        _ => false,
    }
}

// What may be missing at the end of a line, between words and those after them.
fn missing_before(before: &[Word], after: &[Word]) -> &'static str {
    if awaits_then(before) {
        "THEN"
    } else if goes_on(before, after) {
        "A comma"
    } else {
        "A semicolon"
    }
}

// Whether the last statement of words is a name, or one with a list in parentheses, and no assignment.
fn is_call(words: &[Word]) -> bool {
    let mut is_begin = false;
    let mut is_call = false;
    for word in words {
        match word.kind {
            Kind::Name => {
                is_call = is_call || is_begin;
                is_begin = false;
            }
            Kind::Mark(Mark::Semicolon | Mark::Colon)
            | Kind::Reserved(ReservedWord::Then | ReservedWord::Else) => {
                is_begin = true;
                is_call = false;
            }
            Kind::Reserved(_) | Kind::Mark(Mark::EqualSign) => {
                is_begin = false;
                is_call = false;
            }
            _ => is_begin = false,
        }
    }
    is_call
}

// Whether a name stands after an END that ends a DO.
fn is_named_end(before: &Word, word: &Word, last: &Opener) -> bool {
    match (before.kind, word.kind, last.opened) {
        (Kind::Reserved(ReservedWord::End), Kind::Name, Opened::Group) => true,
        _ => false,
    }
}

// What is likely wrong at a name after the END of a DO.
fn hint_of_end(before: &Word, word: &Word, open: &[Opener]) -> Option<Hint<'static>> {
    match open {
        [around @ .., last] if is_named_end(before, word, last) => {
            let line = last.line;
            if is_around(around, word.text) {
                Some(Hint::NamedAround { line })
            } else {
                Some(Hint::NamedGroup { line })
            }
        }
        _ => None,
    }
}

// Whether a declaration or a heading stands after a statement.
fn is_late(before: &Word, word: &Word) -> bool {
    match (before.kind, word.kind) {
        (Kind::Mark(Mark::Semicolon), Kind::Reserved(ReservedWord::Declare))
        | (Kind::Mark(Mark::Colon), Kind::Reserved(ReservedWord::Procedure)) => true,
        _ => false,
    }
}

// What is likely wrong at a declaration among statements.
fn hint_of_declaration<'a>(before: &Word, word: &Word, open: &[Opener<'a>]) -> Option<Hint<'a>> {
    if !is_late(before, word) {
        return None;
    }
    match open {
        [.., last] if matches!(last.opened, Opened::Procedure) => Some(Hint::Late {
            name: last.name,
            line: last.line,
        }),
        _ => Some(Hint::Said(LATE)),
    }
}

// What is likely wrong at a word that may stand elsewhere, by itself and the word before it.
fn said_of_pair(before: &Word, word: &Word) -> Option<&'static str> {
    match (before.kind, word.kind) {
        (_, Kind::Mark(Mark::AssignSign)) => {
            Some("An assignment has =, and := stands only in parentheses in an expression")
        }
        (Kind::Mark(Mark::Semicolon), Kind::Reserved(ReservedWord::Else)) => {
            Some("ELSE comes after the one statement of THEN: DO; and END; go around several")
        }
        (_, Kind::Reserved(ReservedWord::Else)) => Some("A semicolon is missing before ELSE"),
        (Kind::Mark(Mark::LeftParenthesis | Mark::Comma), Kind::Mark(Mark::MinusSign)) => {
            Some("No negative number here: for -1 write 255, or 65535 of an ADDRESS")
        }
        (Kind::Reserved(ReservedWord::Goto), Kind::Number(_)) => Some(GO_TO_ADDRESS),
        (Kind::Mark(Mark::EqualSign), Kind::Mark(Mark::EqualSign)) => {
            Some("An assignment and a comparison both have one =")
        }
        _ => None,
    }
}

// What is likely wrong where parentheses hold nothing, by the word before them.
fn said_of_nothing(before: &[Word], word: &Word) -> Option<&'static str> {
    let [earlier @ .., owner, last] = before else {
        return None;
    };
    let is_declaring = match statement_of(earlier) {
        [first, ..] => first.kind == Kind::Reserved(ReservedWord::Declare),
        [] => false,
    };
    match (last.kind, word.kind, owner.kind) {
        (Kind::Mark(Mark::LeftParenthesis), Kind::Mark(Mark::RightParenthesis), kind) =>
            match kind {
                Kind::Name if is_declaring => {
                    Some("A dimension is a number, or * before a list of values")
                }
                Kind::Name if is_built_in(owner.text) => Some(NO_VALUE),
                Kind::Name if find_object(before, owner.text).is_some() => {
                    Some("A subscript is missing between the parentheses, or they are superfluous")
                }
                Kind::Name => Some("Without arguments there are no parentheses"),
                Kind::Reserved(ReservedWord::Procedure) => {
                    Some("Without parameters there are no parentheses")
                }
                Kind::Reserved(ReservedWord::At | ReservedWord::Data | ReservedWord::Initial) => {
                    Some(NO_VALUE)
                }
                _ => None,
            },
        _ => None,
    }
}

// That GO TO comes before an address.
fn said_of_go(after: &[Word]) -> Option<&'static str> {
    match after {
        [go, to, address, ..]
            if go.kind == Kind::Reserved(ReservedWord::Go)
                && to.kind == Kind::Reserved(ReservedWord::To)
                && matches!(address.kind, Kind::Number(_)) => { Some(GO_TO_ADDRESS) }
        _ => None,
    }
}

// That EOF comes before the end of the module.
fn said_of_eof(last: &Word, after: &[Word]) -> Option<&'static str> {
    match after {
        [eof, ..]
            if eof.kind != Kind::Reserved(ReservedWord::Eof)
                || last.kind != Kind::Mark(Mark::Semicolon) => { None }
        [_] => Some("EOF is left out, and an END may be missing before it"),
        [_, next, ..] if next.kind == Kind::Reserved(ReservedWord::End) => {
            Some("EOF is left out: delete it")
        }
        _ => None,
    }
}

// Whether words end with a dot and a name.
fn is_location(words: &[Word]) -> bool {
    match words {
        [.., dot, name] => dot.kind == Kind::Mark(Mark::Period) && name.kind == Kind::Name,
        _ => false,
    }
}

// What is likely wrong at a word, by the words of its statement.
fn said_of_statement(before: &[Word], word: &Word) -> Option<&'static str> {
    match word.kind {
        Kind::Mark(Mark::LeftParenthesis) if is_location(before) => {
            Some("A location here has no subscript: .X + a number of bytes")
        }
        Kind::Mark(Mark::Semicolon) if is_call(before) => {
            Some("A statement that calls a procedure begins with CALL")
        }
        Kind::Reserved(reserved) if awaits_then(before) && BEGINNING.contains(&reserved) => {
            Some("THEN may be missing before it")
        }
        _ => None,
    }
}

// What to write for a word, where it is one that is left out, or FOREVER comes before it.
fn said_of_word(before: &Word, word: &Word) -> Option<&'static str> {
    if word.kind == Kind::Reserved(ReservedWord::Eof) {
        None
    } else if before.text.eq_ignore_ascii_case(b"FOREVER") {
        cure_of(word.text).or(cure_of(before.text))
    } else {
        cure_of(word.text)
    }
}

// What to write for the last of words, if it is one of another language that begins its statement, or comes after DO there.
fn strange_at(before: &[Word]) -> Option<&'static str> {
    let name = match statement_of(before) {
        [first] if first.kind == Kind::Name => first.text,
        [first, second]
            if first.kind == Kind::Reserved(ReservedWord::Do) && second.kind == Kind::Name => {
            second.text
        }
        _ => return None,
    };
    if is_known(before, name) {
        return None;
    }
    cure_of_strange(name)
}

// That a reserved word is misspelled.
fn hint_of_meant<'a>(words: &[Word<'a>], count: usize) -> Option<Hint<'a>> {
    Some(Hint::Meant(meant_at(words, count)?))
}

// That the DO of a module is missing or misspelled, where this word stands in its place.
fn hint_of_module<'a>(before: &[Word], word: &Word<'a>) -> Hint<'a> {
    match before {
        [_, colon]
            if colon.kind == Kind::Mark(Mark::Colon)
                && word.kind == Kind::Name
                && is_near_do(word.text) => {
            Hint::Meant(Meant {
                word: word.text,
                meant: "DO",
            })
        }
        _ => NO_MODULE,
    }
}

// That a DO has no semicolon at the end of its line.
fn hint_of_do(before: &[Word]) -> Option<Hint<'static>> {
    Some(Hint::Missing {
        what: "A semicolon",
        line: line_of_do(before)?,
    })
}

// That a word is reserved, where a statement has a name.
fn hint_of_name<'a>(last: &Word, word: &Word<'a>, next: Option<&Word>) -> Option<Hint<'a>> {
    if is_reserved_name(last, word, next) {
        Some(Hint::Reserved(word.text))
    } else {
        None
    }
}

// That a semicolon may be missing before a word on its line.
fn said_of_line(before: &[Word], word: &Word, next: Option<&Word>) -> Option<&'static str> {
    let is_assignment = match next {
        Some(next) => next.kind == Kind::Mark(Mark::EqualSign),
        None => false,
    };
    match before {
        [.., last]
            if may_part(last, word)
                && may_end_after(before)
                && (word.kind != Kind::Name || is_assignment) => {
            Some("A semicolon may be missing before it")
        }
        _ => None,
    }
}

// Whether a module begins on the line of the first of words, after it.
fn begins_after(words: &[Word]) -> bool {
    match words {
        [first, name, colon, opener, ..] => {
            name.line == first.line
                && name.kind == Kind::Name
                && colon.kind == Kind::Mark(Mark::Colon)
                && opener.kind == Kind::Reserved(ReservedWord::Do)
        }
        _ => false,
    }
}

// What is likely wrong at the first word of a source, the first one of `words`.
fn hint_of_first<'a>(word: &Word<'a>, words: &[Word<'a>]) -> Option<Hint<'a>> {
    let is_before_colon = match words {
        [_, next, ..] => next.kind == Kind::Mark(Mark::Colon),
        _ => false,
    };
    match word.kind {
        Kind::Name => None,
        Kind::Number(_) if is_before_colon => Some(Hint::Said(
            "The address of the code is no part of a module: delete it, and use --code",
        )),
        Kind::Reserved(_) if is_before_colon => Some(Hint::Reserved(word.text)),
        Kind::Number(_) if begins_after(words) => None,
        _ => Some(NO_MODULE),
    }
}

// That a word is reserved, where a name is declared: before a colon, or in a declaration before what may follow a name.
fn hint_of_reserved<'a>(
    before: &[Word<'a>],
    word: &Word<'a>,
    next: Option<&Word<'a>>,
) -> Option<Hint<'a>> {
    let Kind::Reserved(reserved) = word.kind else {
        return None;
    };
    let follows = match next?.kind {
        Kind::Mark(Mark::Colon) => return Some(Hint::Reserved(word.text)),
        Kind::Mark(Mark::LeftParenthesis) => !BEGINNING.contains(&reserved),
        Kind::Mark(Mark::Comma | Mark::RightParenthesis) => true,
        kind => DECLARING.contains(&kind),
    };
    if follows && awaited_after(before).is_some() {
        Some(Hint::Reserved(word.text))
    } else {
        None
    }
}

// Where BASED stands, if it comes after a type or a dimension.
fn hint_of_based<'a>(
    before: &[Word<'a>],
    word: &Word<'a>,
    next: Option<&Word<'a>>,
) -> Option<Hint<'a>> {
    if word.kind != Kind::Reserved(ReservedWord::Based) {
        return None;
    }
    match (before, next) {
        ([.., name, last], Some(base))
            if TYPES.contains(&last.kind) && name.kind == Kind::Name && base.kind == Kind::Name => {
            Some(Hint::LateBase {
                name: name.text,
                base: base.text,
                type_word: last.text,
            })
        }
        ([.., size, last], _)
            if TYPES.contains(&last.kind)
                || last.kind == Kind::Mark(Mark::RightParenthesis)
                    && matches!(size.kind, Kind::Number(_)) => {
            Some(Hint::Said(
                "BASED stands after the name, and a dimension after its variable: X BASED P (10) BYTE",
            ))
        }
        _ => None,
    }
}

// Whether words begin with DO CASE, and each IF directly in it has its ELSE.
fn is_case(words: &[Word]) -> bool {
    let mut level = 0_u32;
    let mut ifs = 0_u32;
    for word in words {
        match word.kind {
            Kind::Reserved(ReservedWord::Do | ReservedWord::Procedure) => {
                level = level.saturating_add(1);
            }
            Kind::Reserved(ReservedWord::End) => level = level.saturating_sub(1),
            Kind::Reserved(ReservedWord::If) if level == 1 => ifs = ifs.saturating_add(1),
            Kind::Reserved(ReservedWord::Else) if level == 1 => ifs = ifs.saturating_sub(1),
            _ => {}
        }
    }
    match words {
        [_, second, ..] => ifs == 0 && second.kind == Kind::Reserved(ReservedWord::Case),
        _ => false,
    }
}

// That a DO CASE has no ELSE, if one stands directly in it.
fn said_of_else(before: &[Word], word: &Word, open: &[Opener]) -> Option<&'static str> {
    match (before, open) {
        ([.., last], [.., opener])
            if word.kind == Kind::Reserved(ReservedWord::Else)
                && last.kind == Kind::Mark(Mark::Semicolon)
                && is_case(before.get(opener.at..).unwrap_or(&[])) => {
            Some("A DO CASE has no ELSE")
        }
        _ => None,
    }
}

// A sentence as a hint.
fn said(sentence: Option<&'static str>) -> Option<Hint<'static>> {
    Some(Hint::Said(sentence?))
}

// What is likely wrong at the first of the words `after`, by it and the words around it.
fn said_there(before: &[Word], after: &[Word], open: &[Opener]) -> Option<&'static str> {
    let ([.., last], [word, ..]) = (before, after) else {
        return None;
    };
    said_of_else(before, word, open)
        .or(said_of_assignment(before, after))
        .or(said_of_nothing(before, word))
        .or(said_of_go(after))
        .or(said_of_eof(last, after))
        .or(said_of_pair(last, word))
        .or(said_of_statement(before, word))
}

// What to write for the first of the words `after`, if it is no name that is declared.
fn said_of_left_out(before: &[Word], after: &[Word]) -> Option<&'static str> {
    match (before, after) {
        ([.., last], [word, ..]) if !is_declared(before, word.text) => said_of_word(last, word),
        _ => None,
    }
}

// What is likely wrong at the first of the words `after`, by its statement alone.
fn said_in_statement(before: &[Word], after: &[Word]) -> Option<&'static str> {
    let [word, ..] = after else {
        return None;
    };
    said_at(before, after)
        .or(said_of_dimension(before, after))
        .or(said_of_line(before, word, after.get(1)))
}

// What is likely wrong at the first of the words `after`, by words that stand where others belong.
fn hint_of_order<'a>(
    before: &[Word<'a>],
    word: &Word<'a>,
    next: Option<&Word<'a>>,
    open: &[Opener<'a>],
) -> Option<Hint<'a>> {
    let [.., last] = before else {
        return None;
    };
    hint_of_reserved(before, word, next)
        .or(hint_of_based(before, word, next))
        .or(hint_of_end(last, word, open))
        .or(hint_of_declaration(last, word, open))
}

// What is likely wrong at a word by its statement: that one before it has no end, or that a name is reserved.
fn hint_in_statement<'a>(
    before: &[Word],
    word: &Word<'a>,
    next: Option<&Word>,
) -> Option<Hint<'a>> {
    let [.., last] = before else {
        return None;
    };
    hint_of_do(before).or(hint_of_name(last, word, next))
}

/// What is likely wrong at a word of a source, with all words, those before it, it with those after it, and what was open before
/// the last one of those before it, the outermost first.
pub(crate) fn hint_at<'a>(
    words: &[Word<'a>],
    before: &[Word<'a>],
    word: &Word<'a>,
    after: &[Word<'a>],
    open: &[Opener<'a>],
) -> Option<Hint<'a>> {
    let count = before.len();
    let strange = said(strange_at(before).or(said_of_file(words, count))).or(hint_of_meant(
        words, count,
    ));
    match before {
        [] => hint_of_first(word, after),
        [_] | [_, _] => Some(hint_of_module(before, word)),
        [_, _, _, _, ..] if open.is_empty() => {
            Some(Hint::Said(cure_of(word.text).unwrap_or(
                "The module has ended before: an END may be superfluous, or this is no part of it",
            )))
        }
        [.., last] if strange.is_none() && lacks_semicolon(last, word) => Some(Hint::Missing {
            what: missing_before(before, after),
            line: last.line,
        }),
        _ => strange
            .or(hint_of_order(before, word, after.get(1), open))
            .or(said(said_there(before, after, open).or(said_of_left_out(before, after))))
            .or(hint_in_statement(before, word, after.get(1)))
            .or(said(said_in_statement(before, after))),
    }
}

impl Hint<'_> {
    /// Adds it as a sentence.
    pub(crate) fn add(self, page: &mut Page) {
        match self {
            Hint::Missing { what, line } => page.sentence(&[
                Piece::Text(what),
                Piece::Text(" may be missing at the end of line "),
                Piece::Number(line),
            ]),
            Hint::NamedGroup { line } => page.sentence(&[
                Piece::Text("This END ends the DO of line "),
                Piece::Number(line),
                Piece::Text(", and only modules and procedures have a name after END"),
            ]),
            Hint::NamedAround { line } => page.sentence(&[
                Piece::Text("This END ends the DO of line "),
                Piece::Number(line),
                Piece::Text(", so an END may be missing before it"),
            ]),
            Hint::Late { name, line } => page.sentence(&[
                Piece::Text(LATE),
                Piece::Text(", or an END is missing: the procedure "),
                Piece::Shown(name),
                Piece::Text(" of line "),
                Piece::Number(line),
                Piece::Text(" is open"),
            ]),
            Hint::Reserved(word) => page.sentence(&[
                Piece::Shown(word),
                Piece::Text(" is a reserved word: another name"),
            ]),
            Hint::LateBase {
                name,
                base,
                type_word,
            } => page.sentence(&[
                Piece::Text("BASED stands after the name: "),
                Piece::Shown(name),
                Piece::Text(" BASED "),
                Piece::Shown(base),
                Piece::Text(" "),
                Piece::Shown(type_word),
            ]),
            Hint::Meant(Meant { word, meant }) => page.sentence(&[
                Piece::Text(meant),
                Piece::Text(" may be meant by "),
                Piece::Shown(word),
            ]),
            Hint::Said(sentence) => page.sentence(&[Piece::Text(sentence)]),
        }
    }
}
