//! Reserved words that are misspelled, and words that the text of an included file defined.

use crate::left_out::is_same_name;
use crate::naming::{declares_first, is_known};
use crate::sentences::said_of;
use crate::statements::{
    AFTER_DO, awaits_value, comes_after_do, depth_of, has_kind, is_in_structure, is_typed_item,
    is_value, statement_of,
};
use sources::Name;
use words::{Kind, Mark, ReservedWord, Word};

// What to write for words that files of the time defined, and that are names without these: a line for each.
const OF_FILES: &str = "\
ADDR ADDR came from an included file: DECLARE ADDR LITERALLY 'ADDRESS'
DCL DCL came from an included file: DECLARE DCL LITERALLY 'DECLARE'
LIT LIT came from an included file: DECLARE LIT LITERALLY 'LITERALLY'
PROC PROC came from an included file: DECLARE PROC LITERALLY 'PROCEDURE'
";

// No reserved word.
const NONE: &str = "";

// The words of a list, each on a line: those that may stand after a name that is declared, and after its type.
const BEFORE_TYPE: &str = "BYTE\nADDRESS\nSTRUCTURE\nBASED\nLITERALLY\n";

const AFTER_TYPE: &str = "PUBLIC\nEXTERNAL\nAT\nINITIAL\nDATA\n";

const OF_MEMBER: &str = "BYTE\nADDRESS\n";

const OF_HEADING: &str = "BYTE\nADDRESS\nPUBLIC\nEXTERNAL\nREENTRANT\n";

// The words that may stand after a value.
const OPERATORS: &str = "AND\nOR\nXOR\nMOD\n";

const AFTER_CONDITION: &str = "THEN\nAND\nOR\nXOR\nMOD\n";

const AFTER_BOUND: &str = "TO\nBY\nAND\nOR\nXOR\nMOD\n";

// The word that may stand before a value.
const BEFORE_VALUE: &str = "NOT\n";

// The words that may begin a statement or a declaration, by the word after them.
const BEFORE_SEMICOLON: &str = "RETURN\nHALT\nDO\n";

const BEFORE_SEMICOLON_OF_LIST: &str = "END\nRETURN\nHALT\nDO\n";

const BEFORE_SEMICOLON_OF_LABEL: &str = "PROCEDURE\nRETURN\nHALT\nDO\n";

const BEFORE_NAME: &str = "RETURN\nCALL\nGOTO\nDO\nIF\n";

const BEFORE_NAME_OF_LIST: &str = "DECLARE\nELSE\nEND\nRETURN\nCALL\nGOTO\nDO\nIF\n";

// Those before a name that is assigned or compared.
const BEFORE_ASSIGNED: &str = "RETURN\nDO\nIF\n";

const BEFORE_ASSIGNED_OF_LIST: &str = "ELSE\nRETURN\nDO\nIF\n";

const BEFORE_NUMBER: &str = "RETURN\nIF\n";

const BEFORE_STATEMENT: &str = "ELSE\n";

const ONLY_DO: &str = "DO\n";

const ONLY_PROCEDURE: &str = "PROCEDURE\n";

const ONLY_DECLARE: &str = "DECLARE\n";

const ONLY_RETURN: &str = "RETURN\n";

const ONLY_IF: &str = "IF\n";

const RETURN_OR_PROCEDURE: &str = "RETURN\nPROCEDURE\n";

/// A word of a source, and the reserved word that may be meant by it.
#[derive(Clone, Copy)]
pub(crate) struct Meant<'a> {
    pub(crate) word: &'a [u8],
    pub(crate) meant: &'static str,
}

// A word that cannot stand where it stands: all words, those before its statement, those of its statement before it, the word
// before these, the last word before it, it, those after it with it, and the kind of the next one.
#[derive(Clone, Copy)]
struct Spot<'w, 'a> {
    words: &'w [Word<'a>],
    earlier: &'w [Word<'a>],
    statement: &'w [Word<'a>],
    boundary: Kind,
    last: Word<'a>,
    word: Word<'a>,
    after: &'w [Word<'a>],
    next: Kind,
}

// The letter that a character looks like.
fn letter_of(character: u8) -> u8 {
    match character {
        b'0' => b'O',
        b'1' => b'I',
        other => other,
    }
}

// How many characters of a name come before the first one that is not as in a reserved word.
fn same_front(name: &[u8], reserved: &[u8]) -> usize {
    for (at, character) in name.iter().enumerate() {
        match reserved.get(at) {
            Some(letter) if letter_of(*character) == *letter => {}
            _ => return at,
        }
    }
    name.len()
}

// Whether a name is a reserved word, but for 0 and 1 in place of letters.
fn are_alike(name: &[u8], reserved: &[u8]) -> bool {
    name.len() == reserved.len() && same_front(name, reserved) == name.len()
}

// Whether two letters begin both, in another order.
fn are_swapped(name: &[u8], reserved: &[u8]) -> bool {
    match (name, reserved) {
        ([one, two, ..], [first, second, ..]) => {
            letter_of(*one) == *second && letter_of(*two) == *first
        }
        _ => false,
    }
}

// Whether a name is a reserved word with two letters swapped, with 0 or 1 in place of letters, or if it has at least four letters,
// with one letter wrong, missing or too many; one of three letters may have one too many at its end.
fn is_near(name: &[u8], reserved: &[u8]) -> bool {
    let front = same_front(name, reserved);
    let had = name.get(front..).unwrap_or(&[]);
    let wanted = reserved.get(front..).unwrap_or(&[]);
    let had_later = had.get(1..).unwrap_or(&[]);
    let wanted_later = wanted.get(1..).unwrap_or(&[]);
    let had_after = had.get(2..).unwrap_or(&[]);
    let wanted_after = wanted.get(2..).unwrap_or(&[]);
    are_alike(had, wanted)
        || are_swapped(had, wanted) && are_alike(had_after, wanted_after)
        || reserved.len() == 3 && wanted.is_empty() && had.len() == 1
        || reserved.len() >= 4
            && (are_alike(had_later, wanted_later)
                || are_alike(had, wanted_later)
                || are_alike(had_later, wanted))
}

// The first of the reserved words of a list that a name is near to.
fn near_in(list: &'static str, name: &[u8]) -> Option<&'static str> {
    for reserved in list.lines() {
        if is_near(name, reserved.as_bytes()) {
            return Some(reserved);
        }
    }
    None
}

// Whether a name is declared: by another word than itself, if it is the first of its statement.
fn is_known_at(spot: &Spot, word: Word) -> bool {
    let is_first = match spot.statement {
        [first, ..] => first.start == word.start,
        [] => false,
    };
    if is_first {
        is_known(spot.earlier, word.text) || is_known(spot.after, word.text)
    } else {
        is_known(spot.words, word.text)
    }
}

// The reserved word of a list that may be meant by a name that is not declared.
fn meant_by<'a>(spot: &Spot, word: Word<'a>, list: &'static str) -> Option<Meant<'a>> {
    let name = Name::from_text(word.text)?;
    let meant = near_in(list, name.as_slice())?;
    if word.kind == Kind::Name && !is_known_at(spot, word) {
        let word = word.text;
        Some(Meant { word, meant })
    } else {
        None
    }
}

// Whether an equal sign comes after the first of words, or after its subscript of one word.
fn is_assigned(words: &[Word]) -> bool {
    match words {
        [_, open, _, close, follows, ..] if open.kind == Kind::Mark(Mark::LeftParenthesis) => {
            close.kind == Kind::Mark(Mark::RightParenthesis)
                && follows.kind == Kind::Mark(Mark::EqualSign)
        }
        [_, follows, ..] => follows.kind == Kind::Mark(Mark::EqualSign),
        _ => false,
    }
}

// The reserved words that may stand in place of the word at fault.
fn words_at(spot: &Spot) -> &'static str {
    let [first, ..] = spot.statement else {
        return NONE;
    };
    let is_open = depth_of(spot.statement) > 0;
    let has_equal = has_kind(spot.statement, Kind::Mark(Mark::EqualSign));
    let is_typed = is_typed_item(spot.statement);
    let is_after_value = is_value(spot.last.kind);
    let is_member = is_in_structure(spot.statement);
    match first.kind {
        _ if declares_first(spot.after) || is_assigned(spot.after) => NONE,
        Kind::Reserved(ReservedWord::Declare) if is_member && is_after_value => OF_MEMBER,
        Kind::Reserved(ReservedWord::Declare) if is_open => NONE,
        Kind::Reserved(ReservedWord::Declare) if is_typed => AFTER_TYPE,
        Kind::Reserved(ReservedWord::Declare) => BEFORE_TYPE,
        Kind::Reserved(ReservedWord::Procedure) if is_open => NONE,
        Kind::Reserved(ReservedWord::Procedure) => OF_HEADING,
        _ if !is_after_value => NONE,
        Kind::Reserved(ReservedWord::If) if !is_open => AFTER_CONDITION,
        Kind::Reserved(ReservedWord::Do) if !is_open && has_equal => AFTER_BOUND,
        Kind::Name if !is_open && !has_equal => NONE,
        _ => OPERATORS,
    }
}

// The reserved words that may stand in place of the only word of a statement before the one at fault.
fn words_alone(boundary: Kind, word: Kind, is_assigned: bool) -> &'static str {
    match (boundary, word) {
        (Kind::Mark(Mark::Colon), Kind::Mark(Mark::Semicolon)) => BEFORE_SEMICOLON_OF_LABEL,
        (Kind::Mark(Mark::Semicolon), Kind::Mark(Mark::Semicolon)) => BEFORE_SEMICOLON_OF_LIST,
        (_, Kind::Mark(Mark::Semicolon)) => BEFORE_SEMICOLON,
        (Kind::Mark(Mark::Semicolon), Kind::Name) if is_assigned => BEFORE_ASSIGNED_OF_LIST,
        (_, Kind::Name) if is_assigned => BEFORE_ASSIGNED,
        (Kind::Mark(Mark::Semicolon), Kind::Name) => BEFORE_NAME_OF_LIST,
        (_, Kind::Name) => BEFORE_NAME,
        (
            _,
            Kind::Number(_)
            | Kind::String
            | Kind::Mark(Mark::MinusSign)
            | Kind::Reserved(ReservedWord::Not),
        ) => BEFORE_NUMBER,
        (_, other) if comes_after_do(other) => ONLY_DO,
        (
            Kind::Mark(Mark::Colon),
            Kind::Reserved(
                ReservedWord::Address
                | ReservedWord::Byte
                | ReservedWord::External
                | ReservedWord::Public
                | ReservedWord::Reentrant,
            ),
        ) => ONLY_PROCEDURE,
        (
            Kind::Mark(Mark::Semicolon),
            Kind::Reserved(
                ReservedWord::Call
                | ReservedWord::Do
                | ReservedWord::Go
                | ReservedWord::Goto
                | ReservedWord::Halt
                | ReservedWord::If
                | ReservedWord::Return,
            ),
        ) => BEFORE_STATEMENT,
        _ => NONE,
    }
}

// The reserved words that may stand in place of the first word of a statement, where a list in parentheses stands between it and
// the word at fault.
fn words_before_list(boundary: Kind, word: Kind) -> &'static str {
    match (boundary, word) {
        (Kind::Mark(Mark::Colon), Kind::Mark(Mark::Semicolon)) => RETURN_OR_PROCEDURE,
        (_, Kind::Mark(Mark::Semicolon)) => ONLY_RETURN,
        (
            Kind::Mark(Mark::Colon),
            Kind::Reserved(
                ReservedWord::Address
                | ReservedWord::Byte
                | ReservedWord::External
                | ReservedWord::Public
                | ReservedWord::Reentrant,
            ),
        ) => ONLY_PROCEDURE,
        (
            Kind::Mark(Mark::Semicolon),
            Kind::Reserved(
                ReservedWord::Address
                | ReservedWord::Byte
                | ReservedWord::Structure
                | ReservedWord::Based,
            ),
        ) => ONLY_DECLARE,
        (_, Kind::Reserved(ReservedWord::Then)) => ONLY_IF,
        _ => NONE,
    }
}

// The reserved words that may stand in place of the word before the one at fault, where others of its statement come before it.
fn words_after(spot: &Spot) -> &'static str {
    let is_whole = match spot.word.kind {
        Kind::Mark(Mark::Semicolon | Mark::EqualSign) => true,
        _ => false,
    };
    let begins_value = match spot.word.kind {
        Kind::Name | Kind::Number(_) | Kind::String => true,
        _ => false,
    };
    match spot.statement {
        [first, _] if first.kind == Kind::Reserved(ReservedWord::Do) && !is_whole => AFTER_DO,
        [first, ..]
            if first.kind == Kind::Reserved(ReservedWord::Declare)
                || first.kind == Kind::Reserved(ReservedWord::Procedure) => { NONE }
        [.., earlier, _] if awaits_value(earlier.kind) && begins_value => BEFORE_VALUE,
        _ => NONE,
    }
}

// The first word of a statement, if it is a name, alone or with a list in parentheses up to the end.
fn opening_of<'a>(statement: &[Word<'a>]) -> Option<Word<'a>> {
    let is_closed = depth_of(statement) == 0;
    match statement {
        [name] if name.kind == Kind::Name => Some(*name),
        [name, open, .., close]
            if name.kind == Kind::Name
                && open.kind == Kind::Mark(Mark::LeftParenthesis)
                && close.kind == Kind::Mark(Mark::RightParenthesis)
                && is_closed => { Some(*name) }
        _ => None,
    }
}

// A word that cannot stand where it stands: the one with this number of words before it, and others after it.
fn spot_at<'w, 'a>(words: &'w [Word<'a>], count: usize) -> Option<Spot<'w, 'a>> {
    let (before, after) = words.split_at(count.min(words.len()));
    let ([.., last], [word, ..]) = (before, after) else {
        return None;
    };
    let statement = statement_of(before);
    let passed = before.len().saturating_sub(statement.len());
    let (earlier, _) = before.split_at(passed.min(before.len()));
    let boundary = match earlier {
        [.., boundary] => boundary.kind,
        [] => Kind::Mark(Mark::Semicolon),
    };
    let next = match after {
        [_, next, ..] => next.kind,
        _ => Kind::Mark(Mark::Semicolon),
    };
    Some(Spot {
        words,
        earlier,
        statement,
        boundary,
        last: *last,
        word: *word,
        after,
        next,
    })
}

// What the first word of a statement may be meant as.
fn meant_first<'a>(spot: &Spot<'_, 'a>) -> Option<Meant<'a>> {
    let opening = opening_of(spot.statement)?;
    let list = if spot.statement.len() == 1 {
        words_alone(spot.boundary, spot.word.kind, is_assigned(spot.after))
    } else {
        words_before_list(spot.boundary, spot.word.kind)
    };
    meant_by(spot, opening, list)
}

/// The reserved word that may be meant by a name, where a word cannot stand with this number of words before it: by it, by the
/// word before it, or by the first one of its statement.
pub(crate) fn meant_at<'a>(words: &[Word<'a>], count: usize) -> Option<Meant<'a>> {
    let spot = spot_at(words, count)?;
    meant_by(&spot, spot.word, words_at(&spot))
        .or(meant_by(&spot, spot.last, words_after(&spot)))
        .or(meant_first(&spot))
}

// Whether a type may stand at a word: after a name or a list of a declaration, or after PROCEDURE or its parameters.
fn may_be_type(spot: &Spot) -> bool {
    let is_declaring = match spot.statement {
        [first, ..] => {
            first.kind == Kind::Reserved(ReservedWord::Declare)
                || first.kind == Kind::Reserved(ReservedWord::Procedure)
        }
        [] => false,
    };
    let is_after = match spot.last.kind {
        Kind::Name | Kind::Mark(Mark::RightParenthesis) | Kind::Reserved(ReservedWord::Procedure) =>
            true,
        _ => false,
    };
    is_declaring && is_after && (depth_of(spot.statement) == 0 || is_in_structure(spot.statement))
}

// The word of an included file that stands where its text stood: the type or LITERALLY in a declaration, or the first word.
fn word_of_file<'a>(spot: &Spot<'_, 'a>) -> Option<Word<'a>> {
    let is_text = is_same_name(spot.word.text, b"LIT") && spot.next == Kind::String;
    if may_be_type(spot) && (is_text || is_same_name(spot.word.text, b"ADDR")) {
        return Some(spot.word);
    }
    let opening = opening_of(spot.statement)?;
    let is_heading = is_same_name(opening.text, b"PROC")
        && spot.boundary == Kind::Mark(Mark::Colon);
    let is_declaration = is_same_name(opening.text, b"DCL")
        && spot.word.kind != Kind::Mark(Mark::Semicolon);
    if is_heading || is_declaration {
        Some(opening)
    } else {
        None
    }
}

/// What to write for a word that an included file defined, where a word cannot stand with this number of words before it.
pub(crate) fn said_of_file(words: &[Word], count: usize) -> Option<&'static str> {
    let spot = spot_at(words, count)?;
    let word = word_of_file(&spot)?;
    let name = Name::from_text(word.text)?;
    if is_known_at(&spot, word) {
        None
    } else {
        said_of(OF_FILES, name.as_slice())
    }
}

/// Whether a name may be meant as DO.
pub(crate) fn is_near_do(word: &[u8]) -> bool {
    match Name::from_text(word) {
        Some(name) => is_near(name.as_slice(), b"DO"),
        None => false,
    }
}
