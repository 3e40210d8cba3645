//! The words of statements and of declarations.

use crate::naming::{Named, awaited_after};
use words::{Kind, Mark, ReservedWord, Word};

// Whether a statement may begin after a word.
fn is_boundary(kind: Kind) -> bool {
    match kind {
        Kind::Mark(Mark::Semicolon | Mark::Colon)
        | Kind::Reserved(ReservedWord::Then | ReservedWord::Else) => true,
        _ => false,
    }
}

/// Whether a word ends a value.
pub(crate) fn is_value(kind: Kind) -> bool {
    match kind {
        Kind::Name | Kind::Number(_) | Kind::String | Kind::Mark(Mark::RightParenthesis) => true,
        _ => false,
    }
}

/// Whether a mark stands between two values of a sum.
pub(crate) fn is_arithmetic(kind: Kind) -> bool {
    match kind {
        Kind::Mark(Mark::PlusSign | Mark::MinusSign | Mark::Asterisk | Mark::Slash) => true,
        _ => false,
    }
}

/// Whether a mark stands between two values that are compared.
pub(crate) fn is_relation(kind: Kind) -> bool {
    match kind {
        Kind::Mark(
            Mark::EqualSign
            | Mark::LessSign
            | Mark::GreaterSign
            | Mark::LessEqualSign
            | Mark::GreaterEqualSign
            | Mark::UnequalSign,
        ) => true,
        _ => false,
    }
}

/// The words that may stand after DO, each on a line.
pub(crate) const AFTER_DO: &str = "WHILE\nCASE\n";

/// Whether a word is one of these.
pub(crate) fn comes_after_do(kind: Kind) -> bool {
    match kind {
        Kind::Reserved(ReservedWord::While | ReservedWord::Case) => true,
        _ => false,
    }
}

/// Whether a value comes after a word.
pub(crate) fn wants_value(kind: Kind) -> bool {
    match kind {
        Kind::Reserved(
            ReservedWord::And
            | ReservedWord::By
            | ReservedWord::Case
            | ReservedWord::If
            | ReservedWord::Mod
            | ReservedWord::Not
            | ReservedWord::Or
            | ReservedWord::To
            | ReservedWord::While
            | ReservedWord::Xor,
        )
        | Kind::Mark(Mark::AssignSign) => true,
        _ => is_arithmetic(kind) || is_relation(kind),
    }
}

/// Whether a word comes before a value: of an expression, of a list, or of RETURN.
pub(crate) fn awaits_value(kind: Kind) -> bool {
    match kind {
        Kind::Reserved(ReservedWord::Return) | Kind::Mark(Mark::LeftParenthesis | Mark::Comma) => {
            true
        }
        _ => wants_value(kind),
    }
}

/// Whether a word comes after a whole value alone.
pub(crate) fn ends_value(kind: Kind) -> bool {
    match kind {
        Kind::Mark(Mark::Semicolon | Mark::Comma | Mark::RightParenthesis)
        | Kind::Reserved(ReservedWord::Then | ReservedWord::To | ReservedWord::By) => true,
        _ => false,
    }
}

/// Whether a word is a type of one word.
pub(crate) fn is_type(kind: Kind) -> bool {
    match kind {
        Kind::Reserved(ReservedWord::Address | ReservedWord::Byte) => true,
        _ => false,
    }
}

/// Whether values in parentheses come after a word of a declaration.
pub(crate) fn takes_values(kind: Kind) -> bool {
    match kind {
        Kind::Reserved(ReservedWord::At | ReservedWord::Data | ReservedWord::Initial) => true,
        _ => false,
    }
}

/// Whether words of a declaration have one that values in parentheses come after.
pub(crate) fn has_values(words: &[Word]) -> bool {
    for word in words {
        if takes_values(word.kind) {
            return true;
        }
    }
    false
}

/// Whether a word says that a name is shared.
pub(crate) fn is_sharing(kind: Kind) -> bool {
    match kind {
        Kind::Reserved(ReservedWord::External | ReservedWord::Public) => true,
        _ => false,
    }
}

/// Whether a word comes after the type in an item of a declaration.
pub(crate) fn follows_type(kind: Kind) -> bool {
    match kind {
        Kind::Mark(Mark::Comma | Mark::Semicolon) => true,
        _ => takes_values(kind) || is_sharing(kind),
    }
}

/// Whether a statement begins with a word, in which no DECLARE goes on.
pub(crate) fn begins_statement(kind: Kind) -> bool {
    match kind {
        Kind::Reserved(
            ReservedWord::Call
            | ReservedWord::Declare
            | ReservedWord::Do
            | ReservedWord::End
            | ReservedWord::Goto
            | ReservedWord::If
            | ReservedWord::Return,
        ) => true,
        _ => false,
    }
}

// Whether a reserved word is one that is also a likely name of a variable.
fn is_like_name(kind: Kind) -> bool {
    match kind {
        Kind::Reserved(
            ReservedWord::At
            | ReservedWord::Data
            | ReservedWord::Eof
            | ReservedWord::External
            | ReservedWord::Initial
            | ReservedWord::Label
            | ReservedWord::Public,
        ) => true,
        _ => false,
    }
}

/// The words of the last statement or declaration of `words`, which has no end yet.
pub(crate) fn statement_of<'w, 'a>(words: &'w [Word<'a>]) -> &'w [Word<'a>] {
    let mut start = 0;
    for (at, word) in words.iter().enumerate() {
        if is_boundary(word.kind) {
            start = at.saturating_add(1);
        }
    }
    let (_, statement) = words.split_at(start.min(words.len()));
    statement
}

/// How many parentheses of words are open.
pub(crate) fn depth_of(words: &[Word]) -> u32 {
    let mut depth = 0_u32;
    for word in words {
        match word.kind {
            Kind::Mark(Mark::LeftParenthesis) => depth = depth.saturating_add(1),
            Kind::Mark(Mark::RightParenthesis) => depth = depth.saturating_sub(1),
            _ => {}
        }
    }
    depth
}

/// The last list in parentheses that is open after words: how many words stand before its parenthesis, and its last item.
#[derive(Clone, Copy)]
pub(crate) struct OpenList<'w, 'a> {
    pub(crate) at: usize,
    pub(crate) item: &'w [Word<'a>],
}

/// The last list in parentheses that is open after words.
pub(crate) fn open_list<'w, 'a>(words: &'w [Word<'a>]) -> OpenList<'w, 'a> {
    let innermost = depth_of(words);
    let mut depth = 0_u32;
    let mut at = 0;
    let mut start = 0;
    for (number, word) in words.iter().enumerate() {
        match word.kind {
            Kind::Mark(Mark::LeftParenthesis) => {
                depth = depth.saturating_add(1);
                if depth == innermost {
                    at = number;
                    start = number.saturating_add(1);
                }
            }
            Kind::Mark(Mark::RightParenthesis) => depth = depth.saturating_sub(1),
            Kind::Mark(Mark::Comma) if depth == innermost => start = number.saturating_add(1),
            _ => {}
        }
    }
    let (_, item) = words.split_at(start.min(words.len()));
    OpenList { at, item }
}

/// Whether the last list in parentheses that is open after words has the members of a structure.
pub(crate) fn is_in_structure(words: &[Word]) -> bool {
    let list = open_list(words);
    match words.get(list.at.saturating_sub(1)) {
        Some(before) => list.at > 0 && before.kind == Kind::Reserved(ReservedWord::Structure),
        None => false,
    }
}

/// Whether an item of a list is a variable: a name, with members and lists after it.
pub(crate) fn is_variable(item: &[Word]) -> bool {
    let mut depth = 0_u32;
    for word in item {
        match word.kind {
            Kind::Mark(Mark::LeftParenthesis) => depth = depth.saturating_add(1),
            Kind::Mark(Mark::RightParenthesis) => depth = depth.saturating_sub(1),
            Kind::Name | Kind::Mark(Mark::Period) => {}
            _ if depth == 0 => return false,
            _ => {}
        }
    }
    match item {
        [first, ..] => first.kind == Kind::Name,
        [] => false,
    }
}

/// The words of the last item of a DECLARE: those after its last comma outside parentheses, or after DECLARE.
pub(crate) fn item_of<'w, 'a>(declare: &'w [Word<'a>]) -> &'w [Word<'a>] {
    let mut depth = 0_u32;
    let mut start = 1;
    for (at, word) in declare.iter().enumerate() {
        match word.kind {
            Kind::Mark(Mark::LeftParenthesis) => depth = depth.saturating_add(1),
            Kind::Mark(Mark::RightParenthesis) => depth = depth.saturating_sub(1),
            Kind::Mark(Mark::Comma) if depth == 0 => start = at.saturating_add(1),
            _ => {}
        }
    }
    let (_, item) = declare.split_at(start.min(declare.len()));
    item
}

/// Whether words have one of this kind.
pub(crate) fn has_kind(words: &[Word], kind: Kind) -> bool {
    for word in words {
        if word.kind == kind {
            return true;
        }
    }
    false
}

/// Whether an item of a DECLARE has its type, or needs none.
pub(crate) fn is_typed(item: &[Word]) -> bool {
    for word in item {
        match word.kind {
            Kind::Reserved(
                ReservedWord::Address
                | ReservedWord::Byte
                | ReservedWord::Literally
                | ReservedWord::Structure,
            ) => return true,
            _ => {}
        }
    }
    false
}

/// Whether the last item of a DECLARE has its type, or needs none.
pub(crate) fn is_typed_item(declare: &[Word]) -> bool {
    is_typed(item_of(declare))
}

/// Whether TO comes in words before the first semicolon.
pub(crate) fn has_to(words: &[Word]) -> bool {
    for word in words {
        match word.kind {
            Kind::Reserved(ReservedWord::To) => return true,
            Kind::Mark(Mark::Semicolon) => return false,
            _ => {}
        }
    }
    false
}

/// Whether words have a comparison.
pub(crate) fn has_relation(words: &[Word]) -> bool {
    for word in words {
        if is_relation(word.kind) {
            return true;
        }
    }
    false
}

/// Whether THEN comes in words before the first semicolon.
pub(crate) fn has_then(words: &[Word]) -> bool {
    for word in words {
        match word.kind {
            Kind::Reserved(ReservedWord::Then) => return true,
            Kind::Mark(Mark::Semicolon) => return false,
            _ => {}
        }
    }
    false
}

/// Whether words end with a name that they declare.
pub(crate) fn ends_with_declared(words: &[Word]) -> bool {
    match words {
        [before @ .., last] => {
            last.kind == Kind::Name && awaited_after(before) == Some(Named::Object)
        }
        [] => false,
    }
}

/// Whether a word comes right after another one, with no blank between.
pub(crate) fn is_joined(first: &Word, second: &Word) -> bool {
    second.start == first.start.saturating_add(1)
}

/// Whether two words are this mark and a slash, the second right after the first.
pub(crate) fn are_joined(first: &Word, mark: Mark, second: &Word) -> bool {
    first.kind == Kind::Mark(mark)
        && second.kind == Kind::Mark(Mark::Slash)
        && is_joined(first, second)
}

/// Whether words are a DO and a name, with no TO after it.
pub(crate) fn is_do_of_name(statement: &[Word]) -> bool {
    match statement {
        [first, name, ..] => {
            first.kind == Kind::Reserved(ReservedWord::Do)
                && name.kind == Kind::Name
                && !has_kind(statement, Kind::Reserved(ReservedWord::To))
        }
        _ => false,
    }
}

/// Whether a statement may end after words: it is no IF without THEN and no name alone, and has no open parenthesis.
pub(crate) fn may_end_after(words: &[Word]) -> bool {
    let statement = statement_of(words);
    match statement {
        [] => false,
        [only] => only.kind != Kind::Name,
        [first, ..] => {
            first.kind != Kind::Reserved(ReservedWord::If) && depth_of(statement) == 0
        }
    }
}

/// The line of the DO with which the last statement of words begins, if a name comes after it on a later line, and no TO: so its
/// semicolon may be missing.
pub(crate) fn line_of_do(words: &[Word]) -> Option<u32> {
    let statement = statement_of(words);
    match statement {
        [first, name, ..] if first.line < name.line && is_do_of_name(statement) => {
            Some(first.line)
        }
        _ => None,
    }
}

/// Whether a reserved word is likely meant as a name at a place, by the word before it and the one after it.
pub(crate) fn is_reserved_name(last: &Word, word: &Word, next: Option<&Word>) -> bool {
    let Some(next) = next else {
        return false;
    };
    let is_target = is_boundary(last.kind) && next.kind == Kind::Mark(Mark::EqualSign);
    let is_operand = (is_arithmetic(last.kind) || is_relation(last.kind))
        && (ends_value(next.kind) || is_arithmetic(next.kind) || is_relation(next.kind));
    let is_member = last.kind == Kind::Mark(Mark::Period);
    is_like_name(word.kind) && (is_target || is_operand || is_member)
}
