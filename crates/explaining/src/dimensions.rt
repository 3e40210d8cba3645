//! What is likely wrong in the dimension of a declaration.

use crate::naming::awaited_after;
use crate::statements::{depth_of, is_arithmetic, open_list, statement_of};
use words::{Kind, Mark, ReservedWord, Word};

// What a dimension is.
const DIMENSION: &str = "A dimension is one number, or a name that stands for one by LITERALLY";

// Whether words end with a name that has its dimension after it: one that they declare, or that of its base.
fn ends_with_dimensioned(words: &[Word]) -> bool {
    match words {
        [before @ .., last] => {
            let is_base = match before {
                [.., based] => based.kind == Kind::Reserved(ReservedWord::Based),
                [] => false,
            };
            last.kind == Kind::Name && (is_base || awaited_after(before).is_some())
        }
        [] => false,
    }
}

// Whether words are a comma, a number and the end of a list.
fn has_second_dimension(words: &[Word]) -> bool {
    match words {
        [_, number, close, ..] => {
            matches!(number.kind, Kind::Number(_))
                && close.kind == Kind::Mark(Mark::RightParenthesis)
        }
        _ => false,
    }
}

// Whether the last list that is open in a statement is a dimension in a DECLARE.
fn is_in_dimension(statement: &[Word]) -> bool {
    let list = open_list(statement);
    let (before, _) = statement.split_at(list.at.min(statement.len()));
    let is_declare = match statement {
        [first, ..] => first.kind == Kind::Reserved(ReservedWord::Declare),
        [] => false,
    };
    is_declare && depth_of(statement) > 0 && ends_with_dimensioned(before)
}

/// What is likely wrong in a dimension, where the first of the words `after` cannot stand after `before`.
pub(crate) fn said_of_dimension(before: &[Word], after: &[Word]) -> Option<&'static str> {
    let ([.., last], [word, ..]) = (before, after) else {
        return None;
    };
    if !is_in_dimension(statement_of(before)) {
        return None;
    }
    let has_second = has_second_dimension(after);
    match (last.kind, word.kind) {
        (Kind::Number(_), Kind::Mark(Mark::Comma)) if has_second => Some(
            "An array has one dimension: for S(2, 3) declare S(6), and write S(I * 3 + J)",
        ),
        (Kind::Number(_), Kind::Reserved(ReservedWord::Address | ReservedWord::Byte)) => {
            Some("A ) is missing before it")
        }
        (_, Kind::Name | Kind::Number(_) | Kind::String) => Some(DIMENSION),
        (Kind::Number(_), Kind::Mark(Mark::Colon)) => Some(DIMENSION),
        (Kind::Number(_), kind) if is_arithmetic(kind) => Some(DIMENSION),
        _ => None,
    }
}
