//! What is likely wrong at a word of a source, by the words of its statement or of its declaration.

use crate::statements::{
    are_joined, begins_statement, depth_of, ends_value, ends_with_declared, follows_type, has_kind,
    has_relation, has_then, has_to, has_values, is_arithmetic, is_do_of_name, is_joined,
    is_relation, is_sharing, is_type, is_typed, is_typed_item, is_value, is_variable, item_of,
    open_list, statement_of, takes_values, wants_value,
};
use words::{Kind, Mark, ReservedWord, Word};

// A word that cannot stand where it stands: the words of its statement before it, the last word before it, it with the words
// after it, and how many parentheses are open.
#[derive(Clone, Copy)]
struct Spot<'w, 'a> {
    statement: &'w [Word<'a>],
    last: Word<'a>,
    word: Word<'a>,
    after: &'w [Word<'a>],
    depth: u32,
}

// That a comma has nothing before it or after it.
const LONE_COMMA: &str =
    "A comma stands between two things: one is missing, or the comma is superfluous";

// That a comma stands where a declaration ends.
const LATE_COMMA: &str = "The comma before it may have to be a semicolon";

impl Spot<'_, '_> {
    // Whether the statement begins with a word.
    fn begins(&self, reserved: ReservedWord) -> bool {
        match self.statement {
            [first, ..] => first.kind == Kind::Reserved(reserved),
            [] => false,
        }
    }

    // Whether the statement begins with a name.
    fn begins_with_name(&self) -> bool {
        match self.statement {
            [first, ..] => first.kind == Kind::Name,
            [] => false,
        }
    }

    // Whether the word before is this one.
    fn is_after(&self, reserved: ReservedWord) -> bool {
        self.last.kind == Kind::Reserved(reserved)
    }

    // Whether the word is PUBLIC.
    fn is_public(&self) -> bool {
        self.word.kind == Kind::Reserved(ReservedWord::Public)
    }

    // Whether the word is this mark.
    fn is_mark(&self, mark: Mark) -> bool {
        self.word.kind == Kind::Mark(mark)
    }

    // Whether the word after it is of this kind.
    fn is_before(&self, kind: Kind) -> bool {
        match self.after {
            [_, next, ..] => next.kind == kind,
            _ => false,
        }
    }

    // Whether this mark and a slash stand here, joined.
    fn is_at(&self, mark: Mark) -> bool {
        match self.after {
            [first, second, ..] => are_joined(first, mark, second),
            _ => false,
        }
    }

    // What is wrong with marks that are joined.
    fn of_marks(&self) -> Option<&'static str> {
        let is_turned = (self.is_mark(Mark::GreaterSign) || self.is_mark(Mark::LessSign))
            && self.last.kind == Kind::Mark(Mark::EqualSign)
            && is_joined(&self.last, &self.word);
        if self.is_at(Mark::Slash) || are_joined(&self.last, Mark::Slash, &self.word) {
            Some("A comment stands between /* and */")
        } else if self.is_at(Mark::Asterisk) {
            Some("No comment ends here: its /* is missing before it")
        } else if is_turned {
            Some("The = stands last: <= and >=")
        } else {
            None
        }
    }

    // What is wrong with an assignment in an expression: that it is an item of a list after a name, which has its own parentheses.
    fn of_assignment(&self) -> Option<&'static str> {
        let list = open_list(self.statement);
        let is_after_name = match self.statement.get(list.at.saturating_sub(1)) {
            Some(before) => list.at > 0 && before.kind == Kind::Name,
            None => false,
        };
        let is_code = !self.begins(ReservedWord::Declare) && !self.begins(ReservedWord::Procedure);
        if self.is_mark(Mark::AssignSign)
            && self.depth > 0
            && is_code
            && is_after_name
            && is_variable(list.item)
        {
            Some(
                "An assignment in an argument or in a subscript has parentheses of its own: V((I := 1)), as plm convert writes it",
            )
        } else {
            None
        }
    }

    // What is wrong with a number that has a fraction.
    fn of_fraction(&self) -> Option<&'static str> {
        match (self.last.kind, self.after) {
            (Kind::Number(_), [point, digits, ..])
                if point.kind == Kind::Mark(Mark::Period)
                    && matches!(digits.kind, Kind::Number(_))
                    && is_joined(point, digits) => {
                Some("A number is whole, and has no point and no fraction")
            }
            _ => None,
        }
    }

    // What is wrong with a colon before an equal sign.
    fn of_equal_sign(&self) -> Option<&'static str> {
        if self.is_mark(Mark::EqualSign) && self.last.kind == Kind::Mark(Mark::Colon) {
            Some("An assignment has = alone; the mark := of an expression has no blank in it")
        } else {
            None
        }
    }

    // What is wrong with a colon at the end of a statement.
    fn of_colon(&self) -> Option<&'static str> {
        let is_whole = self.depth == 0 && is_value(self.last.kind);
        let is_assignment = self.begins_with_name()
            && has_kind(self.statement, Kind::Mark(Mark::EqualSign));
        if self.is_mark(Mark::Colon)
            && is_whole
            && (is_assignment || self.begins(ReservedWord::Call))
        {
            Some("A colon comes after a label alone, and a semicolon ends a statement")
        } else {
            None
        }
    }

    // What is wrong with parentheses.
    fn of_parentheses(&self) -> Option<&'static str> {
        match self.word.kind {
            Kind::Mark(Mark::RightParenthesis) if self.depth == 0 => {
                Some("No ( is open here: one is missing, or this ) is superfluous")
            }
            Kind::Mark(Mark::Semicolon)
            | Kind::Reserved(ReservedWord::Then | ReservedWord::To | ReservedWord::By)
                if self.depth > 0 => { Some("A ) is missing before it") }
            _ => None,
        }
    }

    // What is wrong with a comma.
    fn of_commas(&self) -> Option<&'static str> {
        let is_after = self.last.kind == Kind::Mark(Mark::Comma);
        let is_first = self.last.kind == Kind::Mark(Mark::LeftParenthesis);
        match self.word.kind {
            Kind::Mark(Mark::Comma) if is_after || is_first => Some(LONE_COMMA),
            Kind::Mark(Mark::RightParenthesis | Mark::Semicolon) if is_after => Some(LONE_COMMA),
            kind
                if is_after
                    && self.depth == 0
                    && self.begins(ReservedWord::Declare)
                    && begins_statement(kind) => { Some(LATE_COMMA) }
            Kind::Mark(Mark::Comma)
                if self.depth == 0
                    && self.begins_with_name()
                    && has_kind(self.statement, Kind::Mark(Mark::EqualSign)) => {
                Some(
                    "No comma here: A, B = 0 for one value, and a semicolon between two assignments",
                )
            }
            _ => None,
        }
    }

    // What is wrong after a name in the parentheses of a DECLARE.
    fn of_names(&self) -> Option<&'static str> {
        if !ends_with_declared(self.statement) {
            None
        } else if is_type(self.word.kind) {
            Some("In the parentheses stand names alone, and their type after the )")
        } else if self.is_mark(Mark::LeftParenthesis) {
            Some("In the parentheses stand names alone: declare an array of another size by itself")
        } else {
            None
        }
    }

    // What is wrong with the base of a variable in a DECLARE.
    fn of_base(&self) -> Option<&'static str> {
        match self.statement {
            [.., based, _]
                if based.kind == Kind::Reserved(ReservedWord::Based)
                    && self.is_mark(Mark::Period) => {
                Some("A member is no base: an ADDRESS variable of its own, which takes its value")
            }
            _ => None,
        }
    }

    // What is wrong with the type in a DECLARE, outside parentheses.
    fn of_type(&self) -> Option<&'static str> {
        let item = item_of(self.statement);
        let is_first = self.is_after(ReservedWord::Declare)
            || self.last.kind == Kind::Mark(Mark::Comma);
        if is_first && is_type(self.word.kind) && self.is_before(Kind::Name) {
            Some("The type stands after the name: DECLARE A BYTE")
        } else if item.len() == 1 && self.last.kind == Kind::Name && self.is_mark(Mark::Comma) {
            Some("Several names of one type stand in parentheses: DECLARE (A, B) BYTE")
        } else if is_value(self.last.kind) && follows_type(self.word.kind) && !is_typed(item) {
            Some("The type stands before it: BYTE, ADDRESS or STRUCTURE")
        } else if is_type(self.last.kind) && self.is_mark(Mark::LeftParenthesis) {
            Some("A dimension stands after the name, and values after INITIAL or DATA")
        } else {
            None
        }
    }

    // What is wrong after the type in a DECLARE, outside parentheses.
    fn of_values(&self) -> Option<&'static str> {
        let is_closed = self.last.kind == Kind::Mark(Mark::RightParenthesis);
        if is_closed && is_sharing(self.word.kind) {
            Some("PUBLIC and EXTERNAL stand before AT, INITIAL and DATA")
        } else if is_closed && takes_values(self.word.kind) && has_values(item_of(self.statement)) {
            Some(
                "AT, INITIAL or DATA: one of them alone; after AT an assignment gives a first value",
            )
        } else if takes_values(self.last.kind) && !self.is_mark(Mark::LeftParenthesis) {
            Some("What follows AT, INITIAL and DATA stands in parentheses")
        } else if self.is_after(ReservedWord::Literally) {
            Some("The text after LITERALLY stands between quotes")
        } else if self.is_mark(Mark::EqualSign) && is_typed_item(self.statement) {
            Some("A first value stands in parentheses after INITIAL: DECLARE A BYTE INITIAL (5)")
        } else {
            None
        }
    }

    // What is wrong in a DECLARE.
    fn of_declare(&self) -> Option<&'static str> {
        if !self.begins(ReservedWord::Declare) {
            None
        } else if self.depth > 0 {
            self.of_names()
        } else if self.is_mark(Mark::Colon) && item_of(self.statement).len() == 1 {
            Some(LATE_COMMA)
        } else {
            self.of_base().or(self.of_type()).or(self.of_values())
        }
    }

    // What is wrong in the heading of a procedure.
    fn of_heading(&self) -> Option<&'static str> {
        let is_late = is_sharing(self.last.kind) || self.is_after(ReservedWord::Reentrant);
        if !self.begins(ReservedWord::Procedure) {
            None
        } else if is_type(self.word.kind) && ends_with_declared(self.statement) {
            Some("The type of a parameter stands in a DECLARE after the heading")
        } else if is_type(self.word.kind) && is_late {
            Some("The type stands before PUBLIC, EXTERNAL and REENTRANT")
        } else if is_type(self.last.kind) && self.is_mark(Mark::LeftParenthesis) {
            Some("The parameters stand before the type: PROCEDURE (X) BYTE")
        } else if self.is_after(ReservedWord::Reentrant) && self.is_public() {
            Some("PUBLIC stands before REENTRANT")
        } else {
            None
        }
    }

    // What is wrong before the word PROCEDURE.
    fn of_procedure(&self) -> Option<&'static str> {
        match self.statement {
            _ if self.word.kind != Kind::Reserved(ReservedWord::Procedure) => None,
            [] => Some("A procedure has its name and a colon before it: P: PROCEDURE"),
            [name] if name.kind == Kind::Name => Some("A colon is missing before it"),
            _ => None,
        }
    }

    // What is wrong in an IF that has no THEN yet.
    fn of_condition(&self) -> Option<&'static str> {
        let is_whole = self.begins(ReservedWord::If) && self.depth == 0 && is_value(self.last.kind);
        match self.word.kind {
            Kind::Mark(Mark::Semicolon)
                if is_whole && self.is_before(Kind::Reserved(ReservedWord::Then)) => {
                Some("No semicolon stands before THEN")
            }
            Kind::Mark(Mark::Semicolon) if is_whole => Some("THEN may be missing before it"),
            Kind::Name if is_whole && !has_then(self.after) => {
                Some("THEN may be missing before it")
            }
            _ => None,
        }
    }

    // Whether the statement is a DO and the name of its variable.
    fn is_loop_variable(&self) -> bool {
        self.statement.len() == 2 && self.last.kind == Kind::Name
    }

    // What is wrong in the head of a DO.
    fn of_do(&self) -> Option<&'static str> {
        match self.word.kind {
            _ if !self.begins(ReservedWord::Do) => None,
            Kind::Name if self.word.text.eq_ignore_ascii_case(b"STEP") => {
                Some("BY stands before the step: DO I = 1 TO 10 BY 2")
            }
            Kind::Name
                if is_value(self.last.kind) && self.word.text.eq_ignore_ascii_case(b"DOWNTO") => {
                Some(
                    "A DO counts up: in place of DOWNTO write a DO WHILE whose last statement counts down",
                )
            }
            Kind::Mark(Mark::LeftParenthesis | Mark::Period)
                if self.is_loop_variable() && has_to(self.after) => {
                Some("The variable of a DO is a name alone, with no subscript and no member")
            }
            Kind::Reserved(ReservedWord::Do) if is_value(self.last.kind) => {
                Some("The head of a DO ends with a semicolon, and has no second DO")
            }
            Kind::Mark(Mark::Comma)
                if self.depth == 0
                    && has_kind(self.statement, Kind::Mark(Mark::EqualSign))
                    && is_do_of_name(self.statement) => {
                Some("TO stands between the two bounds: DO I = 1 TO 10")
            }
            Kind::Mark(Mark::Semicolon) if is_do_of_name(self.statement) => {
                Some("DO without TO, WHILE or CASE has its semicolon right after it")
            }
            _ => None,
        }
    }

    // What is wrong at a word that begins a statement elsewhere, or cannot begin one.
    fn of_beginning(&self) -> Option<&'static str> {
        let is_inside = wants_value(self.last.kind)
            || self.is_after(ReservedWord::Return)
            || self.last.kind == Kind::Mark(Mark::LeftParenthesis);
        match self.word.kind {
            Kind::Reserved(ReservedWord::Call) if is_inside => {
                Some("In an expression a procedure is called without CALL")
            }
            Kind::Reserved(ReservedWord::While) if self.statement.is_empty() => {
                Some("DO stands before it: DO WHILE")
            }
            Kind::Reserved(ReservedWord::Case) if self.statement.is_empty() => {
                Some("DO stands before it: DO CASE")
            }
            Kind::Reserved(_) if self.is_after(ReservedWord::End) => {
                Some("After END stands its semicolon, or the name of a module or a procedure")
            }
            _ => None,
        }
    }

    // What is wrong with the values of a statement.
    fn of_value(&self) -> Option<&'static str> {
        let has_equal = has_kind(self.statement, Kind::Mark(Mark::EqualSign));
        let is_second = is_value(self.last.kind) && is_relation(self.word.kind);
        if wants_value(self.last.kind) && ends_value(self.word.kind) {
            Some("A value is missing before it")
        } else if self.begins_with_name() && !has_equal && is_arithmetic(self.word.kind) {
            Some("An assignment has its = right after the variable: A = A + 1")
        } else if is_second && has_relation(self.statement) && !self.begins(ReservedWord::Declare) {
            Some("A value is compared once: A < B AND B < C")
        } else {
            None
        }
    }

    // What is wrong in a CALL.
    fn of_call(&self) -> Option<&'static str> {
        match (self.statement, self.word.kind) {
            ([call, name, ..], Kind::Mark(Mark::Period))
                if call.kind == Kind::Reserved(ReservedWord::Call)
                    && name.kind == Kind::Name
                    && self.depth == 0 => {
                Some(
                    "A CALL through a variable is left out: a DO CASE of calls, or ENTER of examples/mixed/README.md",
                )
            }
            ([call], Kind::Number(_)) if call.kind == Kind::Reserved(ReservedWord::Call) => {
                Some("A CALL of an address is left out: ENTER of examples/mixed/README.md")
            }
            ([call, name], Kind::Number(_) | Kind::String)
                if call.kind == Kind::Reserved(ReservedWord::Call) && name.kind == Kind::Name => {
                Some("The arguments of a call stand in parentheses: CALL P(1)")
            }
            _ => None,
        }
    }
}

// A word that cannot stand where it stands: the first of the words `after`, which comes after `before`.
fn spot_at<'w, 'a>(before: &'w [Word<'a>], after: &'w [Word<'a>]) -> Option<Spot<'w, 'a>> {
    let ([.., last], [word, ..]) = (before, after) else {
        return None;
    };
    let statement = statement_of(before);
    Some(Spot {
        statement,
        last: *last,
        word: *word,
        after,
        depth: depth_of(statement),
    })
}

/// What is likely wrong at an assignment in an expression, where the first of the words `after` is its mark.
pub(crate) fn said_of_assignment(before: &[Word], after: &[Word]) -> Option<&'static str> {
    spot_at(before, after)?.of_assignment()
}

/// What is likely wrong at the first of the words `after`, which comes after `before`.
pub(crate) fn said_at(before: &[Word], after: &[Word]) -> Option<&'static str> {
    let spot = spot_at(before, after)?;
    spot.of_marks()
        .or(spot.of_fraction())
        .or(spot.of_equal_sign())
        .or(spot.of_colon())
        .or(spot.of_parentheses())
        .or(spot.of_commas())
        .or(spot.of_declare())
        .or(spot.of_heading())
        .or(spot.of_procedure())
        .or(spot.of_condition())
        .or(spot.of_do())
        .or(spot.of_beginning())
        .or(spot.of_value())
        .or(spot.of_call())
}
