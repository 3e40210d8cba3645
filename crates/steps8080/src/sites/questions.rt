//! The questions that relations ask.

ghost use Rattle.std.specs.Prelude.{◌≡◌};
ghost use Rattle.steps8080.specs.internal.Questions.{greatest, mirrored, number_question, question_of, relation_between, relation_of, relation_with_number};

use crate::sites::site::Site;
use treecode::{ExpressionForm, ExpressionNumber};
use trees::{BinaryOperator, ScalarType};

/// A question about two operands.
#[derive(Clone, Copy)]
pub enum Question {
    /// Whether the left one is below the right one.
    LeftBelow,
    /// Whether the right one is below the left one.
    RightBelow,
    /// Whether they are equal.
    Equal,
}

/// A question about an operand and a number.
#[derive(Clone, Copy)]
pub enum NumberQuestion {
    /// Nothing: the answer is no.
    Never,
    /// Whether it is below the number, which is not 0.
    Below(u16),
    /// Whether it is the number.
    Is(u16),
}

/// Two operands of one type, and the question about them.
#[derive(Clone, Copy)]
pub struct Comparison {
    pub operands: ScalarType,
    pub left: ExpressionNumber,
    pub right: ExpressionNumber,
    pub question: Question,
}

/// The question of a relation.
#[derive(Clone, Copy)]
pub enum Inquiry {
    /// One about two operands that are not numbers.
    Between(Comparison),
    /// One about an operand and a number.
    WithNumber {
        operand: ExpressionNumber,
        scalar: ScalarType,
        question: NumberQuestion,
    },
}

/// The question of a relation, and whether the relation holds if the answer is yes.
#[derive(Clone, Copy)]
pub struct Relation {
    pub inquiry: Inquiry,
    pub holds_if: bool,
}

// The question of a relational operator, and whether the relation holds if the answer is yes.
fn question_of(operator: BinaryOperator) -> Option<(Question, bool)>
    ensures { result ≡ question_of operator }
{
    match operator {
        BinaryOperator::Less => Some((Question::LeftBelow, true)),
        BinaryOperator::GreaterOrEqual => Some((Question::LeftBelow, false)),
        BinaryOperator::Greater => Some((Question::RightBelow, true)),
        BinaryOperator::LessOrEqual => Some((Question::RightBelow, false)),
        BinaryOperator::Equal => Some((Question::Equal, true)),
        BinaryOperator::Unequal => Some((Question::Equal, false)),
        _ => None,
    }
}

// The question with its operands exchanged.
fn mirrored(question: Question) -> Question
    ensures { result ≡ mirrored question }
{
    match question {
        Question::LeftBelow => Question::RightBelow,
        Question::RightBelow => Question::LeftBelow,
        Question::Equal => Question::Equal,
    }
}

// The greatest number of a type.
fn greatest(scalar: ScalarType) -> u16
    ensures { result ≡ greatest scalar }
{
    match scalar {
        ScalarType::Byte => 255,
        ScalarType::Address => 65535,
    }
}

// The question about an operand and a number on its right, and whether its answer is the same. An operand is above the
// number if it is not below the number plus 1.
fn number_question(question: Question, number: u16, scalar: ScalarType) -> (NumberQuestion, bool)
    ensures { result ≡ number_question question number scalar }
{
    match question {
        Question::Equal => (NumberQuestion::Is(number), true),
        Question::LeftBelow if number == 0 => (NumberQuestion::Never, true),
        Question::LeftBelow => (NumberQuestion::Below(number), true),
        Question::RightBelow if number >= greatest(scalar) => (NumberQuestion::Never, true),
        Question::RightBelow => (NumberQuestion::Below(number.saturating_add(1)), false),
    }
}

// The relation of an operand and a number on its right.
fn relation_with_number(
    operand: ExpressionNumber,
    number: u16,
    comparison: &Comparison,
    question: Question,
    holds_if: bool,
) -> Relation
    ensures { result ≡ relation_with_number operand number comparison.now question holds_if }
{
    let scalar = comparison.operands;
    let (question, same) = number_question(question, number, scalar);
    Relation {
        inquiry: Inquiry::WithNumber {
            operand,
            scalar,
            question,
        },
        holds_if: holds_if == same,
    }
}

// The relation of two operands. It holds if the answer is `holds_if`.
#[tactic(auto, unfolding(crate::specs::internal::Questions::relation_between))]
fn relation_between(site: &Site<'_>, comparison: &Comparison, holds_if: bool) -> Relation
    ensures { result ≡ relation_between site.now comparison.now holds_if }
{
    let question = comparison.question;
    if let Some(number) = site.number(comparison.right) {
        return relation_with_number(comparison.left, number, comparison, question, holds_if);
    }
    if let Some(number) = site.number(comparison.left) {
        let question = mirrored(question);
        return relation_with_number(comparison.right, number, comparison, question, holds_if);
    }
    Relation {
        inquiry: Inquiry::Between(*comparison),
        holds_if,
    }
}

/// The relation that an expression stands for, if any.
#[tactic(auto, unfolding(crate::specs::internal::Questions::relation_of))]
pub fn relation_of(site: &Site<'_>, number: ExpressionNumber) -> Option<Relation>
    ensures { result ≡ relation_of site.now number }
{
    let Some(expression) = site.expression(number) else {
        return None;
    };
    let ExpressionForm::Binary {
        operands,
        operator,
        left,
        right,
    } = expression.form
    else {
        return None;
    };
    match question_of(operator) {
        Some((question, holds_if)) => Some(relation_between(
            site,
            &Comparison {
                operands,
                left,
                right,
                question,
            },
            holds_if,
        )),
        None => None,
    }
}
