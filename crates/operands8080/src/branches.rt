//! Jumps on a condition.

ghost use Rattle.std.specs.Prelude.{◌≡◌, [], ◌∷◌, OnOk};
ghost use Rattle.steps8080.specs.internal.Step.{Adds, AddsWithLabels};
ghost use Rattle.operands8080.specs.internal.Branches.{branch_labels, branch_part, branch_steps, by_bit_steps, equality_labels, equality_steps, is_odd, joined_labels, joined_steps, known_branch_steps, opposite, opposite_condition, other_labels, other_steps, shape_of, shape_of_binary, shape_of_form, shape_of_junction, shape_with_number, where_flags_steps};

use crate::answers::{Purpose, Setting};
use crate::relations::{Outcome, plan_relation};
use crate::word_relations::{equality_of_words, plan_words};
use asm8080::WordForm;
use isa8080::{Condition, Instr};
use std::alloc::AllocError;
use steps8080::{Comparison, LabelNumber, Site, Steps, Task, relation_of};
use treecode::{ExpressionForm, ExpressionNumber};
use trees::{BinaryOperator, ByteOfValue, UnaryOperator};

/// A jump to a label if a condition holds (`sense`), or if it does not.
#[derive(Clone, Copy)]
pub struct Branch {
    pub label: LabelNumber,
    pub sense: bool,
    pub pushed: u16,
}

/// AND or OR, given by the answer of one operand that decides the whole.
#[derive(Clone, Copy)]
pub struct Junction {
    pub deciding: bool,
    pub left: ExpressionNumber,
    pub right: ExpressionNumber,
}

/// The source of the lowest bit of a condition.
#[derive(Clone, Copy)]
pub enum Shape {
    /// It is known.
    Known(bool),
    /// It equals that of another value.
    SameAs(ExpressionNumber),
    /// It is the negation of that of another value.
    Opposite(ExpressionNumber),
    /// It is this bit for every value.
    Whatever(ExpressionNumber, bool),
    /// AND or OR combines those of two operands. Evaluating the right one changes nothing.
    Joined(Junction),
    /// It has to be computed from the value.
    Other,
}

impl Branch {
    // The jump on the opposite condition.
    fn opposite(self) -> Branch
        ensures { result ≡ opposite self }
    {
        Branch {
            sense: !self.sense,
            ..self
        }
    }

    // Adds the jump on a condition with this sense.
    fn part(self, condition: ExpressionNumber, steps: &mut Steps) -> Result<(), AllocError>
        ensures { OnOk result (Adds steps.old steps.new (branch_part self condition ∷ [])) }
    {
        let Branch {
            label,
            sense,
            pushed,
        } = self;
        steps.part(
            Task::Branch {
                condition,
                label,
                sense,
            },
            pushed,
        )
    }

    // Adds the jump for a known answer.
    fn known(self, answer: bool, steps: &mut Steps) -> Result<(), AllocError>
        ensures { OnOk result (Adds steps.old steps.new (known_branch_steps self answer)) }
    {
        if answer == self.sense {
            steps.jump(WordForm::Jump, self.label)
        } else {
            Ok(())
        }
    }

    // Adds the jump for an answer that is yes if a condition of the flags holds.
    fn where_flags(self, condition: Condition, steps: &mut Steps) -> Result<(), AllocError>
        ensures { OnOk result (Adds steps.old steps.new (where_flags_steps self condition)) }
    {
        let wanted = if self.sense {
            condition
        } else {
            negated(condition)
        };
        steps.jump(WordForm::JumpWhere(wanted), self.label)
    }
}

// The condition that holds if the given one does not.
fn negated(condition: Condition) -> Condition
    ensures { result ≡ opposite_condition condition }
{
    match condition {
        Condition::NotZero => Condition::Zero,
        Condition::Zero => Condition::NotZero,
        Condition::NoCarry => Condition::Carry,
        Condition::Carry => Condition::NoCarry,
        Condition::ParityOdd => Condition::ParityEven,
        Condition::ParityEven => Condition::ParityOdd,
        Condition::Plus => Condition::Minus,
        Condition::Minus => Condition::Plus,
    }
}

// Whether the lowest bit of a number is 1.
fn is_odd(number: u16) -> bool
    ensures { result ≡ is_odd number }
{
    number % 2 == 1
}

// The lowest bit of AND or OR of a value and a number.
fn shape_with_number(operand: ExpressionNumber, number: u16, deciding: bool) -> Shape
    ensures { result ≡ shape_with_number operand number deciding }
{
    if is_odd(number) == deciding {
        Shape::Whatever(operand, deciding)
    } else {
        Shape::SameAs(operand)
    }
}

// The lowest bit of AND or OR.
fn shape_of_junction(site: &Site<'_>, junction: Junction) -> Shape
    ensures { result ≡ shape_of_junction site.now junction }
{
    let Junction {
        deciding,
        left,
        right,
    } = junction;
    if let Some(number) = site.number(right) {
        return shape_with_number(left, number, deciding);
    }
    if let Some(number) = site.number(left) {
        return shape_with_number(right, number, deciding);
    }
    if site.is_quiet(right) {
        Shape::Joined(junction)
    } else {
        Shape::Other
    }
}

// The lowest bit of an operator with two operands.
fn shape_of_binary(
    site: &Site<'_>,
    operator: BinaryOperator,
    left: ExpressionNumber,
    right: ExpressionNumber,
) -> Shape
    ensures { result ≡ shape_of_binary site.now operator left right }
{
    let deciding = match operator {
        BinaryOperator::And => false,
        BinaryOperator::Or => true,
        _ => return Shape::Other,
    };
    shape_of_junction(
        site,
        Junction {
            deciding,
            left,
            right,
        },
    )
}

// The lowest bit of an expression of this form.
fn shape_of_form(site: &Site<'_>, form: ExpressionForm) -> Shape
    ensures { result ≡ shape_of_form site.now form }
{
    match form {
        ExpressionForm::Conversion(inner) => Shape::SameAs(inner),
        ExpressionForm::Function { function, operand } => match function.byte_taken() {
            ByteOfValue::LowByte => Shape::SameAs(operand),
            ByteOfValue::HighByte => Shape::Other,
        },
        ExpressionForm::Unary {
            operator: UnaryOperator::Not,
            operand,
        } => Shape::Opposite(operand),
        ExpressionForm::Unary {
            operator: UnaryOperator::Negate,
            operand,
        } => Shape::SameAs(operand),
        ExpressionForm::Binary {
            operator,
            left,
            right,
            ..
        } => shape_of_binary(site, operator, left, right),
        _ => Shape::Other,
    }
}

// The lowest bit of an expression.
#[tactic(auto, unfolding(crate::specs::internal::Branches::shape_of))]
fn shape_of(site: &Site<'_>, condition: ExpressionNumber) -> Shape
    ensures { result ≡ shape_of site.now condition }
{
    if let Some(number) = site.number(condition) {
        return Shape::Known(is_odd(number));
    }
    match site.expression(condition) {
        Some(expression) => shape_of_form(site, expression.form),
        None => Shape::Other,
    }
}

// The steps that jump by two operands. If the left one decides, the right one is skipped.
fn plan_joined(junction: Junction, branch: Branch, steps: &mut Steps) -> Result<(), AllocError>
    ensures { OnOk result (AddsWithLabels steps.old steps.new (joined_labels junction branch)
        (joined_steps junction branch)) }
{
    let Junction {
        deciding,
        left,
        right,
    } = junction;
    if branch.sense == deciding {
        branch.part(left, steps)?;
        return branch.part(right, steps);
    }
    let past = steps.label();
    let passing = Branch {
        label: past,
        sense: deciding,
        ..branch
    };
    passing.part(left, steps)?;
    branch.part(right, steps)?;
    steps.mark(past)
}

// The steps that jump by the lowest bit of a value.
fn plan_by_bit(
    condition: ExpressionNumber,
    branch: Branch,
    steps: &mut Steps,
) -> Result<(), AllocError>
    ensures { OnOk result (Adds steps.old steps.new (by_bit_steps condition branch)) }
{
    steps.part(Task::Byte(condition), branch.pushed)?;
    steps.plain(Instr::Rrc)?;
    branch.where_flags(Condition::Carry, steps)
}

// The steps that jump if two ADDRESSes are equal, or if they are not. If the low bytes differ, the high ones are
// skipped. At each jump A is the difference, so nothing else is known of A there.
fn plan_equality(
    site: &Site<'_>,
    comparison: &Comparison,
    is_equal: bool,
    branch: Branch,
    steps: &mut Steps,
) -> Result<(), AllocError>
    ensures { OnOk result (AddsWithLabels steps.old steps.new (equality_labels is_equal)
        (equality_steps site.now comparison.now is_equal branch)) }
{
    let words = plan_words(site, comparison, branch.pushed, steps)?;
    words.plan_low_difference(steps)?;
    if !is_equal {
        steps.jump(WordForm::JumpWhere(Condition::NotZero), branch.label)?;
        words.plan_high_difference(steps)?;
        return steps.jump(WordForm::JumpWhere(Condition::NotZero), branch.label);
    }
    let past = steps.label();
    steps.jump(WordForm::JumpWhere(Condition::NotZero), past)?;
    words.plan_high_difference(steps)?;
    steps.jump(WordForm::JumpWhere(Condition::Zero), branch.label)?;
    steps.mark(past)
}

// The steps that jump by a relation, or by the lowest bit of a value that is not a relation.
fn plan_other(
    site: &Site<'_>,
    condition: ExpressionNumber,
    branch: Branch,
    steps: &mut Steps,
) -> Result<(), AllocError>
    ensures { OnOk result (AddsWithLabels steps.old steps.new (other_labels site.now condition branch)
        (other_steps site.now condition branch)) }
{
    let Some(relation) = relation_of(site, condition) else {
        return plan_by_bit(condition, branch, steps);
    };
    if let Some(words) = equality_of_words(site, &relation) {
        let is_equal = branch.sense == relation.holds_if;
        return plan_equality(site, &words, is_equal, branch, steps);
    }
    let setting = Setting {
        purpose: Purpose::Branch,
        pushed: branch.pushed,
    };
    match plan_relation(site, &relation, setting, steps)? {
        Outcome::Known(answer) => branch.known(answer, steps),
        Outcome::Where(condition) => branch.where_flags(condition, steps),
    }
}

/// The steps that jump to a label if the lowest bit of a value is 1 (`sense`) or 0 (not `sense`).
pub fn plan_branch(
    site: &Site<'_>,
    condition: ExpressionNumber,
    label: LabelNumber,
    sense: bool,
    pushed: u16,
    steps: &mut Steps,
) -> Result<(), AllocError>
    ensures { OnOk result (AddsWithLabels steps.old steps.new
        (branch_labels site.now condition label sense pushed)
        (branch_steps site.now condition label sense pushed)) }
{
    let branch = Branch {
        label,
        sense,
        pushed,
    };
    match shape_of(site, condition) {
        Shape::Known(answer) => branch.known(answer, steps),
        Shape::SameAs(inner) => branch.part(inner, steps),
        Shape::Opposite(inner) => branch.opposite().part(inner, steps),
        Shape::Whatever(operand, answer) => {
            steps.part(Task::Effects(operand), pushed)?;
            branch.known(answer, steps)
        }
        Shape::Joined(junction) => plan_joined(junction, branch, steps),
        Shape::Other => plan_other(site, condition, branch, steps),
    }
}
