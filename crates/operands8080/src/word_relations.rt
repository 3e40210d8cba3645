//! Relations of ADDRESSes.

ghost use Rattle.std.specs.Prelude.{◌≡◌, IfOk, OnOk};
ghost use Rattle.operands8080.specs.declared.answers.Answer.TheVariants.{Carry, Zero};
ghost use Rattle.steps8080.specs.internal.Step.{Adds};
ghost use Rattle.operands8080.specs.internal.ByteRelations.{answer_to};
ghost use Rattle.operands8080.specs.internal.WordRelations.{below_steps, difference_steps, equality_of_words, high_byte_steps, high_difference_steps, high_steps, left_apart, load_a_steps, low_difference_steps, low_steps, masked, masked_steps, operand_apart, other_word, place_apart, right_apart, with_pair_steps, with_place_steps, word_below_answer, word_below_steps, word_is_steps, word_is_zero_steps, word_number_answer, word_number_steps, word_relation_steps, word_taken_from, words_of, words_steps};

use crate::answers::{Answer, Setting, plan_known};
use crate::byte_relations::{plan_byte_number, plan_byte_relation, plan_number_in_a};
use crate::{PairOrder, plan_pair};
use asm8080::WordForm;
use isa8080::{Instr, Operation, Pair, Register};
use std::alloc::AllocError;
use steps8080::{
    Comparison, Inquiry, NumberQuestion, Question, Relation, Site, Steps, Task, copy, high, load,
    low, repeat, with_register,
};
use treecode::{ExpressionForm, ExpressionNumber, Place};
use trees::{BinaryOperator, ScalarType};

/// The two registers of a word.
#[derive(Clone, Copy)]
pub struct Word {
    pub low: Register,
    pub high: Register,
}

const IN_HL: Word = Word {
    low: Register::L,
    high: Register::H,
};

const IN_DE: Word = Word {
    low: Register::E,
    high: Register::D,
};

/// An operand that stays in memory, and the one that is put into HL.
#[derive(Clone, Copy)]
pub struct Apart {
    pub place: Place,
    pub other: ExpressionNumber,
}

/// Two words that are compared.
#[derive(Clone, Copy)]
pub enum Words {
    /// One is in memory at a place, the other one in HL.
    PlaceAndHl(Place),
    /// One is in DE, the other one in HL.
    DeAndHl,
}

// The ADDRESS and the number, if an expression is the AND of both.
#[tactic(auto, unfolding(crate::specs::internal::WordRelations::masked))]
fn masked(site: &Site<'_>, number: ExpressionNumber) -> Option<(ExpressionNumber, u16)>
    ensures { result ≡ masked site.now number }
{
    let Some(expression) = site.expression(number) else {
        return None;
    };
    let ExpressionForm::Binary {
        operands: ScalarType::Address,
        operator: BinaryOperator::And,
        left,
        right,
    } = expression.form
    else {
        return None;
    };
    match (site.number(left), site.number(right)) {
        (_, Some(mask)) => Some((left, mask)),
        (Some(mask), None) => Some((right, mask)),
        (None, None) => None,
    }
}

// Adds a load of the byte at a place into A.
fn load_a(place: Place, steps: &mut Steps) -> Result<(), AllocError>
    ensures { OnOk result (Adds steps.old steps.new (load_a_steps place)) }
{
    steps.word(WordForm::LoadA, place)
}

// The steps that put the high byte of an ADDRESS into A.
#[tactic(auto, using(std::proofs::lemmas::List::append_assoc), unfolding(crate::specs::internal::WordRelations::high_byte_steps))]
fn plan_high_byte(
    site: &Site<'_>,
    number: ExpressionNumber,
    pushed: u16,
    steps: &mut Steps,
) -> Result<(), AllocError>
    ensures { OnOk result (Adds steps.old steps.new (high_byte_steps site.now number pushed)) }
{
    match site.high_byte_in_memory(number) {
        Some(reference) if !site.is_word_in_hl(number) => match site.direct(&reference) {
            Some(place) => load_a(place, steps),
            None => {
                steps.part(Task::Address(reference), pushed)?;
                steps.plain(load(Register::A))
            }
        },
        _ => {
            steps.part(Task::Word(number), pushed)?;
            steps.plain(copy(Register::A, Register::H))
        }
    }
}

// The steps that test whether HL is below a number.
fn plan_below(number: u16, steps: &mut Steps) -> Result<Answer, AllocError>
    ensures adds { OnOk result (Adds steps.old steps.new (below_steps number)) }
    ensures answer { IfOk result (λ answer. answer ≡ Carry) }
{
    steps.all(&[
        copy(Register::A, Register::L),
        Instr::AccumulateImmediate(Operation::Subtract, low(number)),
        copy(Register::A, Register::H),
        Instr::AccumulateImmediate(Operation::SubtractWithBorrow, high(number)),
    ])?;
    Ok(Answer::Carry)
}

// The steps that subtract a number from HL.
fn plan_difference(number: u16, steps: &mut Steps) -> Result<(), AllocError>
    ensures { OnOk result (Adds steps.old steps.new (difference_steps number)) }
{
    match 0_u16.wrapping_sub(number) {
        sum if sum < 4 => repeat(Instr::Inx(Pair::Hl), sum, steps),
        sum => steps.all(&[Instr::Lxi(Pair::De, sum), Instr::Dad(Pair::De)]),
    }
}

// The steps that test whether HL is a number.
fn plan_is(number: u16, steps: &mut Steps) -> Result<Answer, AllocError>
    ensures adds { OnOk result (Adds steps.old steps.new (word_is_steps number)) }
    ensures answer { IfOk result (λ answer. answer ≡ Zero) }
{
    let to_a = copy(Register::A, Register::L);
    let with_high = with_register(Operation::Or, Register::H);
    if number == 0 {
        steps.all(&[to_a, with_high])?;
    } else if number < 256 {
        let differs = Instr::AccumulateImmediate(Operation::ExclusiveOr, low(number));
        steps.all(&[to_a, differs, with_high])?;
    } else {
        plan_difference(number, steps)?;
        steps.all(&[to_a, with_high])?;
    }
    Ok(Answer::Zero)
}

// The steps that AND an ADDRESS with a mask that has bits in only one byte, and put that byte into A.
fn plan_masked(
    site: &Site<'_>,
    operand: ExpressionNumber,
    mask: u16,
    pushed: u16,
    steps: &mut Steps,
) -> Result<(), AllocError>
    ensures { OnOk result (Adds steps.old steps.new (masked_steps site.now operand mask pushed)) }
{
    if mask < 256 {
        steps.part(Task::Byte(operand), pushed)?;
        return steps.plain(Instr::AccumulateImmediate(Operation::And, low(mask)));
    }
    plan_high_byte(site, operand, pushed, steps)?;
    steps.plain(Instr::AccumulateImmediate(Operation::And, high(mask)))
}

// The steps that test whether an ADDRESS is 0.
#[tactic(auto, using(std::proofs::lemmas::List::append_assoc), unfolding(crate::specs::internal::WordRelations::word_is_zero_steps))]
fn plan_word_is_zero(
    site: &Site<'_>,
    operand: ExpressionNumber,
    setting: Setting,
    steps: &mut Steps,
) -> Result<Answer, AllocError>
    ensures adds { OnOk result (Adds steps.old steps.new (word_is_zero_steps site.now operand setting)) }
    ensures answer { IfOk result (λ answer. answer ≡ Zero) }
{
    match masked(site, operand) {
        Some((word, mask)) if mask < 256 || mask % 256 == 0 => {
            plan_masked(site, word, mask, setting.pushed, steps)?;
            plan_number_in_a(NumberQuestion::Is(0), setting, steps)
        }
        _ => {
            steps.part(Task::Word(operand), setting.pushed)?;
            plan_is(0, steps)
        }
    }
}

// The steps that test whether an ADDRESS is below a number that is not 0.
fn plan_word_below(
    site: &Site<'_>,
    operand: ExpressionNumber,
    number: u16,
    setting: Setting,
    steps: &mut Steps,
) -> Result<Answer, AllocError>
    ensures adds { OnOk result (Adds steps.old steps.new (word_below_steps site.now operand number setting)) }
    ensures answer { IfOk result (λ answer. answer ≡ word_below_answer number) }
{
    if number % 256 == 0 {
        plan_high_byte(site, operand, setting.pushed, steps)?;
        return plan_number_in_a(NumberQuestion::Below(number / 256), setting, steps);
    }
    steps.part(Task::Word(operand), setting.pushed)?;
    plan_below(number, steps)
}

/// The steps that answer a question about an ADDRESS and a number.
pub fn plan_word_number(
    site: &Site<'_>,
    operand: ExpressionNumber,
    question: NumberQuestion,
    setting: Setting,
    steps: &mut Steps,
) -> Result<Answer, AllocError>
    ensures adds { OnOk result (Adds steps.old steps.new
        (word_number_steps site.now operand question setting)) }
    ensures answer { IfOk result (λ answer. answer ≡ word_number_answer site.now operand question) }
{
    if site.fits_byte(operand) {
        return plan_byte_number(operand, question, setting, steps);
    }
    match question {
        NumberQuestion::Never => plan_known(operand, false, setting, steps),
        NumberQuestion::Below(1) | NumberQuestion::Is(0) => {
            plan_word_is_zero(site, operand, setting, steps)
        }
        NumberQuestion::Below(number) => plan_word_below(site, operand, number, setting, steps),
        NumberQuestion::Is(number) => {
            steps.part(Task::Word(operand), setting.pushed)?;
            plan_is(number, steps)
        }
    }
}

// The place of an ADDRESS in memory, if it has no computed part and the word is not in HL already.
fn place_apart(site: &Site<'_>, number: ExpressionNumber) -> Option<Place>
    ensures { result ≡ place_apart site.now number }
{
    if site.is_word_in_hl(number) {
        return None;
    }
    site.direct_word(number)
}

// The left operand as one that stays in memory, if possible.
fn left_apart(site: &Site<'_>, comparison: &Comparison) -> Option<Apart>
    ensures { result ≡ left_apart site.now comparison.now }
{
    if !site.may_exchange(comparison.left, comparison.right) {
        return None;
    }
    match place_apart(site, comparison.left) {
        Some(place) => Some(Apart {
            place,
            other: comparison.right,
        }),
        None => None,
    }
}

// The right operand as one that stays in memory, if possible.
fn right_apart(site: &Site<'_>, comparison: &Comparison) -> Option<Apart>
    ensures { result ≡ right_apart site.now comparison.now }
{
    match place_apart(site, comparison.right) {
        Some(place) => Some(Apart {
            place,
            other: comparison.left,
        }),
        None => None,
    }
}

// The operand that stays in memory, from which the other one is subtracted, if any.
#[tactic(auto, unfolding(crate::specs::internal::WordRelations::operand_apart))]
fn operand_apart(site: &Site<'_>, comparison: &Comparison) -> Option<Apart>
    ensures { result ≡ operand_apart site.now comparison.now }
{
    match comparison.question {
        Question::LeftBelow => left_apart(site, comparison),
        Question::RightBelow => right_apart(site, comparison),
        Question::Equal => match right_apart(site, comparison) {
            Some(apart) => Some(apart),
            None => left_apart(site, comparison),
        },
    }
}

// The steps that subtract HL from a word in memory. For equality, A is 0 if both are equal.
fn plan_with_place(
    apart: Apart,
    question: Question,
    pushed: u16,
    steps: &mut Steps,
) -> Result<Answer, AllocError>
    ensures adds { OnOk result (Adds steps.old steps.new (with_place_steps apart question pushed)) }
    ensures answer { IfOk result (λ answer. answer ≡ answer_to question) }
{
    steps.part(Task::Word(apart.other), pushed)?;
    load_a(apart.place, steps)?;
    plan_low(IN_HL, question, steps)?;
    load_a(apart.place.after(1), steps)?;
    plan_high(IN_HL, question, steps)
}

// The steps that subtract the low byte of a word from A.
fn plan_low(word: Word, question: Question, steps: &mut Steps) -> Result<(), AllocError>
    ensures { OnOk result (Adds steps.old steps.new (low_steps word question)) }
{
    steps.plain(with_register(Operation::Subtract, word.low))?;
    match question {
        Question::Equal => steps.plain(copy(Register::B, Register::A)),
        Question::LeftBelow | Question::RightBelow => Ok(()),
    }
}

// The steps that subtract the high byte of a word from A, after those for the low one.
fn plan_high(word: Word, question: Question, steps: &mut Steps) -> Result<Answer, AllocError>
    ensures adds { OnOk result (Adds steps.old steps.new (high_steps word question)) }
    ensures answer { IfOk result (λ answer. answer ≡ answer_to question) }
{
    steps.plain(with_register(Operation::SubtractWithBorrow, word.high))?;
    match question {
        Question::Equal => {
            steps.plain(with_register(Operation::Or, Register::B))?;
            Ok(Answer::Zero)
        }
        Question::LeftBelow | Question::RightBelow => Ok(Answer::Carry),
    }
}

// The registers of the operand from which the other one is subtracted.
fn word_taken_from(question: Question, order: PairOrder) -> Word
    ensures { result ≡ word_taken_from question order }
{
    match (question, order) {
        (Question::LeftBelow, PairOrder::LeftInHl) => IN_HL,
        (Question::LeftBelow, PairOrder::RightInHl) => IN_DE,
        (Question::RightBelow, PairOrder::LeftInHl) => IN_DE,
        (Question::RightBelow, PairOrder::RightInHl) => IN_HL,
        (Question::Equal, _) => IN_DE,
    }
}

// The registers of the other word.
fn other_word(word: Word) -> Word
    ensures { result ≡ other_word word }
{
    match word.low {
        Register::L => IN_DE,
        _ => IN_HL,
    }
}

// The steps that compare two operands, one in HL and the other in DE.
fn plan_with_pair(
    site: &Site<'_>,
    comparison: &Comparison,
    pushed: u16,
    steps: &mut Steps,
) -> Result<Answer, AllocError>
    ensures adds { OnOk result (Adds steps.old steps.new (with_pair_steps site.now comparison.now pushed)) }
    ensures answer { IfOk result (λ answer. answer ≡ answer_to comparison.now.question) }
{
    let question = comparison.question;
    let order = plan_pair(
        site,
        comparison.left,
        comparison.right,
        false,
        pushed,
        steps,
    )?;
    let from = word_taken_from(question, order);
    let taken = other_word(from);
    steps.plain(copy(Register::A, from.low))?;
    plan_low(taken, question, steps)?;
    steps.plain(copy(Register::A, from.high))?;
    plan_high(taken, question, steps)
}

/// The two ADDRESSes that a relation tests for equality, if that takes both their bytes.
#[tactic(auto, unfolding(crate::specs::internal::WordRelations::equality_of_words))]
pub(crate) fn equality_of_words(site: &Site<'_>, relation: &Relation) -> Option<Comparison>
    ensures { result ≡ equality_of_words site.now relation.now }
{
    let Inquiry::Between(comparison) = relation.inquiry else {
        return None;
    };
    let Comparison {
        operands: ScalarType::Address,
        left,
        right,
        question: Question::Equal,
    } = comparison
    else {
        return None;
    };
    if site.fits_byte(left) && site.fits_byte(right) {
        None
    } else {
        Some(comparison)
    }
}

/// The steps that put two ADDRESSes into places where their bytes can be compared.
pub(crate) fn plan_words(
    site: &Site<'_>,
    comparison: &Comparison,
    pushed: u16,
    steps: &mut Steps,
) -> Result<Words, AllocError>
    ensures adds { OnOk result (Adds steps.old steps.new (words_steps site.now comparison.now pushed)) }
    ensures words { IfOk result (λ words. words ≡ words_of site.now comparison.now) }
{
    match operand_apart(site, comparison) {
        Some(apart) => {
            steps.part(Task::Word(apart.other), pushed)?;
            Ok(Words::PlaceAndHl(apart.place))
        }
        None => {
            let _ = plan_pair(
                site,
                comparison.left,
                comparison.right,
                false,
                pushed,
                steps,
            )?;
            Ok(Words::DeAndHl)
        }
    }
}

impl Words {
    /// The steps that put the difference of the low bytes into A. The words are kept.
    pub(crate) fn plan_low_difference(self, steps: &mut Steps) -> Result<(), AllocError>
        ensures { OnOk result (Adds steps.old steps.new (low_difference_steps self)) }
    {
        match self {
            Words::PlaceAndHl(place) => load_a(place, steps)?,
            Words::DeAndHl => steps.plain(copy(Register::A, Register::E))?,
        }
        steps.plain(with_register(Operation::Subtract, Register::L))
    }

    /// The steps that put the difference of the high bytes into A. The words are kept.
    pub(crate) fn plan_high_difference(self, steps: &mut Steps) -> Result<(), AllocError>
        ensures { OnOk result (Adds steps.old steps.new (high_difference_steps self)) }
    {
        match self {
            Words::PlaceAndHl(place) => load_a(place.after(1), steps)?,
            Words::DeAndHl => steps.plain(copy(Register::A, Register::D))?,
        }
        steps.plain(with_register(Operation::Subtract, Register::H))
    }
}

/// The steps that answer a question about two ADDRESSes.
pub fn plan_word_relation(
    site: &Site<'_>,
    comparison: &Comparison,
    setting: Setting,
    steps: &mut Steps,
) -> Result<Answer, AllocError>
    ensures adds { OnOk result (Adds steps.old steps.new
        (word_relation_steps site.now comparison.now setting)) }
    ensures answer { IfOk result (λ answer. answer ≡ answer_to comparison.now.question) }
{
    if site.fits_byte(comparison.left) && site.fits_byte(comparison.right) {
        return plan_byte_relation(site, comparison, setting, steps);
    }
    match operand_apart(site, comparison) {
        Some(apart) => plan_with_place(apart, comparison.question, setting.pushed, steps),
        None => plan_with_pair(site, comparison, setting.pushed, steps),
    }
}
