//! Code that puts two words into HL and DE.

ghost use Rattle.std.specs.Prelude.{◌≡◌, IfOk, OnOk};
ghost use Rattle.steps8080.specs.internal.Step.{Adds};
ghost use Rattle.operands8080.specs.internal.Pairs.{any_order, choices_of, form_steps, is_free_byte, left_in_hl, order_of, pair_form, pair_in_order_steps, pair_order, pair_order_by, pair_steps, right_in_hl, with_byte_steps, with_exchange_steps, with_known_steps, with_stack_steps};

use asm8080::WordForm;
use isa8080::{Instr, Pair, Register, StackPair};
use std::alloc::AllocError;
use steps8080::{Site, Steps, Task, copy, set};
use treecode::{ExpressionNumber, Place};

/// The operand in HL. The other one is in DE.
#[derive(Clone, Copy)]
pub enum PairOrder {
    LeftInHl,
    RightInHl,
}

/// The ways to put two operands into HL and DE.
#[derive(Clone, Copy)]
pub enum PairForm {
    /// Puts the left one into HL, then the right one, a known word, into DE.
    RightKnown(Place),
    /// Puts the right one into HL, then the left one, a known word, into DE.
    LeftKnown(Place),
    /// Evaluates the left one, moves it to DE, then evaluates the right one.
    RightKeeps,
    /// Evaluates the right one, moves it to DE, then evaluates the left one.
    LeftKeeps,
    /// Evaluates the left one, then puts the right one, a byte, through A into DE.
    RightFree,
    /// Evaluates the right one, then puts the left one, a byte, through A into DE.
    LeftFree,
    /// Evaluates the left one, pushes it, then evaluates the right one.
    Pushed,
}

/// The choices for two operands that are not known.
#[derive(Clone, Copy)]
pub struct Choices {
    /// The code of the right one keeps DE.
    pub right_keeps: bool,
    /// The code of the left one keeps DE, and it may come second.
    pub left_keeps: bool,
    /// The right one is a byte, and its code changes only A.
    pub right_is_free: bool,
    /// The left one is a byte, its code changes only A, and it may come second.
    pub left_is_free: bool,
    /// HL holds the left one.
    pub left_is_in_hl: bool,
    pub right_is_in_hl: bool,
}

// Whether an operand is a byte that code can put into A without changing anything but A and the flags.
fn is_free_byte(site: &Site<'_>, number: ExpressionNumber) -> bool
    ensures { result ≡ is_free_byte site.now number }
{
    site.fits_byte(number) && site.is_free(number)
}

// The choices for two operands.
fn choices_of(site: &Site<'_>, left: ExpressionNumber, right: ExpressionNumber) -> Choices
    ensures { result ≡ choices_of site.now left right }
{
    let may_exchange = site.may_exchange(left, right);
    Choices {
        right_keeps: site.keeps(right).de,
        left_keeps: may_exchange && site.keeps(left).de,
        right_is_free: is_free_byte(site, right),
        left_is_free: may_exchange && is_free_byte(site, left),
        left_is_in_hl: site.is_word_in_hl(left),
        right_is_in_hl: site.is_word_in_hl(right),
    }
}

impl Choices {
    // The form if either order will do.
    fn any_order(&self) -> PairForm
        ensures { result ≡ any_order self.now }
    {
        if self.left_keeps && self.right_is_in_hl {
            PairForm::LeftKeeps
        } else if self.right_keeps {
            PairForm::RightKeeps
        } else if self.left_keeps {
            PairForm::LeftKeeps
        } else if self.right_is_free {
            PairForm::RightFree
        } else if self.left_is_free {
            PairForm::LeftFree
        } else {
            PairForm::Pushed
        }
    }

    // The form if the left operand is wanted in HL.
    fn left_in_hl(&self) -> PairForm
        ensures { result ≡ left_in_hl self.now }
    {
        if self.left_is_in_hl && self.right_is_free {
            PairForm::RightFree
        } else if self.left_is_in_hl && self.right_keeps {
            PairForm::RightKeeps
        } else if self.left_keeps {
            PairForm::LeftKeeps
        } else if self.right_is_free {
            PairForm::RightFree
        } else {
            self.any_order()
        }
    }

    // The form if the right operand is wanted in HL.
    fn right_in_hl(&self) -> PairForm
        ensures { result ≡ right_in_hl self.now }
    {
        if self.right_is_in_hl && self.left_is_free {
            PairForm::LeftFree
        } else if self.right_is_in_hl && self.left_keeps {
            PairForm::LeftKeeps
        } else if self.right_keeps {
            PairForm::RightKeeps
        } else if self.left_is_free {
            PairForm::LeftFree
        } else {
            self.any_order()
        }
    }
}

// The form in which two operands are put into HL and DE.
fn form_of(
    site: &Site<'_>,
    left: ExpressionNumber,
    right: ExpressionNumber,
    wish: Option<PairOrder>,
) -> PairForm
    ensures { result ≡ pair_form site.now left right wish }
{
    if let Some(place) = site.known(right) {
        return PairForm::RightKnown(place);
    }
    if let Some(place) = site.known(left) {
        return PairForm::LeftKnown(place);
    }
    let choices = choices_of(site, left, right);
    match wish {
        Some(PairOrder::LeftInHl) => choices.left_in_hl(),
        Some(PairOrder::RightInHl) => choices.right_in_hl(),
        None => choices.any_order(),
    }
}

// Puts the first one into HL, then a known word into DE.
fn plan_with_known(
    first: ExpressionNumber,
    known: Place,
    pushed: u16,
    steps: &mut Steps,
) -> Result<(), AllocError>
    ensures { OnOk result (Adds steps.old steps.new (with_known_steps first known pushed)) }
{
    steps.part(Task::Word(first), pushed)?;
    steps.word(WordForm::LoadPair(Pair::De), known)
}

// Puts the first one into DE, then the second one into HL; the code of the second one keeps DE.
fn plan_with_exchange(
    first: ExpressionNumber,
    second: ExpressionNumber,
    pushed: u16,
    steps: &mut Steps,
) -> Result<(), AllocError>
    ensures { OnOk result (Adds steps.old steps.new (with_exchange_steps first second pushed)) }
{
    steps.part(Task::Word(first), pushed)?;
    steps.plain(Instr::Xchg)?;
    steps.part(Task::Word(second), pushed)
}

// Puts the first one into HL, then the second one, a byte with code that changes only A, into DE.
fn plan_with_byte(
    first: ExpressionNumber,
    second: ExpressionNumber,
    pushed: u16,
    steps: &mut Steps,
) -> Result<(), AllocError>
    ensures { OnOk result (Adds steps.old steps.new (with_byte_steps first second pushed)) }
{
    steps.part(Task::Word(first), pushed)?;
    steps.part(Task::Byte(second), pushed)?;
    steps.all(&[copy(Register::E, Register::A), set(Register::D, 0)])
}

// Pushes the first one, puts the second one into HL, and pops the first one into DE.
fn plan_with_stack(
    first: ExpressionNumber,
    second: ExpressionNumber,
    pushed: u16,
    steps: &mut Steps,
) -> Result<(), AllocError>
    ensures { OnOk result (Adds steps.old steps.new (with_stack_steps first second pushed)) }
{
    steps.part(Task::Word(first), pushed)?;
    steps.plain(Instr::Push(StackPair::StackHl))?;
    steps.part(Task::Word(second), pushed.wrapping_add(2))?;
    steps.plain(Instr::Pop(StackPair::StackDe))
}

// Puts two operands into HL and DE in a form.
fn plan_form(
    form: PairForm,
    left: ExpressionNumber,
    right: ExpressionNumber,
    pushed: u16,
    steps: &mut Steps,
) -> Result<PairOrder, AllocError>
    ensures adds { OnOk result (Adds steps.old steps.new (form_steps form left right pushed)) }
    ensures order { IfOk result (λ order. order ≡ order_of form) }
{
    match form {
        PairForm::RightKnown(place) => plan_with_known(left, place, pushed, steps)?,
        PairForm::LeftKnown(place) => plan_with_known(right, place, pushed, steps)?,
        PairForm::RightKeeps => plan_with_exchange(left, right, pushed, steps)?,
        PairForm::LeftKeeps => plan_with_exchange(right, left, pushed, steps)?,
        PairForm::RightFree => plan_with_byte(left, right, pushed, steps)?,
        PairForm::LeftFree => plan_with_byte(right, left, pushed, steps)?,
        PairForm::Pushed => plan_with_stack(left, right, pushed, steps)?,
    }
    Ok(form.order())
}

impl PairForm {
    // The operand that is in HL after this form.
    fn order(self) -> PairOrder
        ensures { result ≡ order_of self }
    {
        match self {
            PairForm::RightKnown(_) | PairForm::LeftKeeps | PairForm::RightFree => {
                PairOrder::LeftInHl
            }
            PairForm::LeftKnown(_) | PairForm::RightKeeps | PairForm::LeftFree | PairForm::Pushed =>
                PairOrder::RightInHl,
        }
    }
}

/// Puts two operands into HL and DE, in the wanted order if one is given.
pub fn plan_pair_in_order(
    site: &Site<'_>,
    left: ExpressionNumber,
    right: ExpressionNumber,
    wish: Option<PairOrder>,
    pushed: u16,
    steps: &mut Steps,
) -> Result<PairOrder, AllocError>
    ensures adds { OnOk result (Adds steps.old steps.new
        (pair_in_order_steps site.now left right wish pushed)) }
    ensures order { IfOk result (λ order. order ≡ pair_order_by site.now left right wish) }
{
    let form = form_of(site, left, right, wish);
    let order = plan_form(form, left, right, pushed, steps)?;
    match wish {
        Some(wish) => {
            if wish != order {
                steps.plain(Instr::Xchg)?;
            }
            Ok(wish)
        }
        None => Ok(order),
    }
}

/// Puts two operands into HL and DE, the left one into HL if that is wanted.
pub fn plan_pair(
    site: &Site<'_>,
    left: ExpressionNumber,
    right: ExpressionNumber,
    wants_left_in_hl: bool,
    pushed: u16,
    steps: &mut Steps,
) -> Result<PairOrder, AllocError>
    ensures adds { OnOk result (Adds steps.old steps.new
        (pair_steps site.now left right wants_left_in_hl pushed)) }
    ensures order { IfOk result (λ order. order ≡ pair_order site.now left right wants_left_in_hl) }
{
    let wish = if wants_left_in_hl {
        Some(PairOrder::LeftInHl)
    } else {
        None
    };
    plan_pair_in_order(site, left, right, wish, pushed, steps)
}
