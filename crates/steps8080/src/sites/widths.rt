//! Values that fit a byte, and values that are in a register already.

ghost use Rattle.std.specs.Prelude.{◌≡◌};
ghost use Rattle.steps8080.specs.internal.Widths.{direct_word, fits_byte, form_fits_byte, high_byte_in_memory, is_byte_in_register, is_number_below, is_word_in_hl, low_number, operand_in_memory, power, power_of_two, result_fits_byte, shift_fits_byte, unknown, word_in_memory};

use crate::sites::queries::reference_after;
use crate::sites::site::Site;
use crate::{Facts, before, is_at, low};
use treecode::{Expression, ExpressionForm, ExpressionNumber, Location, Place, Reference};
use trees::{BinaryOperator, ScalarType};
use typed_trees::ShiftFunction;

/// The exponent of a power of 2, if the number is one.
#[tactic(auto, unfolding(crate::specs::internal::Widths::power_of_two))]
pub fn power_of_two(number: u16) -> Option<u16>
    ensures { result ≡ power_of_two number }
{
    for power in 0_u16..16 {
        if number == 1_u16 << power {
            return Some(power);
        }
    }
    None
}

impl<'a> Site<'a> {
    // Whether a value is known to be a number below `bound`.
    #[tactic(auto, unfolding(crate::specs::internal::Widths::is_number_below))]
    fn is_number_below(&self, number: ExpressionNumber, bound: u16) -> bool
        ensures { result ≡ is_number_below self.now number bound }
    {
        match self.number(number) {
            Some(value) => value < bound,
            None => false,
        }
    }

    // Whether one operand shows that an operator on ADDRESS operands gives a value below 256.
    #[tactic(auto, unfolding(crate::specs::internal::Widths::result_fits_byte))]
    fn result_fits_byte(
        &self,
        operator: BinaryOperator,
        left: ExpressionNumber,
        right: ExpressionNumber,
    ) -> bool
        ensures { result ≡ result_fits_byte self.now operator left right }
    {
        match operator {
            BinaryOperator::And => {
                self.is_number_below(left, 256) || self.is_number_below(right, 256)
            }
            BinaryOperator::Modulo => self.is_number_below(right, 257),
            _ => false,
        }
    }

    // Whether its count shows that a shift of an ADDRESS gives a value below 256.
    #[tactic(auto, unfolding(crate::specs::internal::Widths::shift_fits_byte))]
    fn shift_fits_byte(&self, function: ShiftFunction, count: ExpressionNumber) -> bool
        ensures { result ≡ shift_fits_byte self.now function count }
    {
        match (function, self.number(count)) {
            (ShiftFunction::ShiftRight, Some(count)) => count >= 8,
            _ => false,
        }
    }

    // Whether its form shows that an ADDRESS expression has a value below 256.
    #[tactic(auto, unfolding(crate::specs::internal::Widths::form_fits_byte))]
    fn form_fits_byte(&self, form: &ExpressionForm) -> bool
        ensures { result ≡ form_fits_byte self.now form.now }
    {
        match form {
            ExpressionForm::Conversion(inner)
            | ExpressionForm::Function {
                function: _,
                operand: inner,
            } => matches!(self.scalar(*inner), ScalarType::Byte),
            ExpressionForm::Binary {
                operands: _,
                operator,
                left,
                right,
            } => self.result_fits_byte(*operator, *left, *right),
            ExpressionForm::Shift {
                function,
                value: _,
                count,
            } => self.shift_fits_byte(*function, *count),
            _ => false,
        }
    }

    /// Whether its form shows that an expression has a value below 256, so that its low byte is the whole value.
    #[tactic(auto, unfolding(crate::specs::internal::Widths::fits_byte))]
    pub fn fits_byte(&self, number: ExpressionNumber) -> bool
        ensures { result ≡ fits_byte self.now number }
    {
        match self.expression(number) {
            Some(expression) => match expression.traits.scalar {
                ScalarType::Byte => true,
                ScalarType::Address => {
                    self.is_number_below(number, 256) || self.form_fits_byte(&expression.form)
                }
            },
            None => false,
        }
    }

    /// The part of memory that holds the value of an ADDRESS expression, if it is a reference.
    #[tactic(auto, unfolding(crate::specs::internal::Widths::word_in_memory))]
    pub fn word_in_memory(&self, number: ExpressionNumber) -> Option<Reference>
        ensures { result ≡ word_in_memory self.now number }
    {
        match self.expression(number) {
            Some(
                Expression {
                    form: ExpressionForm::Value(reference),
                    traits,
                },
            ) if matches!(traits.scalar, ScalarType::Address) => Some(reference),
            _ => None,
        }
    }

    /// The part of memory that holds the high byte of an ADDRESS expression, if it is a reference.
    #[tactic(auto, unfolding(crate::specs::internal::Widths::high_byte_in_memory))]
    pub fn high_byte_in_memory(&self, number: ExpressionNumber) -> Option<Reference>
        ensures { result ≡ high_byte_in_memory self.now number }
    {
        match self.word_in_memory(number) {
            Some(reference) => Some(reference_after(reference, 1)),
            None => None,
        }
    }

    /// The place in memory of the word that an expression refers to, if that place is known.
    #[tactic(auto, unfolding(crate::specs::internal::Widths::direct_word))]
    pub fn direct_word(&self, number: ExpressionNumber) -> Option<Place>
        ensures { result ≡ direct_word self.now number }
    {
        match self.word_in_memory(number) {
            Some(reference) => self.direct(&reference),
            None => None,
        }
    }

    /// The part of memory that holds the low byte of an expression, if the code for its address keeps A.
    #[tactic(auto, unfolding(crate::specs::internal::Widths::operand_in_memory))]
    pub fn operand_in_memory(&self, number: ExpressionNumber) -> Option<Reference>
        ensures { result ≡ operand_in_memory self.now number }
    {
        match self.memory(number) {
            Some(reference) => {
                if self.keeps_of_address(&reference).a {
                    Some(reference)
                } else {
                    None
                }
            }
            None => None,
        }
    }

    /// Whether HL holds the word that an expression refers to.
    #[tactic(auto, unfolding(crate::specs::internal::Widths::is_word_in_hl))]
    pub fn is_word_in_hl(&self, number: ExpressionNumber) -> bool
        ensures { result ≡ is_word_in_hl self.now number }
    {
        match self.word_in_memory(number) {
            Some(reference) => match self.location_of(&reference) {
                Some(location) => is_at(self.facts.word_in_hl, location),
                None => false,
            },
            None => false,
        }
    }

    /// Whether A, H or L holds the low byte of an expression.
    #[tactic(auto, unfolding(crate::specs::internal::Widths::is_byte_in_register))]
    pub fn is_byte_in_register(&self, number: ExpressionNumber) -> bool
        ensures { result ≡ is_byte_in_register self.now number }
    {
        match self.memory(number) {
            Some(reference) => match self.location_of(&reference) {
                Some(location) => self.facts.holds_byte(location),
                None => false,
            },
            None => false,
        }
    }

    /// The low byte of the value of an expression, if that is known as a number.
    #[tactic(auto, unfolding(crate::specs::internal::Widths::low_number))]
    pub fn low_number(&self, number: ExpressionNumber) -> Option<u8>
        ensures { result ≡ low_number self.now number }
    {
        match self.number(number) {
            Some(number) => Some(low(number)),
            None => None,
        }
    }

    /// The exponent, if the value of an expression is known as a power of 2.
    #[tactic(auto, unfolding(crate::specs::internal::Widths::power))]
    pub fn power(&self, number: ExpressionNumber) -> Option<u16>
        ensures { result ≡ power self.now number }
    {
        match self.number(number) {
            Some(number) => power_of_two(number),
            None => None,
        }
    }

    /// The same site without facts about the registers.
    pub fn unknown(&self) -> Site<'a>
        ensures { result ≡ unknown self.now }
    {
        Site {
            tree: self.tree,
            frame: self.frame,
            facts: Facts::none(),
        }
    }
}
