//! LOW, HIGH and DOUBLE, and what each makes of the two bytes of its operand.

ghost use Rattle.std.specs.Prelude.{◌≡◌};
ghost use Rattle.trees.specs.Functions.{type_of_function};
ghost use Rattle.trees.specs.internal.Functions.{byte_taken};

use crate::declaration::ScalarType;

/// The built-in functions LOW, HIGH and DOUBLE, each of one value.
#[derive(Clone, Copy, PartialEq, Eq)]
pub enum UnaryFunction {
    /// The low byte.
    Low,
    /// The high byte; 0 of a BYTE.
    High,
    /// The value as an ADDRESS.
    Double,
}

/// One of the two bytes of a value. The high byte of a BYTE is 0.
#[derive(Clone, Copy)]
pub enum ByteOfValue {
    LowByte,
    HighByte,
}

impl UnaryFunction {
    /// The type of its result.
    pub fn scalar(&self) -> ScalarType
        ensures { result ≡ type_of_function self.now }
    {
        match self {
            UnaryFunction::Low | UnaryFunction::High => ScalarType::Byte,
            UnaryFunction::Double => ScalarType::Address,
        }
    }

    /// The byte of its operand that is the low byte of its result.
    pub fn byte_taken(&self) -> ByteOfValue
        ensures { result ≡ byte_taken self.now }
    {
        match self {
            UnaryFunction::Low | UnaryFunction::Double => ByteOfValue::LowByte,
            UnaryFunction::High => ByteOfValue::HighByte,
        }
    }
}
