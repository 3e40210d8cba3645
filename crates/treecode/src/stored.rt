//! The compact form in which a module stores expressions.

ghost use Rattle.std.specs.Prelude.{◌≡◌};
ghost use Rattle.treecode.specs.declared.expression.ExpressionForm.TheVariants.{Assignment};
ghost use Rattle.treecode.specs.internal.Queries.{inside};
ghost use Rattle.treecode.specs.internal.Stored.{form_of, keeps_in, reference_of, subscript_of, traits_in};

use crate::expression::{Expression, ExpressionForm, ExpressionNumber};
use crate::lists::Range;
use crate::place::Place;
use crate::reference::{Reference, Subscript, Target};
use crate::traits::{Keeps, Traits};
use std::marker::Model;
use trees::{BinaryOperator, ByteOfValue, ScalarType, UnaryFunction, UnaryOperator};
use typed_trees::ShiftFunction;

/// A subscript, if any.
#[derive(Clone, Copy)]
pub(crate) enum StoredSubscript {
    Whole,
    Element {
        stride: u16,
        index: ExpressionNumber,
    },
}

/// An object, or a part of it.
#[derive(Clone, Copy)]
pub(crate) struct StoredReference {
    object: u32,
    subscript: StoredSubscript,
    offset: u16,
    member_subscript: StoredSubscript,
}

/// The form of an expression, with the fields of the target of an assignment in line.
#[derive(Clone, Copy)]
pub(crate) enum StoredForm {
    Number(u16),
    Value(StoredReference),
    Location(StoredReference),
    List(u16),
    Conversion(ExpressionNumber),
    /// An assignment to a scalar of the type `to`.
    Store {
        from: ScalarType,
        to: ScalarType,
        reference: StoredReference,
        value: ExpressionNumber,
    },
    /// An assignment to a port.
    Send {
        from: ScalarType,
        port: u8,
        value: ExpressionNumber,
    },
    Unary {
        operator: UnaryOperator,
        operand: ExpressionNumber,
    },
    Binary {
        operands: ScalarType,
        operator: BinaryOperator,
        left: ExpressionNumber,
        right: ExpressionNumber,
    },
    Call {
        procedure: u32,
        arguments: Range,
    },
    Function {
        function: UnaryFunction,
        operand: ExpressionNumber,
    },
    Shift {
        function: ShiftFunction,
        value: ExpressionNumber,
        count: ExpressionNumber,
    },
    Input(u8),
}

/// The registers that are kept.
#[derive(Clone, Copy)]
pub(crate) enum StoredKeeps {
    Neither,
    OnlyA,
    OnlyDe,
    Both,
}

/// The traits of an expression. Its value is `known` if `is_known`.
#[derive(Clone, Copy)]
pub(crate) struct StoredTraits {
    known: Place,
    height: u16,
    scalar: ScalarType,
    is_known: bool,
    is_quiet: bool,
    stores_nothing: bool,
    is_free: bool,
    keeps: StoredKeeps,
}

/// An expression in less memory.
#[derive(Drop)]
pub(crate) struct StoredExpression {
    form: StoredForm,
    traits: StoredTraits,
}

// A module has many expressions, so each must be small.
const _: () = prove!(size_of::<StoredExpression>() <= 48);

impl Model for StoredExpression {
    ghost use Rattle.treecode.specs.declared.expression.Expression.{Expression};
    ghost use Rattle.treecode.specs.internal.Stored.{form_of, traits_in};

    ghost Value = { Expression };

    ghost view = { λ stored. record { form = form_of stored.form; traits = traits_in stored.traits } };
}

impl StoredKeeps {
    fn of(keeps: Keeps) -> StoredKeeps
        ensures { keeps_in result ≡ keeps }
    {
        match (keeps.a, keeps.de) {
            (false, false) => StoredKeeps::Neither,
            (true, false) => StoredKeeps::OnlyA,
            (false, true) => StoredKeeps::OnlyDe,
            (true, true) => StoredKeeps::Both,
        }
    }

    fn keeps(self) -> Keeps
        ensures { result ≡ keeps_in self }
    {
        match self {
            StoredKeeps::Neither => Keeps {
                a: false,
                de: false,
            },
            StoredKeeps::OnlyA => Keeps { a: true, de: false },
            StoredKeeps::OnlyDe => Keeps { a: false, de: true },
            StoredKeeps::Both => Keeps { a: true, de: true },
        }
    }
}

impl StoredTraits {
    fn of(traits: Traits) -> StoredTraits
        ensures { traits_in result ≡ traits }
    {
        let (known, is_known) = match traits.known {
            Some(place) => (place, true),
            None => (Place::Number(0), false),
        };
        StoredTraits {
            known,
            height: traits.height,
            scalar: traits.scalar,
            is_known,
            is_quiet: traits.is_quiet,
            stores_nothing: traits.stores_nothing,
            is_free: traits.is_free,
            keeps: StoredKeeps::of(traits.keeps),
        }
    }

    fn traits(self) -> Traits
        ensures { result ≡ traits_in self }
    {
        Traits {
            known: if self.is_known {
                Some(self.known)
            } else {
                None
            },
            height: self.height,
            scalar: self.scalar,
            is_quiet: self.is_quiet,
            stores_nothing: self.stores_nothing,
            is_free: self.is_free,
            keeps: self.keeps.keeps(),
        }
    }
}

impl StoredSubscript {
    fn of(subscript: Option<Subscript>) -> StoredSubscript
        ensures { subscript_of result ≡ subscript }
    {
        match subscript {
            None => StoredSubscript::Whole,
            Some(Subscript { index, stride }) => StoredSubscript::Element { stride, index },
        }
    }

    fn subscript(self) -> Option<Subscript>
        ensures { result ≡ subscript_of self }
    {
        match self {
            StoredSubscript::Whole => None,
            StoredSubscript::Element { stride, index } => Some(Subscript { index, stride }),
        }
    }
}

impl StoredReference {
    fn of(reference: Reference) -> StoredReference
        ensures { reference_of result ≡ reference }
    {
        StoredReference {
            object: reference.object,
            subscript: StoredSubscript::of(reference.subscript),
            offset: reference.offset,
            member_subscript: StoredSubscript::of(reference.member_subscript),
        }
    }

    fn reference(self) -> Reference
        ensures { result ≡ reference_of self }
    {
        Reference {
            object: self.object,
            subscript: self.subscript.subscript(),
            offset: self.offset,
            member_subscript: self.member_subscript.subscript(),
        }
    }
}

// The stored form of an assignment.
fn stored_assignment(target: Target, value: ExpressionNumber) -> StoredForm
    ensures { form_of result ≡ Assignment target value }
{
    match target {
        Target::Stored {
            from,
            to,
            reference,
        } => StoredForm::Store {
            from,
            to,
            reference: StoredReference::of(reference),
            value,
        },
        Target::Sent { from, port } => StoredForm::Send { from, port, value },
    }
}

impl StoredForm {
    fn of(form: ExpressionForm) -> StoredForm
        ensures { form_of result ≡ form }
    {
        match form {
            ExpressionForm::Number(number) => StoredForm::Number(number),
            ExpressionForm::Value(reference) => StoredForm::Value(StoredReference::of(reference)),
            ExpressionForm::Location(reference) => {
                StoredForm::Location(StoredReference::of(reference))
            }
            ExpressionForm::List(offset) => StoredForm::List(offset),
            ExpressionForm::Conversion(inner) => StoredForm::Conversion(inner),
            ExpressionForm::Assignment { target, value } => stored_assignment(target, value),
            ExpressionForm::Unary { operator, operand } => StoredForm::Unary { operator, operand },
            ExpressionForm::Binary {
                operands,
                operator,
                left,
                right,
            } => StoredForm::Binary {
                operands,
                operator,
                left,
                right,
            },
            ExpressionForm::Call {
                procedure,
                arguments,
            } => StoredForm::Call {
                procedure,
                arguments,
            },
            ExpressionForm::Function { function, operand } => {
                StoredForm::Function { function, operand }
            }
            ExpressionForm::Shift {
                function,
                value,
                count,
            } => StoredForm::Shift {
                function,
                value,
                count,
            },
            ExpressionForm::Input(port) => StoredForm::Input(port),
        }
    }

    fn form(self) -> ExpressionForm
        ensures { result ≡ form_of self }
    {
        match self {
            StoredForm::Number(number) => ExpressionForm::Number(number),
            StoredForm::Value(reference) => ExpressionForm::Value(reference.reference()),
            StoredForm::Location(reference) => ExpressionForm::Location(reference.reference()),
            StoredForm::List(offset) => ExpressionForm::List(offset),
            StoredForm::Conversion(inner) => ExpressionForm::Conversion(inner),
            StoredForm::Store {
                from,
                to,
                reference,
                value,
            } => ExpressionForm::Assignment {
                target: Target::Stored {
                    from,
                    to,
                    reference: reference.reference(),
                },
                value,
            },
            StoredForm::Send { from, port, value } => ExpressionForm::Assignment {
                target: Target::Sent { from, port },
                value,
            },
            StoredForm::Unary { operator, operand } => ExpressionForm::Unary { operator, operand },
            StoredForm::Binary {
                operands,
                operator,
                left,
                right,
            } => ExpressionForm::Binary {
                operands,
                operator,
                left,
                right,
            },
            StoredForm::Call {
                procedure,
                arguments,
            } => ExpressionForm::Call {
                procedure,
                arguments,
            },
            StoredForm::Function { function, operand } => {
                ExpressionForm::Function { function, operand }
            }
            StoredForm::Shift {
                function,
                value,
                count,
            } => ExpressionForm::Shift {
                function,
                value,
                count,
            },
            StoredForm::Input(port) => ExpressionForm::Input(port),
        }
    }
}

impl StoredExpression {
    /// Stores an expression.
    pub(crate) fn of(expression: Expression) -> StoredExpression
        ensures { result ≡ expression }
    {
        StoredExpression {
            form: StoredForm::of(expression.form),
            traits: StoredTraits::of(expression.traits),
        }
    }

    /// Restores the expression.
    pub(crate) fn expression(&self) -> Expression
        ensures { result ≡ self.now }
    {
        Expression {
            form: self.form.form(),
            traits: self.traits.traits(),
        }
    }

    /// The operand of a conversion, or of a function that takes its low byte; else the number of the expression itself.
    pub(crate) fn same_low_byte(&self, number: ExpressionNumber) -> ExpressionNumber
        ensures { result ≡ inside number self.now.form }
    {
        match self.form {
            StoredForm::Conversion(inner) => inner,
            StoredForm::Function { function, operand } => match function.byte_taken() {
                ByteOfValue::LowByte => operand,
                ByteOfValue::HighByte => number,
            },
            _ => number,
        }
    }

    /// The traits of the expression.
    pub(crate) fn traits(&self) -> Traits
        ensures { result ≡ self.now.traits }
    {
        self.traits.traits()
    }
}
