//! Queries of a site about the tree, each in O(1).

ghost use Rattle.std.specs.Prelude.{◌≡◌};
ghost use Rattle.steps8080.specs.internal.Queries.{are_same, base_after, base_of, direct, high_in_memory, is_at_hl, is_free, is_quiet, keeps, keeps_of_address, known, located, location_of, location_of_byte, may_exchange, memory, number as number_of, plain_in_memory, reference_after, same_low_byte, split, split_computed, split_sum, stores_nothing};

use crate::sites::site::Site;
use treecode::{
    Expression, ExpressionForm, ExpressionNumber, Home, Keeps, Location, Place, Reference,
    Subscript, keeps_of_address,
};
use trees::{BinaryOperator, ByteOfValue, ScalarType};

/// The base from which the address of an object or a part of it counts.
#[derive(Clone, Copy)]
pub enum Base {
    /// A known place in memory.
    Static(Place),
    /// `offset` bytes, modulo 65536, after the address that a scalar holds.
    Based { pointer: Location, offset: u16 },
    /// `offset` bytes after the start of a variable or parameter in the frame.
    Frame { variable: u16, offset: u16 },
}

/// The address of an object or a part of it: its base, plus each computed subscript times its stride.
#[derive(Clone, Copy)]
pub struct Located {
    pub base: Base,
    pub first: Option<Subscript>,
    pub second: Option<Subscript>,
}

/// A subscript, split into its computed part and the known number of bytes that it adds.
#[derive(Clone, Copy)]
pub struct Split {
    pub computed: Option<Subscript>,
    pub offset: u16,
}

impl Base {
    // The base `distance` bytes further on, modulo 65536.
    fn after(self, distance: u16) -> Base
        ensures { result ≡ base_after self distance }
    {
        match self {
            Base::Static(place) => Base::Static(place.after(distance)),
            Base::Based { pointer, offset } => Base::Based {
                pointer,
                offset: offset.wrapping_add(distance),
            },
            Base::Frame { variable, offset } => Base::Frame {
                variable,
                offset: offset.wrapping_add(distance),
            },
        }
    }
}

// The base of an object.
fn base_of(home: Home) -> Base
    ensures { result ≡ base_of home }
{
    match home {
        Home::Static(place) => Base::Static(place),
        Home::Based(pointer) => Base::Based { pointer, offset: 0 },
        Home::Frame(variable) => Base::Frame {
            variable,
            offset: 0,
        },
    }
}

// Whether both locations are there, and are the same.
fn same_location(first: Option<Location>, second: Option<Location>) -> bool
    ensures { result ≡ are_same first second }
{
    match (first, second) {
        (Some(first), Some(second)) => first == second,
        _ => false,
    }
}

/// A reference to the place `distance` bytes further on.
pub fn reference_after(reference: Reference, distance: u16) -> Reference
    ensures { result ≡ reference_after reference distance }
{
    Reference {
        offset: reference.offset.wrapping_add(distance),
        ..reference
    }
}

impl<'a> Site<'a> {
    /// The value of an expression, if it is known as a number or a relocatable address. It is exact in the type of the
    /// expression.
    pub fn known(&self, number: ExpressionNumber) -> Option<Place>
        ensures { result ≡ known self.now number }
    {
        self.tree.traits(number).known
    }

    /// The value of an expression, if it is known as a number.
    #[tactic(auto, unfolding(crate::specs::internal::Queries::number))]
    pub fn number(&self, number: ExpressionNumber) -> Option<u16>
        ensures { result ≡ number_of self.now number }
    {
        match self.known(number) {
            Some(place) => place.number(),
            None => None,
        }
    }

    /// Whether evaluating an expression changes nothing: it calls nothing, stores nothing and reads no port.
    pub fn is_quiet(&self, number: ExpressionNumber) -> bool
        ensures { result ≡ is_quiet self.now number }
    {
        self.tree.traits(number).is_quiet
    }

    /// Whether an expression calls nothing and stores nothing.
    pub fn stores_nothing(&self, number: ExpressionNumber) -> bool
        ensures { result ≡ stores_nothing self.now number }
    {
        self.tree.traits(number).stores_nothing
    }

    /// Whether the code that puts the low byte of an expression into A changes only A and the flags.
    pub fn is_free(&self, number: ExpressionNumber) -> bool
        ensures { result ≡ is_free self.now number }
    {
        self.tree.traits(number).is_free
    }

    /// The registers that the code putting the value of an expression into HL keeps.
    pub fn keeps(&self, number: ExpressionNumber) -> Keeps
        ensures { result ≡ keeps self.now number }
    {
        self.tree.traits(number).keeps
    }

    /// The registers that the code putting the address of a part of an object into HL keeps.
    #[tactic(auto, unfolding(crate::specs::internal::Queries::keeps_of_address))]
    pub fn keeps_of_address(&self, reference: &Reference) -> Keeps
        ensures { result ≡ keeps_of_address self.now reference.now }
    {
        keeps_of_address(self.tree, reference)
    }

    /// Whether the second of two operands may be evaluated first without a difference: the first is known, or it
    /// changes nothing and the second stores nothing.
    #[tactic(auto, unfolding(crate::specs::internal::Queries::may_exchange))]
    pub fn may_exchange(&self, left: ExpressionNumber, right: ExpressionNumber) -> bool
        ensures { result ≡ may_exchange self.now left right }
    {
        self.known(left).is_some() || self.is_quiet(left) && self.stores_nothing(right)
    }

    // Splits a subscript that is the sum or difference of a computed ADDRESS and a number.
    fn split_sum(
        &self,
        subscript: Subscript,
        operator: BinaryOperator,
        right: u16,
        left: ExpressionNumber,
    ) -> Option<Split>
        ensures { result ≡ split_sum subscript operator right left }
    {
        let distance = right.wrapping_mul(subscript.stride);
        let offset = match operator {
            BinaryOperator::Add => distance,
            BinaryOperator::Subtract => 0_u16.wrapping_sub(distance),
            _ => return None,
        };
        Some(Split {
            computed: Some(Subscript {
                index: left,
                stride: subscript.stride,
            }),
            offset,
        })
    }

    // Splits a computed subscript into its computed and its known part.
    #[tactic(auto, unfolding(crate::specs::internal::Queries::split_computed))]
    fn split_computed(&self, subscript: Subscript) -> Split
        ensures { result ≡ split_computed self.now subscript }
    {
        let whole = Split {
            computed: Some(subscript),
            offset: 0,
        };
        let Some(expression) = self.expression(subscript.index) else {
            return whole;
        };
        let ExpressionForm::Binary {
            operands: ScalarType::Address,
            operator,
            left,
            right,
        } = expression.form
        else {
            return whole;
        };
        let split = match self.number(right) {
            Some(right) => self.split_sum(subscript, operator, right, left),
            None => None,
        };
        match split {
            Some(split) => split,
            None => whole,
        }
    }

    // Splits a subscript, if there is one. Known are a number, and a number that is added to an ADDRESS or subtracted
    // from it.
    #[tactic(auto, unfolding(crate::specs::internal::Queries::split))]
    fn split(&self, subscript: Option<Subscript>) -> Split
        ensures { result ≡ split self.now subscript }
    {
        let Some(subscript) = subscript else {
            return Split {
                computed: None,
                offset: 0,
            };
        };
        match self.number(subscript.index) {
            Some(index) => Split {
                computed: None,
                offset: index.wrapping_mul(subscript.stride),
            },
            None => self.split_computed(subscript),
        }
    }

    /// The parts of the address of an object or a part of it.
    #[tactic(auto, unfolding(crate::specs::internal::Queries::located))]
    pub fn located(&self, reference: &Reference) -> Located
        ensures { result ≡ located self.now reference.now }
    {
        let first = self.split(reference.subscript);
        let second = self.split(reference.member_subscript);
        let base = base_of(self.tree.home(reference.object))
            .after(reference.offset)
            .after(first.offset)
            .after(second.offset);
        match first.computed {
            Some(_) => Located {
                base,
                first: first.computed,
                second: second.computed,
            },
            None => Located {
                base,
                first: second.computed,
                second: None,
            },
        }
    }

    /// The location of an object or a part of it, if its address needs no base and no computed subscript.
    #[tactic(auto, unfolding(crate::specs::internal::Queries::location_of))]
    pub fn location_of(&self, reference: &Reference) -> Option<Location>
        ensures { result ≡ location_of self.now reference.now }
    {
        let located = self.located(reference);
        if located.first.is_some() {
            return None;
        }
        match located.base {
            Base::Static(place) => Some(Location::Static(place)),
            Base::Frame { variable, offset } => Some(Location::Frame { variable, offset }),
            Base::Based { .. } => None,
        }
    }

    /// The place in memory of an object or a part of it, if that place is known.
    #[tactic(auto, unfolding(crate::specs::internal::Queries::direct))]
    pub fn direct(&self, reference: &Reference) -> Option<Place>
        ensures { result ≡ direct self.now reference.now }
    {
        match self.location_of(reference) {
            Some(Location::Static(place)) => Some(place),
            Some(Location::Frame { .. }) | None => None,
        }
    }

    // The part of memory that holds the high byte of an expression, if any.
    #[tactic(auto, unfolding(crate::specs::internal::Queries::high_in_memory))]
    fn high_in_memory(&self, operand: ExpressionNumber) -> Option<Reference>
        ensures { result ≡ high_in_memory self.now operand }
    {
        match self.expression(operand) {
            Some(
                Expression {
                    form: ExpressionForm::Value(reference),
                    traits,
                },
            ) if matches!(traits.scalar, ScalarType::Address) => Some(reference_after(
                reference, 1,
            )),
            _ => None,
        }
    }

    // The part of memory that holds the low byte of an expression that is no conversion, and no function that takes the
    // low byte, if any.
    #[tactic(auto, unfolding(crate::specs::internal::Queries::plain_in_memory))]
    fn plain_in_memory(&self, number: ExpressionNumber) -> Option<Reference>
        ensures { result ≡ plain_in_memory self.now number }
    {
        match self.expression(number) {
            Some(expression) => match expression.form {
                ExpressionForm::Value(reference) => Some(reference),
                ExpressionForm::Function { function, operand } => match function.byte_taken() {
                    ByteOfValue::LowByte => None,
                    ByteOfValue::HighByte => self.high_in_memory(operand),
                },
                _ => None,
            },
            None => None,
        }
    }

    /// The operand of a conversion, or of a function that takes its low byte, which has the same low byte; else the
    /// expression itself.
    #[tactic(auto, using(crate::proofs::Kept::same_low_byte_is_kept))]
    pub fn same_low_byte(&self, number: ExpressionNumber) -> ExpressionNumber
        ensures { result ≡ same_low_byte self.now number }
    {
        self.tree.same_low_byte(number)
    }

    /// The part of memory that holds the low byte of an expression, if the expression is a reference, or a conversion or
    /// a function of one.
    #[tactic(auto, unfolding(crate::specs::internal::Queries::memory))]
    pub fn memory(&self, number: ExpressionNumber) -> Option<Reference>
        ensures { result ≡ memory self.now number }
    {
        let inner = self.same_low_byte(self.same_low_byte(number));
        self.plain_in_memory(inner)
    }

    // The location of the low byte of an expression in memory, if its address needs no base and no computed subscript.
    #[tactic(auto, unfolding(crate::specs::internal::Queries::location_of_byte))]
    fn location_of_byte(&self, number: ExpressionNumber) -> Option<Location>
        ensures { result ≡ location_of_byte self.now number }
    {
        match self.memory(number) {
            Some(reference) => self.location_of(&reference),
            None => None,
        }
    }

    /// Whether HL is known to hold the address of the low byte of an expression.
    #[tactic(auto, unfolding(crate::specs::internal::Queries::is_at_hl))]
    pub fn is_at_hl(&self, number: ExpressionNumber) -> bool
        ensures { result ≡ is_at_hl self.now number }
    {
        same_location(self.location_of_byte(number), self.facts.address_in_hl)
    }
}
