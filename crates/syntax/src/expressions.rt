//! Expressions.

ghost use Rattle.std.specs.Prelude.{◌≡◌, ◌<◌, ◌≤◌, ◌+◌, suc, map, IfOk};
ghost use Rattle.grammar.specs.declared.TheConstants.{NESTING_LIMIT};
ghost use Rattle.syntax.specs.internal.Expressions.{arguments, member_after, constant_leaf, reference_leaf, unary_node, reference_after, reference, location, constant_list, located, assigned, assigned_value, closed, parenthesized, primary, operand, all_operators, expression, expression_less, next_operator, operator_on};
ghost use Rattle.grammar.specs.Forms.{expression_level};
ghost use Rattle.trees.specs.Trees.{ReferenceLeaf};
ghost use Rattle.syntax.specs.internal.Results.{Gives};
ghost use Rattle.syntax.specs.internal.Lists.{items};
ghost use Rattle.syntax.specs.internal.Measured.{measured_tree, measured_reference, measured_arguments, measured_items};
ghost use Rattle.syntax.specs.internal.Reader.{constant, name};

use crate::fault::Fault;
use crate::measured::{
    EXPRESSION_LEVEL, Measured, MeasuredArguments, MeasuredReference, NEGATION_LEVEL,
    PRIMARY_LEVEL, SIGN_LEVEL, left_level, level_of,
};
use crate::reader::Reader;
use failure::Failure;
use trees::{BinaryOperator, Constant, Identifier, UnaryOperator};
use words::{Mark, ReservedWord};

impl<'a> Reader<'a> {
    /// An expression at a level, of no more levels than the room.
    #[cycle(expression)]
    pub(crate) fn expression(&mut self, level: u8, room: u8) -> Result<Measured, Failure<Fault>>
        requires { room ≤ NESTING_LIMIT }
        ensures gives { Gives measured_tree result self.new (expression room level self.old) }
        ensures fits { IfOk result (λ found. found.height ≤ room) }
    {
        if room == 0 {
            return Err(self.too_deep());
        }
        let left = self.operand(level, room - 1)?;
        self.operators(level, room - 1, left)
    }

    // Operators that may stand at a level, with their right operands, after a left operand.
    #[cycle(expression)]
    fn operators(&mut self, level: u8, room: u8, left: Measured) -> Result<Measured, Failure<Fault>>
        requires room { room < NESTING_LIMIT }
        requires left { left.height ≤ room + 1 }
        ensures gives { Gives measured_tree result self.new
            (all_operators (expression room) (suc room) level (measured_tree left) self.old) }
        ensures fits { IfOk result (λ found. found.height ≤ room + 1) }
    {
        let mut left = left;
        'more: while let Some(operator) = self.operator_on(level, left.level) {
            if left.height > room {
                return Err(self.too_deep());
            }
            self.skip();
            let right = self.expression(level_of(operator) + 1, room)?;
            left = Measured::binary(self.alloc, operator, left, right)?;
        }
        Ok(left)
    }

    // The next word, if it is an operator that continues an expression of level `top`, where the whole
    // must stand at `level`.
    fn operator_on(&self, level: u8, top: u8) -> Option<BinaryOperator>
        ensures { result ≡ operator_on level top (next_operator self.now) }
    {
        let operator = self.next_operator()?;
        let at = level_of(operator);
        if level <= at && left_level(at) <= top {
            Some(operator)
        } else {
            None
        }
    }

    // An operator before its operand, or a primary, at a level.
    #[cycle(expression)]
    #[tactic(auto, unfolding(crate::specs::internal::Expressions::operand))]
    fn operand(&mut self, level: u8, room: u8) -> Result<Measured, Failure<Fault>>
        requires { room < NESTING_LIMIT }
        ensures gives { Gives measured_tree result self.new
            (operand (expression room) (expression_less room) level self.old) }
        ensures fits { IfOk result (λ found. found.height ≤ room + 1) }
    {
        if self.at_word(ReservedWord::Not) && level <= NEGATION_LEVEL {
            self.skip();
            return self.unary(UnaryOperator::Not, NEGATION_LEVEL, room);
        }
        if self.at_mark(Mark::MinusSign) && level <= SIGN_LEVEL {
            self.skip();
            return self.unary(UnaryOperator::Negate, PRIMARY_LEVEL, room);
        }
        self.primary(room)
    }

    // The operand of an operator that stands before it, at a level.
    #[cycle(expression)]
    fn unary(
        &mut self,
        operator: UnaryOperator,
        level: u8,
        room: u8,
    ) -> Result<Measured, Failure<Fault>>
        requires { room < NESTING_LIMIT }
        ensures gives { Gives measured_tree result self.new
            (unary_node (expression room) operator level self.old) }
        ensures fits { IfOk result (λ found. found.height ≤ room + 1) }
    {
        let inner = self.expression(level, room)?;
        Ok(Measured::unary(self.alloc, operator, inner)?)
    }

    // A constant, a reference, a location or an expression in parentheses.
    #[cycle(expression)]
    fn primary(&mut self, room: u8) -> Result<Measured, Failure<Fault>>
        requires { room < NESTING_LIMIT }
        ensures gives { Gives measured_tree result self.new
            (primary (expression room) (expression_less room) self.old) }
        ensures fits { IfOk result (λ found. found.height ≤ room + 1) }
    {
        if self.at_mark(Mark::LeftParenthesis) {
            self.skip();
            return self.parenthesized(room);
        }
        if self.at_mark(Mark::Period) {
            self.skip();
            return self.location(room);
        }
        let Some(base) = self.next_name() else {
            return self.constant_leaf();
        };
        self.skip();
        self.reference_leaf(base, room)
    }

    // A constant as an expression.
    fn constant_leaf(&mut self) -> Result<Measured, Failure<Fault>>
        ensures gives { Gives measured_tree result self.new (constant_leaf self.old) }
        ensures height { IfOk result (λ found. found.height ≡ 1) }
    {
        let found = self.take_constant()?;
        Ok(Measured::constant(found))
    }

    // A reference as an expression, after its name.
    #[cycle(expression)]
    fn reference_leaf(&mut self, base: Identifier, room: u8) -> Result<Measured, Failure<Fault>>
        requires { room < NESTING_LIMIT }
        ensures gives { Gives measured_tree result self.new
            (reference_leaf (expression room) base self.old) }
        ensures fits { IfOk result (λ found. found.height ≤ room + 1) }
    {
        let found = self.reference_after(base, room)?;
        Ok(Measured::reference(self.alloc, found)?)
    }

    // After an opening parenthesis: an expression, or an assignment.
    #[cycle(expression)]
    #[tactic(auto, unfolding(crate::specs::internal::Expressions::parenthesized))]
    fn parenthesized(&mut self, room: u8) -> Result<Measured, Failure<Fault>>
        requires { room < NESTING_LIMIT }
        ensures gives { Gives measured_tree result self.new
            (parenthesized (expression room) (expression_less room) self.old) }
        ensures fits { IfOk result (λ found. found.height ≤ room + 1) }
    {
        let inner = self.expression(EXPRESSION_LEVEL, room)?;
        if self.at_mark(Mark::RightParenthesis) {
            self.skip();
            return Ok(Measured::parenthesized(self.alloc, inner)?);
        }
        match inner.into_reference() {
            Some(target) => self.assigned(target, room),
            None => Err(self.unexpected()),
        }
    }

    // The rest after an opening parenthesis and the reference that is assigned to.
    #[cycle(expression)]
    fn assigned(&mut self, target: MeasuredReference, room: u8) -> Result<Measured, Failure<Fault>>
        requires room { room < NESTING_LIMIT }
        requires target { target.height < room }
        ensures gives { Gives measured_tree result self.new
            (assigned (expression_less room) (ReferenceLeaf (measured_reference target)) self.old) }
        ensures fits { IfOk result (λ found. found.height ≤ room + 1) }
    {
        let value = self.assigned_value(room)?;
        Ok(Measured::assignment(self.alloc, target, value)?)
    }

    // `:=` expression `)`
    #[cycle(expression)]
    fn assigned_value(&mut self, room: u8) -> Result<Measured, Failure<Fault>>
        requires room { room < NESTING_LIMIT }
        requires more { 0 < room }
        ensures gives { Gives measured_tree result self.new
            (assigned_value (expression_less room) self.old) }
        ensures fits { IfOk result (λ found. found.height < room) }
    {
        self.take_mark(Mark::AssignSign)?;
        let value = self.expression(EXPRESSION_LEVEL, room - 1)?;
        self.take_mark(Mark::RightParenthesis)?;
        Ok(value)
    }

    // After a period: a reference, or constants in parentheses.
    #[cycle(expression)]
    #[tactic(auto, unfolding(crate::specs::internal::Expressions::location))]
    fn location(&mut self, room: u8) -> Result<Measured, Failure<Fault>>
        requires { room < NESTING_LIMIT }
        ensures gives { Gives measured_tree result self.new (location (expression room) self.old) }
        ensures fits { IfOk result (λ found. found.height ≤ room + 1) }
    {
        if self.at_mark(Mark::LeftParenthesis) {
            self.skip();
            return self.constant_list();
        }
        self.located(room)
    }

    // constant {`,` constant} `)`, after the period and an opening parenthesis.
    #[tactic(auto, using(crate::proofs::ListItems::listed))]
    fn constant_list(&mut self) -> Result<Measured, Failure<Fault>>
        ensures gives { Gives measured_tree result self.new (constant_list self.old) }
        ensures height { IfOk result (λ found. found.height ≡ 1) }
    {
        let constants = self.take_list::<Constant>()?;
        self.take_mark(Mark::RightParenthesis)?;
        Ok(Measured::list(constants))
    }

    // The reference after a period.
    #[cycle(expression)]
    #[tactic(auto, unfolding(crate::specs::internal::Expressions::reference))]
    fn located(&mut self, room: u8) -> Result<Measured, Failure<Fault>>
        requires { room < NESTING_LIMIT }
        ensures gives { Gives measured_tree result self.new (located (expression room) self.old) }
        ensures fits { IfOk result (λ found. found.height ≤ room + 1) }
    {
        let base = self.take_name()?;
        let found = self.reference_after(base, room)?;
        Ok(Measured::location(self.alloc, found)?)
    }

    /// A reference whose arguments take no more levels than the room.
    #[tactic(auto, unfolding(crate::specs::internal::Expressions::reference))]
    pub(crate) fn reference(&mut self, room: u8) -> Result<MeasuredReference, Failure<Fault>>
        requires { room ≤ NESTING_LIMIT }
        ensures gives { Gives measured_reference result self.new (reference (expression room) self.old) }
        ensures fits { IfOk result (λ found. found.height ≤ room) }
    {
        let base = self.take_name()?;
        self.reference_after(base, room)
    }

    // [arguments] [`.` name [arguments]], after the name of a reference.
    #[cycle(expression)]
    fn reference_after(
        &mut self,
        name: Identifier,
        room: u8,
    ) -> Result<MeasuredReference, Failure<Fault>>
        requires { room ≤ NESTING_LIMIT }
        ensures gives { Gives measured_reference result self.new
            (reference_after (expression room) name self.old) }
        ensures fits { IfOk result (λ found. found.height ≤ room) }
    {
        let arguments = self.arguments(room)?;
        if self.at_mark(Mark::Period) {
            self.skip();
            return self.member_after(name, arguments, room);
        }
        Ok(MeasuredReference::whole(self.alloc, name, arguments)?)
    }

    // name [arguments], after the name of a reference, its arguments and a period.
    #[cycle(expression)]
    fn member_after(
        &mut self,
        name: Identifier,
        arguments: MeasuredArguments,
        room: u8,
    ) -> Result<MeasuredReference, Failure<Fault>>
        requires room { room ≤ NESTING_LIMIT }
        requires arguments { arguments.height ≤ room }
        ensures gives { Gives measured_reference result self.new
            (member_after (expression room) name (measured_arguments arguments) self.old) }
        ensures fits { IfOk result (λ found. found.height ≤ room) }
    {
        let member = self.take_name()?;
        let its_arguments = self.arguments(room)?;
        Ok(MeasuredReference::member(self.alloc, name, arguments, member, its_arguments)?)
    }

    /// Arguments in parentheses that take no more levels than the room, or none.
    #[cycle(expression)]
    pub(crate) fn arguments(&mut self, room: u8) -> Result<MeasuredArguments, Failure<Fault>>
        requires { room ≤ NESTING_LIMIT }
        ensures gives { Gives measured_arguments result self.new (arguments (expression room) self.old) }
        ensures fits { IfOk result (λ found. found.height ≤ room) }
    {
        if !self.at_mark(Mark::LeftParenthesis) {
            return Ok(MeasuredArguments::none(self.alloc));
        }
        self.skip();
        let found = self.expressions(room)?;
        self.take_mark(Mark::RightParenthesis)?;
        Ok(found)
    }

    // Expressions between commas.
    #[cycle(expression)]
    fn expressions(&mut self, room: u8) -> Result<MeasuredArguments, Failure<Fault>>
        requires { room ≤ NESTING_LIMIT }
        ensures gives { Gives measured_items result self.new
            (items (expression room expression_level) self.old) }
        ensures fits { IfOk result (λ found. found.height ≤ room) }
    {
        let first = self.expression(EXPRESSION_LEVEL, room)?;
        let mut found = MeasuredArguments::one(self.alloc, first)?;
        'more: while self.at_mark(Mark::Comma) {
            self.skip();
            let next = self.expression(EXPRESSION_LEVEL, room)?;
            found.push(next)?;
        }
        found.shrink();
        Ok(found)
    }
}
