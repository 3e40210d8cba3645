//! Expressions with how many levels they take, and at which levels of the grammar they may stand.

ghost use Rattle.std.specs.Prelude.{◌≡◌, ◌<◌, ◌+◌, suc, max, [], ◌∷◌, ◌++◌, IfOk, OnOk, IfSome, IsNone, false, map};
ghost use Rattle.grammar.specs.Forms.{expression_level, negation_level, relation_level, sign_level, primary_level, level_of};
ghost use Rattle.grammar.specs.internal.Forms.{left_level, unary_level_of};
ghost use Rattle.grammar.specs.Nesting.{expression_height, reference_height, arguments_height};
ghost use Rattle.trees.specs.Trees.{ConstantLeaf, ReferenceLeaf, LocationLeaf, ListLeaf, ParenthesizedNode, AssignmentNode, UnaryNode, BinaryNode, ReferenceTo, NoMember, MemberOf, NoArguments};
ghost use Rattle.trees.specs.internal.Views.{constant_tree, expression_tree, reference_tree, argument_trees, reference_of, is_reference_leaf};
ghost use Rattle.syntax.specs.internal.Expressions.{top_level};

use std::alloc::{AllocError, Global};
use trees::{BinaryOperator, Constant, Expression, Identifier, Reference, Selector, UnaryOperator};

/// The level of whole expressions, joined by OR and XOR.
pub(crate) const EXPRESSION_LEVEL: u8 = 0;
/// The level of what AND joins.
pub(crate) const CONJUNCTION_LEVEL: u8 = 1;
/// The level of NOT and its operand.
pub(crate) const NEGATION_LEVEL: u8 = 2;
/// The level of comparisons.
pub(crate) const RELATION_LEVEL: u8 = 3;
/// The level of sums.
pub(crate) const SUM_LEVEL: u8 = 4;
/// The level of products, quotients and remainders.
pub(crate) const TERM_LEVEL: u8 = 5;
/// The level of `-` before its operand.
pub(crate) const SIGN_LEVEL: u8 = 6;
/// The level of what no operator joins.
pub(crate) const PRIMARY_LEVEL: u8 = 7;

/// An expression with the highest level at which it may stand, and the levels that it takes.
#[derive(Drop)]
pub(crate) struct Measured {
    pub(crate) expression: Expression,
    pub(crate) level: u8,
    pub(crate) height: u8,
    ghost leveled: { level ≡ top_level (expression_tree expression) },
    ghost measured: { height ≡ expression_height (expression_tree expression) },
}

/// A reference with the levels that its arguments take.
#[derive(Drop)]
pub(crate) struct MeasuredReference {
    pub(crate) reference: Reference,
    pub(crate) height: u8,
    ghost measured: { height ≡ reference_height (reference_tree reference) },
}

/// Arguments with the levels that they take.
#[derive(Drop)]
pub(crate) struct MeasuredArguments {
    pub(crate) items: Vec<Expression>,
    pub(crate) height: u8,
    ghost measured: { height ≡ arguments_height (argument_trees items.items) },
}

/// The level at which an operator joins its operands.
pub(crate) fn level_of(operator: BinaryOperator) -> u8
    ensures level { result ≡ level_of operator }
    ensures range { result < 6 }
{
    match operator {
        BinaryOperator::Or | BinaryOperator::Xor => EXPRESSION_LEVEL,
        BinaryOperator::And => CONJUNCTION_LEVEL,
        BinaryOperator::Equal
        | BinaryOperator::Less
        | BinaryOperator::Greater
        | BinaryOperator::LessOrEqual
        | BinaryOperator::GreaterOrEqual
        | BinaryOperator::Unequal => RELATION_LEVEL,
        BinaryOperator::Add | BinaryOperator::Subtract => SUM_LEVEL,
        BinaryOperator::Multiply | BinaryOperator::Divide | BinaryOperator::Modulo => TERM_LEVEL,
    }
}

/// The level of the left operand of an operator of a level.
pub(crate) fn left_level(level: u8) -> u8
    ensures { result ≡ left_level level }
{
    if level == RELATION_LEVEL {
        SUM_LEVEL
    } else {
        level
    }
}

impl Measured {
    ghost use Rattle.syntax.specs.internal.Measured.{MakesMeasured};

    /// A constant.
    pub(crate) fn constant(constant: Constant) -> Measured
        ensures view { expression_tree result.expression ≡ ConstantLeaf (constant_tree constant) }
        ensures height { result.height ≡ 1 }
    {
        Measured {
            expression: Expression::constant(constant),
            level: PRIMARY_LEVEL,
            height: 1,
        }
    }

    /// A list of constants.
    pub(crate) fn list(constants: Vec<Constant>) -> Measured
        ensures view { expression_tree result.expression ≡ ListLeaf (map constant_tree constants.items) }
        ensures height { result.height ≡ 1 }
    {
        Measured {
            expression: Expression::list(constants),
            level: PRIMARY_LEVEL,
            height: 1,
        }
    }

    /// A reference.
    pub(crate) fn reference(alloc: Global, found: MeasuredReference) -> Result<Measured, AllocError>
        requires { found.height < 255 }
        ensures view { MakesMeasured result (ReferenceLeaf (reference_tree found.reference)) }
        ensures height { IfOk result (λ made. made.height ≡ found.height + 1) }
    {
        let MeasuredReference { reference, height } = found;
        Ok(Measured {
            expression: Expression::reference(alloc, reference)?,
            level: PRIMARY_LEVEL,
            height: height + 1,
        })
    }

    /// `.` and a reference.
    pub(crate) fn location(alloc: Global, found: MeasuredReference) -> Result<Measured, AllocError>
        requires { found.height < 255 }
        ensures view { MakesMeasured result (LocationLeaf (reference_tree found.reference)) }
        ensures height { IfOk result (λ made. made.height ≡ found.height + 1) }
    {
        let MeasuredReference { reference, height } = found;
        Ok(Measured {
            expression: Expression::location(alloc, reference)?,
            level: PRIMARY_LEVEL,
            height: height + 1,
        })
    }

    /// An expression in parentheses.
    pub(crate) fn parenthesized(alloc: Global, inner: Measured) -> Result<Measured, AllocError>
        requires { inner.height < 255 }
        ensures view { MakesMeasured result (ParenthesizedNode (expression_tree inner.expression)) }
        ensures height { IfOk result (λ made. made.height ≡ inner.height + 1) }
    {
        Ok(Measured {
            expression: Expression::parenthesized(alloc, inner.expression)?,
            level: PRIMARY_LEVEL,
            height: inner.height + 1,
        })
    }

    /// `(reference := expression)`
    pub(crate) fn assignment(
        alloc: Global,
        target: MeasuredReference,
        value: Measured,
    ) -> Result<Measured, AllocError>
        requires target { target.height < 254 }
        requires value { value.height < 254 }
        ensures view { MakesMeasured result
            (AssignmentNode (reference_tree target.reference) (expression_tree value.expression)) }
        ensures height { IfOk result (λ made. made.height ≡ max target.height value.height + 2) }
    {
        Ok(Measured {
            expression: Expression::assignment(alloc, target.reference, value.expression)?,
            level: PRIMARY_LEVEL,
            height: target.height.max(value.height) + 2,
        })
    }

    /// NOT or `-` before an operand.
    pub(crate) fn unary(
        alloc: Global,
        operator: UnaryOperator,
        operand: Measured,
    ) -> Result<Measured, AllocError>
        requires { operand.height < 255 }
        ensures view { MakesMeasured result (UnaryNode operator (expression_tree operand.expression)) }
        ensures height { IfOk result (λ made. made.height ≡ operand.height + 1) }
    {
        let level = match operator {
            UnaryOperator::Not => NEGATION_LEVEL,
            UnaryOperator::Negate => SIGN_LEVEL,
        };
        Ok(Measured {
            expression: Expression::unary(alloc, operator, operand.expression)?,
            level,
            height: operand.height + 1,
        })
    }

    /// An operator between its operands.
    pub(crate) fn binary(
        alloc: Global,
        operator: BinaryOperator,
        left: Measured,
        right: Measured,
    ) -> Result<Measured, AllocError>
        requires left { left.height < 255 }
        requires right { right.height < 255 }
        ensures view { MakesMeasured result
            (BinaryNode operator (expression_tree left.expression) (expression_tree right.expression)) }
        ensures height { IfOk result (λ made. made.height ≡ max left.height right.height + 1) }
    {
        Ok(Measured {
            expression: Expression::binary(alloc, operator, left.expression, right.expression)?,
            level: level_of(operator),
            height: left.height.max(right.height) + 1,
        })
    }

    /// The reference that an expression is, if it is one.
    pub(crate) fn into_reference(self) -> Option<MeasuredReference>
        ensures found { IfSome result
            (λ found. expression_tree self.expression ≡ ReferenceLeaf (reference_tree found.reference)) }
        ensures height { IfSome result (λ found. self.height ≡ found.height + 1) }
        ensures other { IsNone result → is_reference_leaf (expression_tree self.expression) ≡ false }
    {
        match self.expression.into_reference() {
            Ok(reference) => Some(MeasuredReference {
                reference,
                height: self.height - 1,
            }),
            Err(_) => None,
        }
    }
}

impl MeasuredReference {
    ghost use Rattle.syntax.specs.internal.Measured.{MakesReference};

    /// A name with its arguments.
    pub(crate) fn whole(
        alloc: Global,
        name: Identifier,
        arguments: MeasuredArguments,
    ) -> Result<MeasuredReference, AllocError>
        ensures view { MakesReference result
            (ReferenceTo name (argument_trees arguments.items.items) NoMember) }
        ensures height { IfOk result (λ made. made.height ≡ arguments.height) }
    {
        let MeasuredArguments { items, height } = arguments;
        let base = Selector {
            name,
            arguments: items,
        };
        Ok(MeasuredReference {
            reference: Reference::new(alloc, base, None)?,
            height,
        })
    }

    /// A name with its arguments, and a member of it with its own.
    pub(crate) fn member(
        alloc: Global,
        name: Identifier,
        arguments: MeasuredArguments,
        member: Identifier,
        its_arguments: MeasuredArguments,
    ) -> Result<MeasuredReference, AllocError>
        ensures view { MakesReference result
            (ReferenceTo name (argument_trees arguments.items.items)
            (MemberOf member (argument_trees its_arguments.items.items))) }
        ensures height { IfOk result (λ made. made.height ≡ max arguments.height its_arguments.height) }
    {
        let height = arguments.height.max(its_arguments.height);
        let base = Selector {
            name,
            arguments: arguments.items,
        };
        let member = Selector {
            name: member,
            arguments: its_arguments.items,
        };
        Ok(MeasuredReference {
            reference: Reference::new(alloc, base, Some(member))?,
            height,
        })
    }
}

impl MeasuredArguments {
    /// No arguments.
    pub(crate) fn none(alloc: Global) -> MeasuredArguments
        ensures view { argument_trees result.items.items ≡ NoArguments }
        ensures height { result.height ≡ 0 }
    {
        MeasuredArguments {
            items: Vec::new(alloc),
            height: 0,
        }
    }

    /// One argument, with room for no other.
    pub(crate) fn one(alloc: Global, first: Measured) -> Result<MeasuredArguments, AllocError>
        ensures view { IfOk result (λ made. made.items.items ≡ first.expression ∷ []) }
        ensures height { IfOk result (λ made. made.height ≡ first.height) }
    {
        let mut items = Vec::with_capacity(alloc, 1)?;
        items.push(first.expression)?;
        Ok(MeasuredArguments {
            items,
            height: first.height,
        })
    }

    /// One more argument.
    #[tactic(auto, using(crate::proofs::MeasuredHeights::arguments_height_push))]
    pub(crate) fn push(&mut self, next: Measured) -> Result<(), AllocError>
        ensures view { OnOk result (self.new.items.items ≡ self.old.items.items ++ next.expression ∷ []) }
        ensures height { OnOk result (self.new.height ≡ max self.old.height next.height) }
    {
        self.items.push(next.expression)?;
        self.height = self.height.max(next.height);
        Ok(())
    }

    /// Gives back the memory that more arguments would take, if that is possible.
    pub(crate) fn shrink(&mut self)
        ensures view { self.new.items.items ≡ self.old.items.items }
        ensures height { self.new.height ≡ self.old.height }
    {
        self.items.shrink_to_fit();
    }
}
