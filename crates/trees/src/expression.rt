//! Expressions. If memory runs out for one, its parts are dropped.

use crate::identifier::{Constant, Identifier};
use std::alloc::{AllocError, Global};

/// An operator with one operand.
#[derive(Clone, Copy)]
pub enum UnaryOperator {
    /// NOT
    Not,
    /// `-` before its operand
    Negate,
}

/// An operator between two operands.
#[derive(Clone, Copy)]
pub enum BinaryOperator {
    /// OR
    Or,
    /// XOR
    Xor,
    /// AND
    And,
    /// `=`
    Equal,
    /// `<`
    Less,
    /// `>`
    Greater,
    /// `<=`
    LessOrEqual,
    /// `>=`
    GreaterOrEqual,
    /// `<>`
    Unequal,
    /// `+`
    Add,
    /// `-`
    Subtract,
    /// `*`
    Multiply,
    /// `/`
    Divide,
    /// MOD
    Modulo,
}

/// An expression. Parentheses stay in it.
#[cycle(expression)]
pub enum Expression {
    /// A number or a string.
    Constant(Constant),
    /// A variable, an element or a member of one, or a call: these look alike until names are known.
    Reference(Box<Reference>),
    /// `.` and the located reference.
    Location(Box<Reference>),
    /// `.(..)`, a list of constants.
    List(Vec<Constant>),
    /// `(..)`
    Parenthesized(Box<Expression>),
    /// `(reference := expression)`
    Assignment {
        target: Box<Reference>,
        value: Box<Expression>,
    },
    /// NOT or `-` before an operand.
    Unary(UnaryOperator, Box<Expression>),
    /// An operator between its operands.
    Binary(BinaryOperator, Box<Expression>, Box<Expression>),
}

// A module has many expressions, so large parts are boxed.
const _: () = prove!(size_of::<Expression>() <= 32);

const _: () = prove!(size_of::<Reference>() <= 80);

/// A name with its subscripts or arguments, which stand in parentheses; no parentheses are an empty list.
#[cycle(expression)]
pub struct Selector {
    pub name: Identifier,
    pub arguments: Vec<Expression>,
}

/// A name with subscripts or arguments, and a member of it, if one is named.
#[cycle(expression)]
pub struct Reference {
    pub name: Identifier,
    pub arguments: Vec<Expression>,
    pub member: Option<Box<Selector>>,
}

impl Selector {
    ghost use Rattle.std.specs.Prelude.{◌≡◌};

    // Its name and its arguments.
    fn into_parts(self) -> (Identifier, Vec<Expression>)
        ensures { result ≡ (self.name, self.arguments) }
    {
        let Selector { name, arguments } = self;
        (name, arguments)
    }
}

impl Reference {
    ghost use Rattle.std.specs.Prelude.{◌≡◌, IfOk};
    ghost use Rattle.trees.specs.internal.Views.{member_tree, reference_of, reference_tree};

    /// The reference to what `base` names, or to a member of it.
    #[tactic(auto, using(crate::specs::declared::expression::Reference::the_lemmas, crate::proofs::Views::row_trees_are))]
    pub fn new(
        alloc: Global,
        base: Selector,
        member: Option<Selector>,
    ) -> Result<Reference, AllocError>
        ensures view { IfOk result (λ made. reference_tree made ≡ reference_of base (member_tree member)) }
    {
        let (name, arguments) = base.into_parts();
        let member = match member {
            Some(selector) => Some(Box::new(alloc, selector)?),
            None => None,
        };
        Ok(Reference {
            name,
            arguments,
            member,
        })
    }
}

impl Expression {
    ghost use Rattle.std.specs.Prelude.{◌≡◌, false, map, IfOk, IfErr};
    ghost use Rattle.trees.specs.Trees.{ConstantLeaf, ReferenceLeaf, LocationLeaf, ListLeaf};
    ghost use Rattle.trees.specs.Trees.{ParenthesizedNode, AssignmentNode, UnaryNode, BinaryNode};
    ghost use Rattle.trees.specs.internal.Views.{MakesExpression, constant_tree, expression_tree, reference_tree, is_reference_leaf};

    /// A number or a string.
    pub fn constant(constant: Constant) -> Expression
        ensures view { expression_tree result ≡ ConstantLeaf (constant_tree constant) }
    {
        Expression::Constant(constant)
    }

    /// A variable, an element or a member of one, or a call.
    pub fn reference(alloc: Global, reference: Reference) -> Result<Expression, AllocError>
        ensures view { MakesExpression result (ReferenceLeaf (reference_tree reference)) }
    {
        Ok(Expression::Reference(Box::new(alloc, reference)?))
    }

    /// `.` and the located reference.
    pub fn location(alloc: Global, reference: Reference) -> Result<Expression, AllocError>
        ensures view { MakesExpression result (LocationLeaf (reference_tree reference)) }
    {
        Ok(Expression::Location(Box::new(alloc, reference)?))
    }

    /// `.(..)`, a list of constants.
    pub fn list(constants: Vec<Constant>) -> Expression
        ensures view { expression_tree result ≡ ListLeaf (map constant_tree constants.items) }
    {
        Expression::List(constants)
    }

    /// `(..)`
    pub fn parenthesized(alloc: Global, inner: Expression) -> Result<Expression, AllocError>
        ensures view { MakesExpression result (ParenthesizedNode (expression_tree inner)) }
    {
        Ok(Expression::Parenthesized(Box::new(alloc, inner)?))
    }

    /// `(reference := expression)`
    pub fn assignment(
        alloc: Global,
        target: Reference,
        value: Expression,
    ) -> Result<Expression, AllocError>
        ensures view { MakesExpression result
            (AssignmentNode (reference_tree target) (expression_tree value)) }
    {
        let target = Box::new(alloc, target)?;
        let value = Box::new(alloc, value)?;
        Ok(Expression::Assignment { target, value })
    }

    /// NOT or `-` before an operand.
    pub fn unary(
        alloc: Global,
        operator: UnaryOperator,
        operand: Expression,
    ) -> Result<Expression, AllocError>
        ensures view { MakesExpression result (UnaryNode operator (expression_tree operand)) }
    {
        Ok(Expression::Unary(operator, Box::new(alloc, operand)?))
    }

    /// An operator between its operands.
    pub fn binary(
        alloc: Global,
        operator: BinaryOperator,
        left: Expression,
        right: Expression,
    ) -> Result<Expression, AllocError>
        ensures view { MakesExpression result
            (BinaryNode operator (expression_tree left) (expression_tree right)) }
    {
        let left = Box::new(alloc, left)?;
        Ok(Expression::Binary(operator, left, Box::new(alloc, right)?))
    }

    /// The reference that an expression is, or the expression itself, if it is not a reference.
    pub fn into_reference(self) -> Result<Reference, Expression>
        ensures found { IfOk result
            (λ reference. expression_tree self ≡ ReferenceLeaf (reference_tree reference)) }
        ensures other { IfErr result (λ kept. expression_tree kept ≡ expression_tree self) }
        ensures not_one { IfErr result (λ _. is_reference_leaf (expression_tree self) ≡ false) }
    {
        match self {
            Expression::Reference(reference) => Ok(Box::into_inner(reference)),
            other => Err(other),
        }
    }
}

// Written out, so that these are freed here, and each crate that frees one calls this.
impl Drop for Expression {
    #[cycle(let_go_expression)]
    fn drop(self) {
        match self {
            Expression::Constant(_)
            | Expression::Reference(_)
            | Expression::Location(_)
            | Expression::List(_)
            | Expression::Parenthesized(_)
            | Expression::Assignment {
                target: _,
                value: _,
            }
            | Expression::Unary(_, _)
            | Expression::Binary(_, _, _) => {}
        }
    }
}

impl Drop for Selector {
    #[cycle(let_go_expression)]
    fn drop(self) {
        let Selector {
            name: _,
            arguments: _,
        } = self;
    }
}

impl Drop for Reference {
    #[cycle(let_go_expression)]
    fn drop(self) {
        let Reference {
            name: _,
            arguments: _,
            member: _,
        } = self;
    }
}
