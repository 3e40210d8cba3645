//! Lowering of typed expressions to tree code.

ghost use Rattle.std.specs.Prelude.{◌≡◌, IfOk, OnOk};
ghost use Rattle.typed_trees.specs.Views.{arguments_view, expression_view, reference_view, subscript_view, target_view};
ghost use Rattle.layout.specs.Views.{layout_view};
ghost use Rattle.treecode.specs.internal.Nodes.{nodes_of};
ghost use Rattle.treecode.specs.internal.Adding.{arguments_in, expression_in, form_in, reference_in, subscript_in, target_in};
ghost use Rattle.treecode.specs.internal.Beside.{beside};

use crate::expression::{ExpressionForm, ExpressionNumber};
use crate::lists::Range;
use crate::lowering::{Lowering, list_offset, wrapped};
use crate::reference::{Reference, Subscript, Target};
use layout::Layout;
use std::alloc::AllocError;
use typed_trees::{TypedExpression, TypedReference, TypedSubscript, TypedTarget};

impl Lowering {
    /// Adds an expression, after its parts.
    #[cycle(expression)]
    pub(crate) fn expression(
        &mut self,
        storage: &Layout,
        expression: &TypedExpression,
    ) -> Result<ExpressionNumber, AllocError>
        ensures kept { OnOk result (beside self.new ≡ beside self.old) }
        ensures ok { IfOk result (λ added. expression_in (layout_view storage.now) (nodes_of self.old.tree)
            (expression_view expression.now) ≡ (nodes_of self.new.tree, added)) }
    {
        let form = self.form(storage, expression)?;
        self.tree.add_expression(expression.scalar(), form)
    }

    // Adds the parts of an expression, and returns its form.
    #[cycle(expression)]
    #[tactic(auto, using(typed_trees::specs::declared::expression::TypedExpression::the_lemmas, typed_trees::proofs::Views::argument_rows_are))]
    fn form(
        &mut self,
        storage: &Layout,
        expression: &TypedExpression,
    ) -> Result<ExpressionForm, AllocError>
        ensures kept { OnOk result (beside self.new ≡ beside self.old) }
        ensures ok { IfOk result (λ added. form_in (layout_view storage.now) (nodes_of self.old.tree)
            (expression_view expression.now) ≡ (nodes_of self.new.tree, added)) }
    {
        match expression {
            TypedExpression::Number { value, .. } => Ok(ExpressionForm::Number(value.value)),
            TypedExpression::Value { reference, .. } => {
                Ok(ExpressionForm::Value(self.reference(storage, reference)?))
            }
            TypedExpression::Location(reference) => {
                Ok(ExpressionForm::Location(self.reference(storage, reference)?))
            }
            TypedExpression::List(list) => Ok(ExpressionForm::List(list_offset(storage, *list))),
            TypedExpression::Conversion { inner, .. } => {
                Ok(ExpressionForm::Conversion(self.expression(storage, inner)?))
            }
            TypedExpression::Assignment { target, value } => {
                let value = self.expression(storage, value)?;
                let target = self.target(storage, target)?;
                Ok(ExpressionForm::Assignment { target, value })
            }
            TypedExpression::Unary {
                operator,
                operand,
                ..
            } => Ok(ExpressionForm::Unary {
                operator: *operator,
                operand: self.expression(storage, operand)?,
            }),
            TypedExpression::Binary {
                operands,
                operator,
                left,
                right,
            } => Ok(ExpressionForm::Binary {
                operands: *operands,
                operator: *operator,
                left: self.expression(storage, left)?,
                right: self.expression(storage, right)?,
            }),
            TypedExpression::Call {
                procedure,
                arguments,
                ..
            } => Ok(ExpressionForm::Call {
                procedure: *procedure,
                arguments: self.arguments(storage, arguments.as_slice())?,
            }),
            TypedExpression::Function { function, operand } => Ok(ExpressionForm::Function {
                function: *function,
                operand: self.expression(storage, operand)?,
            }),
            TypedExpression::Shift {
                function,
                value,
                count,
                ..
            } => Ok(ExpressionForm::Shift {
                function: *function,
                value: self.expression(storage, value)?,
                count: self.expression(storage, count)?,
            }),
            TypedExpression::Input(port) => Ok(ExpressionForm::Input(*port)),
        }
    }

    /// Adds the arguments of a call, from left to right.
    #[cycle(expression)]
    pub(crate) fn arguments(
        &mut self,
        storage: &Layout,
        arguments: &[TypedExpression],
    ) -> Result<Range, AllocError>
        ensures kept { OnOk result (beside self.new ≡ beside self.old) }
        ensures ok { IfOk result (λ added. arguments_in (layout_view storage.now) (nodes_of self.old.tree)
            (arguments_view arguments.now) ≡ (nodes_of self.new.tree, added)) }
    {
        let mut numbers = Vec::with_capacity(self.alloc, arguments.len())?;
        for argument in arguments {
            let number = self.expression(storage, argument)?;
            numbers.push(number)?;
        }
        self.tree.add_arguments(numbers.as_slice())
    }

    // Adds the subscripts of a reference.
    #[cycle(expression)]
    fn reference(
        &mut self,
        storage: &Layout,
        reference: &TypedReference,
    ) -> Result<Reference, AllocError>
        ensures kept { OnOk result (beside self.new ≡ beside self.old) }
        ensures ok { IfOk result (λ added. reference_in (layout_view storage.now) (nodes_of self.old.tree)
            (reference_view reference.now) ≡ (nodes_of self.new.tree, added)) }
    {
        let subscript = self.subscript(storage, &reference.subscript)?;
        let member_subscript = self.subscript(storage, &reference.member_subscript)?;
        Ok(Reference {
            object: reference.object,
            subscript,
            offset: wrapped(reference.offset),
            member_subscript,
        })
    }

    // Adds the expression of a subscript, if there is one.
    #[cycle(expression)]
    fn subscript(
        &mut self,
        storage: &Layout,
        subscript: &TypedSubscript,
    ) -> Result<Option<Subscript>, AllocError>
        ensures kept { OnOk result (beside self.new ≡ beside self.old) }
        ensures ok { IfOk result (λ added. subscript_in (layout_view storage.now) (nodes_of self.old.tree)
            (subscript_view subscript.now) ≡ (nodes_of self.new.tree, added)) }
    {
        match subscript {
            TypedSubscript::Absent => Ok(None),
            TypedSubscript::Present { stride, index, .. } => {
                let index = self.expression(storage, index)?;
                Ok(Some(Subscript {
                    index,
                    stride: wrapped(*stride),
                }))
            }
        }
    }

    /// Adds the subscripts of a target.
    #[cycle(expression)]
    pub(crate) fn target(
        &mut self,
        storage: &Layout,
        target: &TypedTarget,
    ) -> Result<Target, AllocError>
        ensures kept { OnOk result (beside self.new ≡ beside self.old) }
        ensures ok { IfOk result (λ added. target_in (layout_view storage.now) (nodes_of self.old.tree)
            (target_view target.now) ≡ (nodes_of self.new.tree, added)) }
    {
        match target {
            TypedTarget::Stored {
                from,
                to,
                reference,
            } => Ok(Target::Stored {
                from: *from,
                to: *to,
                reference: self.reference(storage, reference)?,
            }),
            TypedTarget::Sent { from, port } => Ok(Target::Sent {
                from: *from,
                port: *port,
            }),
        }
    }
}
