//! Lowering of typed statements to tree code.

ghost use Rattle.std.specs.Prelude.{◌≡◌, map, option_map, IfOk, OnOk};
ghost use Rattle.typed_trees.specs.TypedTrees.{CaseStatement, IfStatement, LoopStatement, MoveStatement};
ghost use Rattle.typed_trees.specs.Views.{arguments_view, else_view, expression_view, head_view, iteration_view, list_view, statement_view, statements_view, target_view};
ghost use Rattle.layout.specs.Views.{layout_view};
ghost use Rattle.treecode.specs.internal.Nodes.{nodes_of};
ghost use Rattle.treecode.specs.internal.Adding.{target_in};
ghost use Rattle.treecode.specs.internal.Beside.{outside, walk_of};
ghost use Rattle.treecode.specs.internal.Walking.{assigned_in, call_in, else_in, goal_with, goals_in, head_in, iteration_in, list_in, loop_ends, moved_in, optional_in, put_statement, returned_in, statement_in, statements_in, targets_in, value_in};

use crate::expression::ExpressionNumber;
use crate::heights::{height_of_call, height_of_target};
use crate::lists::Range;
use crate::lowering::Lowering;
use crate::reference::Target;
use crate::statement::{Iteration, LoopHead, Statement, StatementNumber};
use layout::Layout;
use meaning::holds;
use std::alloc::AllocError;
use typed_trees::{
    TypedAssignment, TypedCase, TypedExpression, TypedHead, TypedIf, TypedIteration, TypedList,
    TypedLoop, TypedMove, TypedStatement, TypedTarget,
};

/// A statement that was added, and whether its end can be reached.
#[derive(Clone, Copy)]
pub(crate) struct AddedStatement {
    number: StatementNumber,
    reaches_its_end: bool,
}

/// A list of statements that was added, and whether its end can be reached.
#[derive(Clone, Copy)]
pub(crate) struct AddedList {
    pub(crate) range: Range,
    pub(crate) reaches_its_end: bool,
}

impl Lowering {
    // Adds an expression of the body.
    fn value(
        &mut self,
        storage: &Layout,
        expression: &TypedExpression,
    ) -> Result<ExpressionNumber, AllocError>
        ensures kept { OnOk result (outside self.new ≡ outside self.old) }
        ensures ok { IfOk result (λ added. value_in (layout_view storage.now) (walk_of self.old)
            (expression_view expression.now)
            ≡ (walk_of self.new, added)) }
    {
        let number = self.expression(storage, expression)?;
        let height = self.tree.traits(number).height;
        self.note_height(height);
        Ok(number)
    }

    // Adds an expression of the body, if there is one.
    fn value_if_any(
        &mut self,
        storage: &Layout,
        expression: &Option<TypedExpression>,
    ) -> Result<Option<ExpressionNumber>, AllocError>
        ensures kept { OnOk result (outside self.new ≡ outside self.old) }
        ensures ok { IfOk result (λ added. optional_in (layout_view storage.now) (walk_of self.old)
            (option_map expression_view expression.now)
            ≡ (walk_of self.new, added)) }
    {
        match expression {
            Some(expression) => Ok(Some(self.value(storage, expression)?)),
            None => Ok(None),
        }
    }

    // Adds a statement after its parts.
    #[tactic(auto, using(crate::proofs::PutNodes::outside_statements))]
    fn add(
        &mut self,
        statement: Statement,
        reaches_its_end: bool,
    ) -> Result<AddedStatement, AllocError>
        ensures kept { OnOk result (outside self.new ≡ outside self.old) }
        ensures ok { IfOk result (λ added. put_statement (walk_of self.old) statement reaches_its_end
            ≡ (walk_of self.new, added)) }
    {
        let number = self.tree.add_statement(statement)?;
        Ok(AddedStatement {
            number,
            reaches_its_end,
        })
    }

    // Adds the parts of a target.
    fn goal(&mut self, storage: &Layout, target: &TypedTarget) -> Result<Target, AllocError>
        ensures kept { OnOk result (outside self.new ≡ outside self.old) }
        ensures ok { IfOk result (λ added. goal_with (walk_of self.old)
            (target_in (layout_view storage.now) (nodes_of self.old.tree) (target_view target.now))
            ≡ (walk_of self.new, added)) }
    {
        let target = self.target(storage, target)?;
        let height = height_of_target(&self.tree, &target);
        self.note_height(height);
        Ok(target)
    }

    // Adds the parts of targets in a row.
    fn goals(
        &mut self,
        storage: &Layout,
        targets: &[TypedTarget],
    ) -> Result<Vec<Target>, AllocError>
        ensures kept { OnOk result (outside self.new ≡ outside self.old) }
        ensures ok { IfOk result (λ added. goals_in (layout_view storage.now) (walk_of self.old)
            (map target_view targets.now)
            ≡ (walk_of self.new, added.items)) }
    {
        let mut added = Vec::with_capacity(self.alloc, targets.len())?;
        for target in targets {
            let target = self.goal(storage, target)?;
            added.push(target)?;
        }
        Ok(added)
    }

    // Adds targets in a row.
    #[tactic(auto, using(crate::proofs::PutNodes::outside_targets))]
    fn targets(&mut self, storage: &Layout, targets: &[TypedTarget]) -> Result<Range, AllocError>
        ensures kept { OnOk result (outside self.new ≡ outside self.old) }
        ensures ok { IfOk result (λ added. targets_in (layout_view storage.now) (walk_of self.old)
            (map target_view targets.now)
            ≡ (walk_of self.new, added)) }
    {
        let added = self.goals(storage, targets)?;
        self.tree.add_targets(added.as_slice())
    }

    // Adds an assignment.
    fn assign(
        &mut self,
        storage: &Layout,
        assignment: &TypedAssignment,
    ) -> Result<AddedStatement, AllocError>
        ensures kept { OnOk result (outside self.new ≡ outside self.old) }
        ensures ok { IfOk result (λ added. assigned_in (layout_view storage.now) (walk_of self.old)
            (map target_view assignment.now.targets.items) (expression_view assignment.now.value)
            ≡ (walk_of self.new, added)) }
    {
        let value = self.value(storage, &assignment.value)?;
        let targets = self.targets(storage, assignment.targets.as_slice())?;
        self.add(Statement::Assignment { targets, value }, true)
    }

    // Adds a call of a procedure without a result.
    fn call(
        &mut self,
        storage: &Layout,
        procedure: u32,
        arguments: &[TypedExpression],
    ) -> Result<AddedStatement, AllocError>
        ensures kept { OnOk result (outside self.new ≡ outside self.old) }
        ensures ok { IfOk result (λ added. call_in (layout_view storage.now) (walk_of self.old) procedure
            (arguments_view arguments.now)
            ≡ (walk_of self.new, added)) }
    {
        let arguments = self.arguments(storage, arguments)?;
        let height = height_of_call(&self.tree, arguments);
        self.note_height(height);
        let statement = Statement::Call {
            procedure,
            arguments,
        };
        self.add(statement, true)
    }

    // Adds CALL MOVE, a call with three arguments.
    fn move_bytes(
        &mut self,
        storage: &Layout,
        moved: &TypedMove,
    ) -> Result<AddedStatement, AllocError>
        ensures kept { OnOk result (outside self.new ≡ outside self.old) }
        ensures ok { IfOk result (λ added. moved_in (layout_view storage.now) (walk_of self.old)
            (expression_view moved.now.count) (expression_view moved.now.source)
            (expression_view moved.now.destination)
            ≡ (walk_of self.new, added)) }
    {
        let count = self.value(storage, &moved.count)?;
        let source = self.value(storage, &moved.source)?;
        let destination = self.value(storage, &moved.destination)?;
        let highest = self
            .tree
            .traits(count)
            .height
            .max(self.tree.traits(source).height)
            .max(self.tree.traits(destination).height);
        self.note_height(highest.saturating_add(4));
        let statement = Statement::Move {
            count,
            source,
            destination,
        };
        self.add(statement, true)
    }

    // Adds RETURN.
    fn give_back(
        &mut self,
        storage: &Layout,
        value: &Option<Box<TypedExpression>>,
    ) -> Result<AddedStatement, AllocError>
        ensures kept { OnOk result (outside self.new ≡ outside self.old) }
        ensures ok { IfOk result (λ added. returned_in (layout_view storage.now) (walk_of self.old)
            (option_map (λ held. expression_view held.value) value.now)
            ≡ (walk_of self.new, added)) }
    {
        let value = match value {
            Some(value) => Some(self.value(storage, value)?),
            None => None,
        };
        self.add(Statement::Return(value), false)
    }

    // Adds the expressions of the head of an iterative DO.
    fn iteration(
        &mut self,
        storage: &Layout,
        head: &TypedIteration,
    ) -> Result<Iteration, AllocError>
        ensures kept { OnOk result (outside self.new ≡ outside self.old) }
        ensures ok { IfOk result (λ added. iteration_in (layout_view storage.now) (walk_of self.old)
            (iteration_view head.now)
            ≡ (walk_of self.new, added)) }
    {
        self.note_height(1);
        let first = self.value(storage, &head.first)?;
        let last = self.value(storage, &head.last)?;
        let step = self.value_if_any(storage, &head.step)?;
        Ok(Iteration {
            variable: head.variable,
            scalar: head.scalar,
            first,
            last,
            step,
        })
    }

    // Adds the expressions of the head of a loop.
    fn head(&mut self, storage: &Layout, head: &TypedHead) -> Result<LoopHead, AllocError>
        ensures kept { OnOk result (outside self.new ≡ outside self.old) }
        ensures ok { IfOk result (λ added. head_in (layout_view storage.now) (walk_of self.old)
            (head_view head.now)
            ≡ (walk_of self.new, added)) }
    {
        match head {
            TypedHead::While(condition) => Ok(LoopHead::While(self.value(storage, condition)?)),
            TypedHead::Count(head) => Ok(LoopHead::Count(self.iteration(storage, head)?)),
        }
    }

    // Whether a loop with this head can end: it can unless its condition is known to be true.
    fn ends(&self, head: LoopHead) -> bool
        ensures { result ≡ loop_ends (nodes_of self.now.tree) head }
    {
        match head {
            LoopHead::While(condition) => match self.tree.number(condition) {
                Some(number) => !holds(number),
                None => true,
            },
            LoopHead::Count(_) => true,
        }
    }

    // Adds a statement, after its parts.
    #[cycle(statement)]
    fn statement(
        &mut self,
        storage: &Layout,
        statement: &TypedStatement,
    ) -> Result<AddedStatement, AllocError>
        ensures kept { OnOk result (outside self.new ≡ outside self.old) }
        ensures ok { IfOk result (λ added. statement_in (layout_view storage.now) (walk_of self.old)
            (statement_view statement.now)
            ≡ (walk_of self.new, added)) }
    {
        match statement {
            TypedStatement::Label(label) => {
                let label = self.label(*label);
                self.add(Statement::Label(label), true)
            }
            TypedStatement::Null => self.add(Statement::Null, true),
            TypedStatement::Assignment(assignment) => self.assign(storage, assignment),
            TypedStatement::Call {
                procedure,
                arguments,
            } => self.call(storage, *procedure, arguments.as_slice()),
            TypedStatement::Move(moved) => self.move_bytes(storage, moved),
            TypedStatement::Return(value) => self.give_back(storage, value),
            TypedStatement::Halt => self.add(Statement::Halt, false),
            TypedStatement::Goto(label) => {
                let label = self.label(*label);
                self.add(Statement::Goto(label), false)
            }
            TypedStatement::If(branch) => self.choose(storage, branch),
            TypedStatement::Do(body) => {
                let list = self.list(storage, body)?;
                self.add(Statement::Do(list.range), list.reaches_its_end)
            }
            TypedStatement::Loop(turns) => self.repeat(storage, turns),
            TypedStatement::Case(choice) => self.choose_case(storage, choice),
        }
    }

    // Adds IF. Its end can be reached if the end of one of its two statements can.
    #[cycle(statement)]
    fn choose(&mut self, storage: &Layout, branch: &TypedIf) -> Result<AddedStatement, AllocError>
        ensures kept { OnOk result (outside self.new ≡ outside self.old) }
        ensures ok { IfOk result (λ added. statement_in (layout_view storage.now) (walk_of self.old)
            (IfStatement (expression_view branch.now.condition) (statement_view branch.now.body)
            (else_view branch.now.otherwise))
            ≡ (walk_of self.new, added)) }
    {
        let condition = self.value(storage, &branch.condition)?;
        let body = self.statement(storage, &branch.body)?;
        let otherwise = self.otherwise(storage, &branch.otherwise)?;
        let reaches_its_end = match otherwise {
            Some(otherwise) => body.reaches_its_end || otherwise.reaches_its_end,
            None => true,
        };
        let statement = Statement::If {
            condition,
            body: body.number,
            otherwise: match otherwise {
                Some(otherwise) => Some(otherwise.number),
                None => None,
            },
        };
        self.add(statement, reaches_its_end)
    }

    // Adds the statement after ELSE, if there is one.
    #[cycle(statement)]
    fn otherwise(
        &mut self,
        storage: &Layout,
        otherwise: &Option<TypedStatement>,
    ) -> Result<Option<AddedStatement>, AllocError>
        ensures kept { OnOk result (outside self.new ≡ outside self.old) }
        ensures ok { IfOk result (λ added. else_in (layout_view storage.now) (walk_of self.old)
            (else_view otherwise.now)
            ≡ (walk_of self.new, added)) }
    {
        match otherwise {
            Some(statement) => Ok(Some(self.statement(storage, statement)?)),
            None => Ok(None),
        }
    }

    // Adds a loop.
    #[cycle(statement)]
    fn repeat(&mut self, storage: &Layout, turns: &TypedLoop) -> Result<AddedStatement, AllocError>
        ensures kept { OnOk result (outside self.new ≡ outside self.old) }
        ensures ok { IfOk result (λ added. statement_in (layout_view storage.now) (walk_of self.old)
            (LoopStatement (head_view turns.now.head) (list_view turns.now.body))
            ≡ (walk_of self.new, added)) }
    {
        let head = self.head(storage, &turns.head)?;
        let body = self.list(storage, &turns.body)?;
        let reaches_its_end = self.ends(head);
        let statement = Statement::Loop {
            head,
            body: body.range,
        };
        self.add(statement, reaches_its_end)
    }

    // Adds DO CASE.
    #[cycle(statement)]
    fn choose_case(
        &mut self,
        storage: &Layout,
        choice: &TypedCase,
    ) -> Result<AddedStatement, AllocError>
        ensures kept { OnOk result (outside self.new ≡ outside self.old) }
        ensures ok { IfOk result (λ added. statement_in (layout_view storage.now) (walk_of self.old)
            (CaseStatement (expression_view choice.now.choice) (statements_view choice.now.body.items))
            ≡ (walk_of self.new, added)) }
    {
        let number = self.value(storage, &choice.choice)?;
        let body = self.statements(storage, choice.body.as_slice())?;
        let statement = Statement::Case {
            choice: number,
            body: body.range,
        };
        self.add(statement, true)
    }

    /// Adds a list of statements, with its labels.
    #[cycle(statement)]
    pub(crate) fn list(
        &mut self,
        storage: &Layout,
        list: &TypedList,
    ) -> Result<AddedList, AllocError>
        ensures kept { OnOk result (outside self.new ≡ outside self.old) }
        ensures ok { IfOk result (λ added. list_in (layout_view storage.now) (walk_of self.old)
            (list_view list.now)
            ≡ (walk_of self.new, added)) }
    {
        self.number_labels(list.first_label, list.places.len())?;
        self.statements(storage, list.statements.as_slice())
    }

    // Adds statements in a row. Their end can be reached if that of the last one can.
    #[cycle(statement)]
    fn statements(
        &mut self,
        storage: &Layout,
        statements: &[TypedStatement],
    ) -> Result<AddedList, AllocError>
        ensures kept { OnOk result (outside self.new ≡ outside self.old) }
        ensures ok { IfOk result (λ added. statements_in (layout_view storage.now) (walk_of self.old)
            (statements_view statements.now)
            ≡ (walk_of self.new, added)) }
    {
        let mut numbers = Vec::with_capacity(self.alloc, statements.len())?;
        let mut reaches_its_end = true;
        for statement in statements {
            let added = self.statement(storage, statement)?;
            numbers.push(added.number)?;
            reaches_its_end = added.reaches_its_end;
        }
        let range = self.tree.add_list(numbers.as_slice())?;
        Ok(AddedList {
            range,
            reaches_its_end,
        })
    }
}
