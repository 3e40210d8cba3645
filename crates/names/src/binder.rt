//! Binding: what each use of a name in a module stands for.

ghost use Rattle.std.specs.Prelude.{◌≡◌, ◌∷◌, ◌++◌, map, Ok};
ghost use Rattle.std.specs.List.{flat_map};
ghost use Rattle.std.specs.Option.{option_map};
ghost use Rattle.trees.specs.Trees.{ItemElement};
ghost use Rattle.trees.specs.internal.Views.{argument_trees, block_declarations, block_statements, declaration_tree, declaration_trees, element_tree, else_tree, expression_tree, head_tree, heading_tree, item_tree, kind_tree, statement_tree, statement_trees, subject_tree, target_trees};
ghost use Rattle.names.specs.Environment.{into_block, into_body, into_list, out_of_block, out_of_body, out_of_list};
ghost use Rattle.names.specs.internal.Events.{in_body, see_else, declares_definition, declares_label, declares_object, declares_parameter, declares_procedure, in_list, jumps_to, moves, see_all, see_block, see_cases, see_declaration, see_declarations, see_element, see_kind, see_statement, see_statements, uses_of};
ghost use Rattle.names.specs.DeclaredNames.{declared_by, labels_of};
ghost use Rattle.names.specs.internal.Uses.{names_in_arguments, names_in_expression, names_in_head, names_in_optional, names_in_reference};
ghost use Rattle.names.specs.internal.TreesOfParts.{see_body, case_tree, do_tree, if_tree, loop_tree, procedure_parts};
ghost use Rattle.names.specs.internal.BindingWalks.{Does, at_start, gives};

use crate::uses::{
    bind_assignment, bind_call, bind_expression, bind_head, bind_item, bind_optional,
};
use crate::{Binding, Fault, Scopes};
use failure::Failure;
use std::alloc::Global;
use std::marker::Model;
use trees::{
    Assignment, Block, Declaration, DoCase, Element, Expression, Identifier, IfThen, Item, Loop,
    LoopHead, Place, Procedure, Selector, Statement, StatementKind, Subject,
};

/// Goes through a module from its start: the scopes at a place, and the bindings of the uses before it.
#[derive(Drop)]
pub(crate) struct Binder {
    scopes: Scopes,
    bindings: Vec<Binding>,
}

impl Model for Binder {
    ghost use Rattle.names.specs.internal.BindingWalks.{Walk};

    ghost Value = { Walk };

    ghost view = { λ binder. record { here = binder.scopes; bindings = binder.bindings.items } };
}

impl Binder {
    // Declares an object.
    #[tactic(auto, using(crate::proofs::BindingWalks::gives_declared, crate::proofs::BindingWalks::gives_again))]
    fn object(&mut self, name: Identifier) -> Result<(), Failure<Fault>>
        ensures { Does result self.new (gives (declares_object name) self.old) }
    {
        self.scopes.declare_object(name)
    }

    // Takes in a parameter of a heading.
    #[tactic(auto, using(crate::proofs::BindingWalks::gives_declared, crate::proofs::BindingWalks::gives_again))]
    fn parameter(&mut self, name: Identifier) -> Result<(), Failure<Fault>>
        ensures { Does result self.new (gives (declares_parameter name) self.old) }
    {
        self.scopes.declare_parameter(name)
    }

    // Takes in a label.
    #[tactic(auto, using(crate::proofs::BindingWalks::gives_declared, crate::proofs::BindingWalks::gives_again))]
    fn label(&mut self, name: Identifier) -> Result<(), Failure<Fault>>
        ensures { Does result self.new (gives (declares_label name) self.old) }
    {
        self.scopes.declare_label(name)
    }

    // Declares the name of a LITERALLY definition.
    #[tactic(auto, using(crate::proofs::BindingWalks::gives_declared, crate::proofs::BindingWalks::gives_again))]
    fn definition(&mut self, name: Identifier) -> Result<(), Failure<Fault>>
        ensures { Does result self.new (gives (declares_definition name) self.old) }
    {
        self.scopes.declare_definition(name)
    }

    // Declares a procedure.
    #[tactic(auto, using(crate::proofs::BindingWalks::gives_declared, crate::proofs::BindingWalks::gives_again))]
    fn procedure_name(&mut self, name: Identifier) -> Result<(), Failure<Fault>>
        ensures { Does result self.new (gives (declares_procedure name) self.old) }
    {
        self.scopes.declare_procedure(name)
    }

    // Declares objects.
    fn objects(&mut self, names: &[Identifier]) -> Result<(), Failure<Fault>>
        ensures { Does result self.new (gives (see_all declares_object names.now) self.old) }
    {
        for name in names {
            self.object(*name)?;
        }
        Ok(())
    }

    // Takes in the parameters of a heading.
    fn parameters(&mut self, names: &[Identifier]) -> Result<(), Failure<Fault>>
        ensures { Does result self.new (gives (see_all declares_parameter names.now) self.old) }
    {
        for name in names {
            self.parameter(*name)?;
        }
        Ok(())
    }

    // Takes in the labels before a statement.
    fn labels(&mut self, names: &[Identifier]) -> Result<(), Failure<Fault>>
        ensures { Does result self.new (gives (see_all declares_label names.now) self.old) }
    {
        for name in names {
            self.label(*name)?;
        }
        Ok(())
    }

    // Declares the names of an item.
    fn subject(&mut self, subject: &Subject) -> Result<(), Failure<Fault>>
        ensures { Does result self.new
            (gives (see_all declares_object (declared_by (subject_tree subject.now))) self.old) }
    {
        match subject {
            Subject::Single { name, .. } => {
                self.object(*name)?;
                Ok(())
            }
            Subject::Group(names) => self.objects(names.as_slice()),
        }
    }

    // Binds the names that an item uses, and declares its own. A name of its own that is declared twice is refused first.
    fn item(&mut self, item: &Item) -> Result<(), Failure<Fault>>
        ensures { Does result self.new (gives (see_element (ItemElement (item_tree item.now))) self.old) }
    {
        let used = bind_item(&self.scopes, item, &mut self.bindings);
        self.subject(&item.subject)?;
        used
    }

    // Goes through an element of a DECLARE.
    fn element(&mut self, element: &Element) -> Result<(), Failure<Fault>>
        ensures { Does result self.new (gives (see_element (element_tree element.now)) self.old) }
    {
        match element {
            Element::Literally(definition) => self.definition(definition.name),
            Element::Item(item) => self.item(item),
        }
    }

    // Goes through the elements of a DECLARE.
    fn elements(&mut self, elements: &[Element]) -> Result<(), Failure<Fault>>
        ensures { Does result self.new
            (gives (see_all see_element (map element_tree elements.now)) self.old) }
    {
        for element in elements {
            self.element(element)?;
        }
        Ok(())
    }

    // Binds the names in an expression.
    fn expression(&mut self, expression: &Expression) -> Result<(), Failure<Fault>>
        ensures { Does result self.new
            (gives (uses_of (names_in_expression (expression_tree expression.now))) self.old) }
    {
        bind_expression(&self.scopes, expression, &mut self.bindings)
    }

    // Binds the names in an expression, if there is one.
    fn optional(&mut self, expression: &Option<Box<Expression>>) -> Result<(), Failure<Fault>>
        ensures { Does result self.new
            (gives (uses_of (names_in_optional names_in_expression (option_map
            (λ held. expression_tree held.value) expression.now))) self.old) }
    {
        bind_optional(&self.scopes, expression, &mut self.bindings)
    }

    // Binds the name and the arguments of a CALL.
    fn call(&mut self, procedure: &Selector) -> Result<(), Failure<Fault>>
        ensures { Does result self.new
            (gives (uses_of (procedure.now.name ∷ names_in_arguments
            (argument_trees procedure.now.arguments.items))) self.old) }
    {
        bind_call(&self.scopes, procedure, &mut self.bindings)
    }

    // Binds the names in an assignment.
    fn assignment(&mut self, assignment: &Assignment) -> Result<(), Failure<Fault>>
        ensures { Does result self.new
            (gives (uses_of (flat_map names_in_reference
            (target_trees assignment.now.target assignment.now.others.items) ++ names_in_expression
            (expression_tree assignment.now.value))) self.old) }
    {
        bind_assignment(&self.scopes, assignment, &mut self.bindings)
    }

    // Binds the names in the head of a loop.
    fn head(&mut self, head: &LoopHead) -> Result<(), Failure<Fault>>
        ensures { Does result self.new (gives (uses_of (names_in_head (head_tree head.now))) self.old) }
    {
        bind_head(&self.scopes, head, &mut self.bindings)
    }

    // Binds the name after GOTO.
    #[tactic(auto, using(crate::proofs::BindingWalks::gives_jump))]
    fn jump(&mut self, label: Identifier) -> Result<(), Failure<Fault>>
        ensures { Does result self.new (gives (jumps_to label) self.old) }
    {
        self.bindings.push(self.scopes.jump(label.name))?;
        Ok(())
    }

    // Goes into a simple DO.
    #[tactic(auto, using(crate::proofs::BindingWalks::gives_move))]
    fn open_block(&mut self) -> Result<(), Failure<Fault>>
        ensures { Does result self.new (gives (moves into_block) self.old) }
    {
        self.scopes.open_block()
    }

    // Goes into the body of a procedure.
    #[tactic(auto, using(crate::proofs::BindingWalks::gives_move))]
    fn open_body(&mut self) -> Result<(), Failure<Fault>>
        ensures { Does result self.new (gives (moves into_body) self.old) }
    {
        self.scopes.open_body()
    }

    // Goes into a list of statements.
    #[tactic(auto, using(crate::proofs::BindingWalks::gives_move))]
    fn open_list(&mut self, statements: &[Statement]) -> Result<(), Failure<Fault>>
        ensures { Does result self.new
            (gives (moves (into_list (labels_of (statement_trees statements.now)))) self.old) }
    {
        self.scopes.open_list(statements)
    }

    // Goes out of a simple DO.
    #[tactic(auto, using(crate::proofs::BindingWalks::gives_move))]
    fn close_block(&mut self)
        ensures { gives (moves out_of_block) self.old ≡ Ok self.new }
    {
        self.scopes.close_block();
    }

    // Goes out of the body of a procedure.
    #[tactic(auto, using(crate::proofs::BindingWalks::gives_move))]
    fn close_body(&mut self)
        ensures { gives (moves out_of_body) self.old ≡ Ok self.new }
    {
        self.scopes.close_body();
    }

    // Goes out of a list of statements.
    #[tactic(auto, using(crate::proofs::BindingWalks::gives_move))]
    fn close_list(&mut self)
        ensures { gives (moves out_of_list) self.old ≡ Ok self.new }
    {
        self.scopes.close_list();
    }

    // Goes through a statement of a list.
    #[cycle(walk)]
    fn statement(&mut self, statement: &Statement) -> Result<(), Failure<Fault>>
        ensures { Does result self.new (gives (see_statement (statement_tree statement.now)) self.old) }
    {
        self.labels(statement.labels.as_slice())?;
        self.kind(&statement.kind)
    }

    // Goes through a statement, its labels aside.
    #[cycle(walk)]
    fn kind(&mut self, kind: &StatementKind) -> Result<(), Failure<Fault>>
        ensures { Does result self.new (gives (see_kind (kind_tree kind.now)) self.old) }
    {
        match kind {
            StatementKind::Null(_) | StatementKind::Halt(_) => Ok(()),
            StatementKind::Assignment(assignment) => self.assignment(assignment),
            StatementKind::Call { procedure, .. } => self.call(procedure),
            StatementKind::Return { value, .. } => self.optional(value),
            StatementKind::Goto { label, .. } => self.jump(**label),
            StatementKind::If(branch) => self.conditional(branch),
            StatementKind::Do { place, block } => self.simple_do(*place, block),
            StatementKind::Loop(turns) => self.do_loop(turns),
            StatementKind::Case(choice) => self.do_case(choice),
        }
    }

    // Goes through an IF.
    #[cycle(walk)]
    fn conditional(&mut self, branch: &IfThen) -> Result<(), Failure<Fault>>
        ensures { Does result self.new (gives (see_kind (if_tree branch.now)) self.old) }
    {
        self.expression(&branch.condition)?;
        self.kind(&branch.body.kind)?;
        self.otherwise(&branch.otherwise)
    }

    // Goes through the statement after ELSE, if there is one.
    #[cycle(walk)]
    fn otherwise(&mut self, otherwise: &Option<Statement>) -> Result<(), Failure<Fault>>
        ensures { Does result self.new (gives (see_else (else_tree otherwise.now)) self.old) }
    {
        match otherwise {
            Some(statement) => self.kind(&statement.kind),
            None => Ok(()),
        }
    }

    // Goes through a simple DO.
    #[cycle(walk)]
    fn simple_do(&mut self, place: Place, block: &Block) -> Result<(), Failure<Fault>>
        ensures { Does result self.new (gives (see_kind (do_tree place block.now)) self.old) }
    {
        self.open_block()?;
        self.block(block)?;
        self.close_block();
        Ok(())
    }

    // Goes through a DO WHILE or an iterative DO.
    #[cycle(walk)]
    fn do_loop(&mut self, turns: &Loop) -> Result<(), Failure<Fault>>
        ensures { Does result self.new (gives (see_kind (loop_tree turns.now)) self.old) }
    {
        self.head(&turns.head)?;
        self.list(turns.body.as_slice())
    }

    // Goes through a DO CASE.
    #[cycle(walk)]
    fn do_case(&mut self, choice: &DoCase) -> Result<(), Failure<Fault>>
        ensures { Does result self.new (gives (see_kind (case_tree choice.now)) self.old) }
    {
        self.expression(&choice.choice)?;
        self.cases(choice.body.as_slice())
    }

    // Goes through the statements of a DO CASE.
    #[cycle(walk)]
    fn cases(&mut self, statements: &[Statement]) -> Result<(), Failure<Fault>>
        ensures { Does result self.new (gives (see_cases (statement_trees statements.now)) self.old) }
    {
        for statement in statements {
            self.kind(&statement.kind)?;
        }
        Ok(())
    }

    // Goes through a list of statements.
    #[cycle(walk)]
    fn list(&mut self, statements: &[Statement]) -> Result<(), Failure<Fault>>
        ensures { Does result self.new
            (gives (in_list (statement_trees statements.now) (see_statements
            (statement_trees statements.now))) self.old) }
    {
        self.open_list(statements)?;
        self.statements(statements)?;
        self.close_list();
        Ok(())
    }

    // Goes through the statements of a list.
    #[cycle(walk)]
    fn statements(&mut self, statements: &[Statement]) -> Result<(), Failure<Fault>>
        ensures { Does result self.new (gives (see_statements (statement_trees statements.now)) self.old) }
    {
        for statement in statements {
            self.statement(statement)?;
        }
        Ok(())
    }

    // Goes through the declarations and the statements of a block.
    #[cycle(walk)]
    fn block(&mut self, block: &Block) -> Result<(), Failure<Fault>>
        ensures { Does result self.new
            (gives (see_block (block_declarations block.now) (block_statements block.now)) self.old) }
    {
        self.declarations(block.declarations.as_slice())?;
        self.list(block.statements.as_slice())
    }

    // Goes through declarations.
    #[cycle(walk)]
    fn declarations(&mut self, declarations: &[Declaration]) -> Result<(), Failure<Fault>>
        ensures { Does result self.new
            (gives (see_declarations (declaration_trees declarations.now)) self.old) }
    {
        for declaration in declarations {
            self.declaration(declaration)?;
        }
        Ok(())
    }

    // Goes through a declaration.
    #[cycle(walk)]
    fn declaration(&mut self, declaration: &Declaration) -> Result<(), Failure<Fault>>
        ensures { Does result self.new (gives (see_declaration (declaration_tree declaration.now)) self.old) }
    {
        match declaration {
            Declaration::Declare(elements) => self.elements(elements.as_slice()),
            Declaration::Procedure(procedure) => self.procedure(procedure),
        }
    }

    // Goes through a procedure.
    #[cycle(walk)]
    fn procedure(&mut self, procedure: &Procedure) -> Result<(), Failure<Fault>>
        ensures { Does result self.new (gives (see_declaration (procedure_parts procedure.now)) self.old) }
    {
        self.procedure_name(procedure.heading.name)?;
        self.procedure_body(procedure)
    }

    // Goes through the body of a procedure.
    #[cycle(walk)]
    fn procedure_body(&mut self, procedure: &Procedure) -> Result<(), Failure<Fault>>
        ensures { Does result self.new (gives (in_body (see_body procedure.now)) self.old) }
    {
        self.open_body()?;
        self.procedure_inside(procedure)?;
        self.close_body();
        Ok(())
    }

    // Goes through the inside of a procedure.
    #[cycle(walk)]
    fn procedure_inside(&mut self, procedure: &Procedure) -> Result<(), Failure<Fault>>
        ensures { Does result self.new (gives (see_body procedure.now) self.old) }
    {
        self.parameters(procedure.heading.parameters.as_slice())?;
        self.block(&procedure.body)
    }

    /// The start of a module.
    pub(crate) fn new(alloc: Global) -> Binder
        ensures { result ≡ at_start }
    {
        Binder {
            scopes: Scopes::new(alloc),
            bindings: Vec::new(alloc),
        }
    }

    /// Goes through a module.
    pub(crate) fn module(&mut self, body: &Block) -> Result<(), Failure<Fault>>
        ensures { Does result self.new
            (gives (see_block (block_declarations body.now) (block_statements body.now)) self.old) }
    {
        self.block(body)
    }

    /// The bindings.
    pub(crate) fn into_bindings(self) -> Vec<Binding>
        ensures { result.items ≡ self.bindings }
    {
        self.bindings
    }
}
