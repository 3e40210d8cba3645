//! The typing of a module.

ghost use Rattle.std.specs.Prelude.{◌≡◌, Ok, Err, IfOk, OnOk};
ghost use Rattle.failure.specs.Failure.{IfFault};
ghost use Rattle.trees.specs.internal.Views.{block_declarations, block_statements, declaration_tree, declaration_trees, else_tree, kind_tree, module_tree, statement_tree, statement_trees};
ghost use Rattle.names.specs.internal.TreesOfParts.{case_tree, do_tree, if_tree, loop_tree, procedure_parts};
ghost use Rattle.typed_trees.specs.Views.{else_view, list_view, module_view, procedure_view, statement_view, statements_view};
ghost use Rattle.typing.specs.internal.StatementChecks.{list_of};
ghost use Rattle.typing.specs.Statements.{places_from};
ghost use Rattle.typed_trees.specs.Frames.{FramesFit, ParametersFit};
ghost use Rattle.typed_trees.specs.Globals.{ListsGlobals};
ghost use Rattle.typed_trees.specs.Jumps.{JumpsAreSound};
ghost use Rattle.typed_trees.specs.Storable.{IsStorable};
ghost use Rattle.typed_trees.specs.WellTyped.{IsWellTyped};
ghost use Rattle.typed_trees.specs.Numbers.{NumbersFitInModule};
ghost use Rattle.typing.specs.internal.Untyped.{GivesBack};
ghost use Rattle.typing.specs.internal.Typing.{alone, cases, declaration, declarations, else_part, kind, statements, typing_of};
ghost use Rattle.typing.specs.Modules.{entered, left, main_procedure, module_with};
ghost use Rattle.typing.specs.internal.Results.{Answers, Gives, Leaves};
ghost use Rattle.typing_rules.specs.Modules.{ModuleTyping};
ghost use Rattle.typing_rules.specs.ModuleFaults.{ModuleFault};
ghost use Rattle.types.specs.internal.Declares.{Declares};
ghost use Rattle.types.specs.internal.Views.{block_view, progress_view};
ghost use Rattle.types.specs.internal.Walking.{inside_view, list_left, listing, module_body, procedure_inside, statement_with_labels};

use crate::blocks::{Block, Owner};
use crate::checker::{Checker, answer_of_scopes};
use crate::lists::{Listed, declare_labels, without_label};
use crate::procedures::{Inside, check_body, parameter_objects};
use crate::statement_nodes;
use failure::Failure;
use std::alloc::Global;
use trees::{
    Block as BlockTree, Declaration, DoCase, IfThen, Loop, Module, Name, Place, Procedure,
    Statement, StatementKind,
};
use typed_trees::{Typed, TypedList, TypedProcedure, TypedStatement, Visibility};
use typing::Fault;

impl Checker {
    // Goes into a simple DO.
    fn enter(&mut self) -> Result<(), Failure<Fault>>
        ensures ok { OnOk result (progress_view self.new ≡ entered (progress_view self.old)) }
        ensures err { IfFault result (λ _. ⊥) }
    {
        answer_of_scopes(self.known.scopes.open_block())
    }

    // Goes out of a simple DO.
    fn leave(&mut self)
        ensures { progress_view self.new ≡ left (progress_view self.old) }
    {
        self.known.scopes.close_block();
    }

    // Goes into a list of statements.
    fn open_list(&mut self, trees: &[Statement]) -> Result<(), Failure<Fault>>
        ensures ok { OnOk result
            (progress_view self.new ≡ listing (statement_trees trees.now) (progress_view self.old)) }
        ensures err { IfFault result (λ _. ⊥) }
    {
        answer_of_scopes(self.known.scopes.open_list(trees))
    }

    // Goes out of a list of statements.
    fn close_list(&mut self)
        ensures { progress_view self.new ≡ list_left (progress_view self.old) }
    {
        self.known.scopes.close_list();
    }

    // The typing of a statement, its labels aside.
    #[cycle(walk)]
    fn kind(
        &mut self,
        block: Block<'_>,
        tree: &StatementKind,
    ) -> Result<TypedStatement, Failure<Fault>>
        ensures { Gives statement_view result (progress_view self.new)
            (kind (block_view block.entry) (kind_tree tree.now) (progress_view self.old)) }
    {
        match tree {
            StatementKind::Null(_) => Ok(TypedStatement::Null),
            StatementKind::Halt(_) => Ok(TypedStatement::Halt),
            StatementKind::Assignment(assignment) => self.assignment(assignment),
            StatementKind::Call { procedure, .. } => self.call(procedure),
            StatementKind::Return { place, value } => {
                self.return_from(*place, block.owner, value)
            }
            StatementKind::Goto { label, .. } => self.goto(**label),
            StatementKind::If(branch) => self.conditional(block, branch),
            StatementKind::Do {
                place,
                block: inner,
            } => self.simple_do(block, *place, inner),
            StatementKind::Loop(turns) => self.do_loop(block, turns),
            StatementKind::Case(choice) => self.do_case(block, choice),
        }
    }

    // IF.
    #[cycle(walk)]
    fn conditional(
        &mut self,
        block: Block<'_>,
        branch: &IfThen,
    ) -> Result<TypedStatement, Failure<Fault>>
        ensures { Gives statement_view result (progress_view self.new)
            (kind (block_view block.entry) (if_tree branch.now) (progress_view self.old)) }
    {
        let condition = self.value(&branch.condition)?;
        let body = self.alone(block, &branch.body)?;
        let other = self.else_part(block, &branch.otherwise)?;
        statement_nodes::conditional(self.alloc, condition, body, other)
    }

    // A statement after THEN or ELSE or of a DO CASE.
    #[cycle(walk)]
    fn alone(
        &mut self,
        block: Block<'_>,
        tree: &Statement,
    ) -> Result<TypedStatement, Failure<Fault>>
        ensures { Gives statement_view result (progress_view self.new)
            (alone (block_view block.entry) (statement_tree tree.now) (progress_view self.old)) }
    {
        without_label(tree.labels.as_slice())?;
        self.kind(block, &tree.kind)
    }

    // The statement after ELSE, if there is one.
    #[cycle(walk)]
    fn else_part(
        &mut self,
        block: Block<'_>,
        tree: &Option<Statement>,
    ) -> Result<Option<TypedStatement>, Failure<Fault>>
        ensures { Gives else_view result (progress_view self.new)
            (else_part (block_view block.entry) (else_tree tree.now) (progress_view self.old)) }
    {
        match tree {
            Some(body) => Ok(Some(self.alone(block, body)?)),
            None => Ok(None),
        }
    }

    // A simple DO.
    #[cycle(walk)]
    fn simple_do(
        &mut self,
        block: Block<'_>,
        place: Place,
        tree: &BlockTree,
    ) -> Result<TypedStatement, Failure<Fault>>
        ensures { Gives statement_view result (progress_view self.new)
            (kind (block_view block.entry) (do_tree place tree.now) (progress_view self.old)) }
    {
        let inner = Block {
            owner: block.owner,
            is_own: false,
        };
        self.enter()?;
        self.declarations(inner, tree.declarations.as_slice())?;
        let body = self.list(inner, tree.statements.as_slice())?;
        self.leave();
        statement_nodes::block(self.alloc, body)
    }

    // DO WHILE or an iterative DO.
    #[cycle(walk)]
    fn do_loop(&mut self, block: Block<'_>, turns: &Loop) -> Result<TypedStatement, Failure<Fault>>
        ensures { Gives statement_view result (progress_view self.new)
            (kind (block_view block.entry) (loop_tree turns.now) (progress_view self.old)) }
    {
        let head = self.loop_head(&turns.head)?;
        let body = self.list(block, turns.body.as_slice())?;
        statement_nodes::do_loop(self.alloc, head, body)
    }

    // DO CASE.
    #[cycle(walk)]
    fn do_case(
        &mut self,
        block: Block<'_>,
        choice: &DoCase,
    ) -> Result<TypedStatement, Failure<Fault>>
        ensures { Gives statement_view result (progress_view self.new)
            (kind (block_view block.entry) (case_tree choice.now) (progress_view self.old)) }
    {
        let number = self.value(&choice.choice)?;
        let body = self.cases(block, choice.body.as_slice())?;
        statement_nodes::case(self.alloc, number, body)
    }

    // The statements of a DO CASE.
    #[cycle(walk)]
    fn cases(
        &mut self,
        block: Block<'_>,
        trees: &[Statement],
    ) -> Result<Vec<TypedStatement>, Failure<Fault>>
        ensures { Gives (λ made. statements_view made.items) result (progress_view self.new)
            (cases (block_view block.entry) (statement_trees trees.now) (progress_view self.old)) }
    {
        let mut made = Vec::new(self.alloc);
        for tree in trees {
            let typed = self.alone(block, tree)?;
            made.push(typed)?;
        }
        Ok(made)
    }

    // A list of statements, with its labels known in the whole of it.
    #[cycle(walk)]
    fn list(&mut self, block: Block<'_>, trees: &[Statement]) -> Result<TypedList, Failure<Fault>>
        ensures { Gives list_view result (progress_view self.new)
            (list_of (statement_trees trees.now)
            (λ label. statements (block_view block.entry) (statement_trees trees.now) label)
            (progress_view self.old)) }
    {
        let first_label = self.known.scopes.next_label();
        self.open_list(trees)?;
        let listed = self.statements(block, trees, first_label)?;
        self.close_list();
        Ok(TypedList {
            first_label,
            places: listed.places,
            statements: listed.statements,
        })
    }

    // The statements of a list, whose first label has this number.
    #[cycle(walk)]
    fn statements(
        &mut self,
        block: Block<'_>,
        trees: &[Statement],
        first_label: u32,
    ) -> Result<Listed, Failure<Fault>>
        ensures statements { Gives (λ listed. statements_view listed.statements.items) result
            (progress_view self.new)
            (statements (block_view block.entry) (statement_trees trees.now) first_label
            (progress_view self.old)) }
        ensures places { IfOk result
            (λ listed. listed.places.items ≡ places_from 0 (statement_trees trees.now)) }
    {
        let mut listed = Listed {
            label: first_label,
            places: Vec::new(self.alloc),
            statements: Vec::new(self.alloc),
        };
        for tree in trees {
            let typed = self.statement(block, tree)?;
            listed.push(tree.labels.as_slice(), typed)?;
        }
        Ok(listed)
    }

    // A statement of a list, after its labels.
    #[cycle(walk)]
    fn statement(
        &mut self,
        block: Block<'_>,
        tree: &Statement,
    ) -> Result<TypedStatement, Failure<Fault>>
        ensures { Gives statement_view result (progress_view self.new)
            (statement_with_labels (block_view block.entry) (statement_tree tree.now)
            (progress_view self.old)) }
    {
        declare_labels(&mut self.known.scopes, tree.labels.as_slice())?;
        self.kind(block, &tree.kind)
    }

    // Declarations.
    #[cycle(walk)]
    fn declarations(
        &mut self,
        block: Block<'_>,
        trees: &[Declaration],
    ) -> Result<(), Failure<Fault>>
        ensures { Leaves result (progress_view self.new)
            (declarations (block_view block.entry) (declaration_trees trees.now)
            (progress_view self.old)) }
    {
        for tree in trees {
            self.declaration(block, tree)?;
        }
        Ok(())
    }

    // A declaration.
    #[cycle(walk)]
    fn declaration(&mut self, block: Block<'_>, tree: &Declaration) -> Result<(), Failure<Fault>>
        ensures { Leaves result (progress_view self.new)
            (declaration (block_view block.entry) (declaration_tree tree.now)
            (progress_view self.old)) }
    {
        match tree {
            Declaration::Declare(elements) => self.declare_elements(block, elements.as_slice()),
            Declaration::Procedure(procedure) => self.procedure(block, procedure),
        }
    }

    // A procedure.
    #[cycle(walk)]
    fn procedure(&mut self, block: Block<'_>, procedure: &Procedure) -> Result<(), Failure<Fault>>
        ensures { Leaves result (progress_view self.new)
            (declaration (block_view block.entry) (procedure_parts procedure.now)
            (progress_view self.old)) }
    {
        let heading = &procedure.heading;
        let declared = procedure.body.declarations.as_slice();
        let number = self.open_procedure(block, heading, declared)?;
        let inside = self.procedure_inside(number, procedure)?;
        self.close_procedure(heading, declared, number, inside)
    }

    // The inside of a procedure, by its number.
    #[cycle(walk)]
    fn procedure_inside(
        &mut self,
        number: u32,
        procedure: &Procedure,
    ) -> Result<Inside, Failure<Fault>>
        ensures { Gives inside_view result (progress_view self.new)
            (procedure_inside number procedure.now (progress_view self.old)) }
    {
        let heading = &procedure.heading;
        let statements = procedure.body.statements.as_slice();
        let own = Block {
            owner: Owner::Procedure { number, heading },
            is_own: true,
        };
        self.declarations(own, procedure.body.declarations.as_slice())?;
        let parameters = parameter_objects(
            self.alloc,
            &self.known.scopes,
            heading.parameters.as_slice(),
        )?;
        check_body(heading, statements)?;
        let body = self.list(own, statements)?;
        Ok(Inside { parameters, body })
    }
}

// The statements at the outer level, as a procedure.
fn main_procedure(alloc: Global, name: Name, body: TypedList) -> TypedProcedure
    ensures { procedure_view result ≡ main_procedure name (list_view body) }
{
    TypedProcedure {
        name,
        visibility: Visibility::Private,
        result: None,
        is_reentrant: false,
        parameter_types: Vec::new(alloc),
        parameters: Vec::new(alloc),
        frame_bytes: 0,
        body,
    }
}

impl Checker {
    // The declarations and the statements of a module.
    fn module(&mut self, body: &BlockTree) -> Result<TypedList, Failure<Fault>>
        ensures { Gives list_view result (progress_view self.new)
            (module_body (block_declarations body.now) (block_statements body.now)
            (progress_view self.old)) }
    {
        let block = Block {
            owner: Owner::Module,
            is_own: true,
        };
        self.declarations(block, body.declarations.as_slice())?;
        self.list(block, body.statements.as_slice())
    }

    // The module that is typed at its end.
    fn into_typed(self, name: Name, body: TypedList) -> Typed
        ensures { module_view result ≡ module_with name (list_view body) (progress_view self) }
    {
        let Checker {
            alloc,
            known,
            constants,
            globals,
            ..
        } = self;
        Typed {
            name,
            objects: known.objects,
            procedures: known.procedures,
            lists: constants.lists,
            constants: constants.items,
            globals,
            main: main_procedure(alloc, name, body),
        }
    }
}

// A module as it is typed.
fn typed(alloc: Global, parsed: &Module) -> Result<Typed, Failure<Fault>>
    ensures typing { Answers module_view result (typing_of (module_tree parsed.now)) }
    ensures numbers { IfOk result (λ typed. NumbersFitInModule (module_view typed)) }
{
    let mut checker = Checker::new(alloc);
    let body = checker.module(&parsed.body)?;
    Ok(checker.into_typed(parsed.name.name, body))
}

/// Types a module: resolves its names, gives each expression its type and writes each conversion out. Refuses a module
/// that breaks a rule of names, types, attributes or constants, with the first fault in the text. The rules say which
/// typing or fault that is (`rules`, `broken`).
///
/// Without its conversions the typing gives back the statements of the text (`given_back`), and its tables have what the text
/// declares (`declared`). It does not keep parentheses, places, the names of labels, or which names were declared together:
/// so no clause gives these back, and which label a GOTO goes to is said by `ok` alone.
pub fn check(alloc: Global, parsed: Module) -> Result<Typed, Failure<Fault>>
    ensures ok { IfOk result (λ typed. typing_of (module_tree parsed) ≡ Ok (module_view typed)) }
    ensures fault { IfFault result (λ fault. typing_of (module_tree parsed) ≡ Err fault) }
    ensures rules { IfOk result (λ typed. ModuleTyping (module_tree parsed) (module_view typed)) }
    ensures broken { IfFault result (ModuleFault (module_tree parsed)) }
    ensures given_back { IfOk result (λ typed. GivesBack (module_tree parsed) (module_view typed)) }
    ensures declared { IfOk result (λ typed. Declares (module_tree parsed) (module_view typed)) }
    ensures jumps { IfOk result (λ typed. JumpsAreSound (module_view typed)) }
    ensures storable { IfOk result (λ typed. IsStorable (module_view typed)) }
    ensures types { IfOk result (λ typed. IsWellTyped (module_view typed)) }
    ensures numbers { IfOk result (λ typed. NumbersFitInModule (module_view typed)) }
    ensures globals { IfOk result (λ typed. ListsGlobals (module_view typed)) }
    ensures frames { IfOk result (λ typed. FramesFit (module_view typed)) }
    ensures parameters { IfOk result (λ typed. ParametersFit (module_view typed)) }
{
    typed(alloc, &parsed)
}
