//! Where the statements and the procedures of a source begin, and what its procedures declare.

ghost use Rattle.std.specs.Prelude.{◌≡◌, ◌+◌, ◌++◌, ◌∷◌, [], length, map, slice_set, sum_by, IfOk, OnOk};
ghost use Rattle.trees.specs.internal.Views.{block_declarations, block_statements, declaration_tree, declaration_trees, kind_tree, module_tree, statement_tree, statement_trees};
ghost use Rattle.names.specs.internal.TreesOfParts.{if_tree, procedure_parts};
ghost use Rattle.typing.specs.internal.Untyped.{bodies_in, bodies_in_declaration, bodies_in_kind, bodies_in_statement, bodies_in_statements};
ghost use Rattle.sources.specs.Reading.{IsSource, IsText};
ghost use Rattle.sources.specs.internal.Counted.{AreLinesOf, HasLineOfEach, count_of_parts, count_of_statement, count_of_statements, counted, counts_of, lines_of_body};

use crate::read::parse_text;
use failure::Failure;
use std::alloc::{AllocError, Global};
use trees::{
    Block, Declaration, Element, Identifier, IfThen, Module, Procedure, Statement, StatementKind,
    Subject,
};
use types::place_of_kind;

/// Lines of a source, counted from 1.
#[derive(Drop)]
pub struct SourceLines {
    /// The line of the word DO of the module.
    pub module: u32,
    /// The line of the name of each procedure, by its number in the typed module.
    pub procedures: Vec<u32>,
    /// The lines of the statements: those of the bodies of the procedures, by their numbers, and then those of the main
    /// program. In a body a statement comes after its parts and before the next statement, and a label is a statement.
    pub statements: Vec<u32>,
    /// Of each object, by its number in the typed module, the procedure in which it is declared, if it is.
    pub owners: Vec<Option<usize>>,
}

impl SourceLines {
    /// The procedures in which the objects are declared.
    pub fn into_owners(self) -> Vec<Option<usize>> {
        let SourceLines {
            module: _,
            procedures: _,
            statements: _,
            owners,
        } = self;
        owners
    }
}

// The lines of a procedure: that of its name, and those of the statements of its body.
#[derive(Drop)]
struct ProcedureLines {
    line: u32,
    statements: Vec<u32>,
}

// The walk over a module: its procedures so far, and the owners of its objects.
#[derive(Drop)]
struct LineWalk {
    alloc: Global,
    procedures: Vec<ProcedureLines>,
    owners: Vec<Option<usize>>,
}

// Goes through the names of an item, which a procedure declares.
fn add_subject(
    owners: &mut Vec<Option<usize>>,
    owner: Option<usize>,
    subject: &Subject,
) -> Result<(), AllocError> {
    let count = match subject {
        Subject::Single { .. } => 1,
        Subject::Group(names) => names.len(),
    };
    for _ in 0..count {
        owners.push(owner)?;
    }
    Ok(())
}

// Goes through the elements of a DECLARE.
fn add_elements(
    owners: &mut Vec<Option<usize>>,
    owner: Option<usize>,
    elements: &[Element],
) -> Result<(), AllocError> {
    for element in elements {
        if let Element::Item(item) = element {
            add_subject(owners, owner, &item.subject)?;
        }
    }
    Ok(())
}

// Adds the lines of labels.
fn add_labels(lines: &mut Vec<u32>, labels: &[Identifier]) -> Result<(), AllocError>
    ensures { OnOk result (length lines.new.items ≡ length lines.old.items + length labels.now) }
{
    for label in labels {
        lines.push(label.place.line)?;
    }
    Ok(())
}

// The lines of the names of procedures.
fn lines_of_names(alloc: Global, procedures: &[ProcedureLines]) -> Result<Vec<u32>, AllocError>
    ensures { IfOk result (λ lines. length lines.items ≡ length procedures.now) }
{
    let mut lines = Vec::new(alloc);
    for procedure in procedures {
        lines.push(procedure.line)?;
    }
    Ok(lines)
}

// The lines of the statements of procedures.
fn lines_of_bodies(alloc: Global, procedures: &[ProcedureLines]) -> Result<Vec<u32>, AllocError>
    ensures { IfOk result (λ lines. length lines.items ≡ sum_by lines_of_body procedures.now) }
{
    let mut lines = Vec::new(alloc);
    for procedure in procedures {
        lines.extend_from_slice(procedure.statements.as_slice())?;
    }
    Ok(lines)
}

impl LineWalk {
    // No procedures and no objects.
    fn new(alloc: Global) -> LineWalk
        ensures { result.procedures.items ≡ [] }
    {
        LineWalk {
            alloc,
            procedures: Vec::new(alloc),
            owners: Vec::new(alloc),
        }
    }

    // Begins a procedure whose name stands in a line, and gives its number.
    fn begin(&mut self, line: u32) -> Result<usize, AllocError>
        ensures number { IfOk result (λ number. number ≡ length self.old.procedures.items) }
        ensures begun { OnOk result (counts_of self.new ≡ counts_of self.old ++ 0 ∷ []) }
    {
        let number = self.procedures.len();
        self.procedures.push(ProcedureLines {
            line,
            statements: Vec::new(self.alloc),
        })?;
        Ok(number)
    }

    // Gives a procedure its line again, and the lines of its statements.
    fn complete(&mut self, number: usize, line: u32, statements: Vec<u32>)
        ensures { counts_of self.new ≡ slice_set (counts_of self.old) number (length statements.items) }
    {
        if let Some(procedure) = self.procedures.get_mut(number) {
            *procedure = ProcedureLines { line, statements };
        }
    }

    // Goes through a block of a procedure, or of the main program, and adds the lines of its statements.
    #[cycle(walk)]
    fn block(
        &mut self,
        owner: Option<usize>,
        block: &Block,
        lines: &mut Vec<u32>,
    ) -> Result<(), AllocError>
        ensures bodies { OnOk result (counts_of self.new ≡ counts_of self.old ++ counted
            (bodies_in (block_declarations block.now) ++ bodies_in_statements (block_statements block.now))) }
        ensures lines { OnOk result (length lines.new.items ≡ length lines.old.items
            + count_of_statements (block_statements block.now)) }
    {
        self.declarations(owner, block.declarations.as_slice())?;
        self.statements(owner, block.statements.as_slice(), lines)
    }

    // Goes through declarations.
    #[cycle(walk)]
    fn declarations(
        &mut self,
        owner: Option<usize>,
        declarations: &[Declaration],
    ) -> Result<(), AllocError>
        ensures bodies { OnOk result (counts_of self.new ≡ counts_of self.old ++ counted
            (bodies_in (declaration_trees declarations.now))) }
    {
        for declaration in declarations {
            self.declaration(owner, declaration)?;
        }
        Ok(())
    }

    // Goes through a declaration.
    #[cycle(walk)]
    fn declaration(
        &mut self,
        owner: Option<usize>,
        declaration: &Declaration,
    ) -> Result<(), AllocError>
        ensures bodies { OnOk result (counts_of self.new ≡ counts_of self.old ++ counted
            (bodies_in_declaration (declaration_tree declaration.now))) }
    {
        match declaration {
            Declaration::Declare(elements) => {
                add_elements(&mut self.owners, owner, elements.as_slice())
            }
            Declaration::Procedure(procedure) => self.procedure(procedure),
        }
    }

    // Goes through a procedure.
    #[cycle(walk)]
    fn procedure(&mut self, procedure: &Procedure) -> Result<(), AllocError>
        ensures bodies { OnOk result (counts_of self.new ≡ counts_of self.old ++ counted
            (bodies_in_declaration (procedure_parts procedure.now))) }
    {
        let line = procedure.heading.name.place.line;
        let number = self.begin(line)?;
        let mut lines = Vec::new(self.alloc);
        self.block(Some(number), &procedure.body, &mut lines)?;
        self.complete(number, line, lines);
        Ok(())
    }

    // Goes through statements.
    #[cycle(walk)]
    fn statements(
        &mut self,
        owner: Option<usize>,
        statements: &[Statement],
        lines: &mut Vec<u32>,
    ) -> Result<(), AllocError>
        ensures bodies { OnOk result (counts_of self.new ≡ counts_of self.old ++ counted
            (bodies_in_statements (statement_trees statements.now))) }
        ensures lines { OnOk result (length lines.new.items ≡ length lines.old.items
            + count_of_statements (statement_trees statements.now)) }
    {
        for statement in statements {
            self.statement(owner, statement, lines)?;
        }
        Ok(())
    }

    // Goes through a statement, after its labels.
    #[cycle(walk)]
    fn statement(
        &mut self,
        owner: Option<usize>,
        statement: &Statement,
        lines: &mut Vec<u32>,
    ) -> Result<(), AllocError>
        ensures bodies { OnOk result (counts_of self.new ≡ counts_of self.old ++ counted
            (bodies_in_statement (statement_tree statement.now))) }
        ensures lines { OnOk result (length lines.new.items ≡ length lines.old.items
            + count_of_statement (statement_tree statement.now)) }
    {
        add_labels(lines, statement.labels.as_slice())?;
        self.kind(owner, &statement.kind, lines)?;
        lines.push(place_of_kind(&statement.kind).line)?;
        Ok(())
    }

    // Goes through the parts of a statement.
    #[cycle(walk)]
    fn kind(
        &mut self,
        owner: Option<usize>,
        kind: &StatementKind,
        lines: &mut Vec<u32>,
    ) -> Result<(), AllocError>
        ensures bodies { OnOk result (counts_of self.new ≡ counts_of self.old ++ counted
            (bodies_in_kind (kind_tree kind.now))) }
        ensures lines { OnOk result (length lines.new.items ≡ length lines.old.items
            + count_of_parts (kind_tree kind.now)) }
    {
        match kind {
            StatementKind::If(branch) => self.branch(owner, branch, lines),
            StatementKind::Do { block, .. } => self.block(owner, block, lines),
            StatementKind::Loop(turns) => self.statements(owner, turns.body.as_slice(), lines),
            StatementKind::Case(choice) => self.statements(owner, choice.body.as_slice(), lines),
            StatementKind::Null(_)
            | StatementKind::Assignment(_)
            | StatementKind::Call { .. }
            | StatementKind::Return { .. }
            | StatementKind::Halt(_)
            | StatementKind::Goto { .. } => Ok(()),
        }
    }

    // Goes through the statements of an IF.
    #[cycle(walk)]
    fn branch(
        &mut self,
        owner: Option<usize>,
        branch: &IfThen,
        lines: &mut Vec<u32>,
    ) -> Result<(), AllocError>
        ensures bodies { OnOk result (counts_of self.new ≡ counts_of self.old ++ counted
            (bodies_in_kind (if_tree branch.now))) }
        ensures lines { OnOk result (length lines.new.items ≡ length lines.old.items
            + count_of_parts (if_tree branch.now)) }
    {
        self.statement(owner, &branch.body, lines)?;
        match &branch.otherwise {
            Some(otherwise) => self.statement(owner, otherwise, lines),
            None => Ok(()),
        }
    }

    // The lines of the module, from those of its main program.
    fn finish(self, line: u32, main: Vec<u32>) -> Result<SourceLines, AllocError>
        ensures procedures { IfOk result
            (λ lines. length lines.procedures.items ≡ length self.procedures.items) }
        ensures statements { IfOk result (λ lines. length lines.statements.items
            ≡ sum_by lines_of_body self.procedures.items + length main.items) }
    {
        let LineWalk {
            alloc,
            procedures: walked,
            owners,
        } = self;
        let procedures = lines_of_names(alloc, walked.as_slice())?;
        let mut statements = lines_of_bodies(alloc, walked.as_slice())?;
        statements.extend_from_slice(main.as_slice())?;
        Ok(SourceLines {
            module: line,
            procedures,
            statements,
            owners,
        })
    }
}

// The lines of a module.
fn lines_of(alloc: Global, parsed: &Module) -> Result<SourceLines, AllocError>
    ensures { IfOk result (HasLineOfEach (module_tree parsed.now)) }
{
    let mut walk = LineWalk::new(alloc);
    let mut main = Vec::new(alloc);
    walk.block(None, &parsed.body, &mut main)?;
    let lines = walk.finish(parsed.place.line, main)?;
    Ok(lines)
}

// The module of a source.
#[tactic(auto, using(crate::proofs::OneSource::is_short, crate::proofs::OneSource::no_cause))]
fn module_of(alloc: Global, text: &[u8]) -> Result<Module, AllocError>
    requires source { IsSource text.now }
    ensures { IfOk result (λ parsed. IsText text.now (module_tree parsed)) }
{
    match parse_text(alloc, text) {
        Ok(parsed) => Ok(parsed),
        // A source has no fault, so that memory ran out.
        Err(Failure::Memory) => Err(AllocError),
        Err(Failure::Fault(_)) => unreachable!(),
    }
}

/// The lines of a text that is a source: numbers of procedures, statements and objects are those of its typed module. Each
/// procedure and each statement has a line.
pub fn source_lines(alloc: Global, text: &[u8]) -> Result<SourceLines, AllocError>
    requires source { IsSource text.now }
    ensures each { IfOk result (AreLinesOf text.now) }
{
    let parsed = module_of(alloc, text)?;
    let lines = lines_of(alloc, &parsed)?;
    Ok(lines)
}
