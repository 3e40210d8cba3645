//! Statements, declarations and procedures. If memory runs out for one, its parts are dropped.

use crate::declaration::{Element, Linkage, ScalarType};
use crate::expression::{Expression, Reference, Selector};
use crate::identifier::{Identifier, Place};
use std::alloc::{AllocError, Global};

/// The head of an iterative DO: `variable = first TO last [BY step]`.
pub struct Iteration {
    pub variable: Identifier,
    pub first: Expression,
    pub last: Expression,
    pub step: Option<Expression>,
}

/// The head of a loop, between DO and the semicolon.
pub enum LoopHead {
    /// WHILE a condition.
    While(Expression),
    /// That of an iterative DO.
    Count(Iteration),
}

/// The targets of an assignment, and the value that they get.
pub struct Assignment {
    pub target: Reference,
    /// The targets after the first.
    pub others: Vec<Reference>,
    pub value: Expression,
}

/// A statement with the labels before it.
#[cycle(statement)]
pub struct Statement {
    pub labels: Vec<Identifier>,
    pub kind: StatementKind,
}

/// A statement without its labels.
#[cycle(statement)]
pub enum StatementKind {
    /// `;`, with where it stands.
    Null(Place),
    /// Targets and the value that they get.
    Assignment(Box<Assignment>),
    /// CALL, with where the word stands.
    Call {
        place: Place,
        procedure: Box<Selector>,
    },
    /// RETURN, with where the word stands, and a value, if there is one.
    Return {
        place: Place,
        value: Option<Box<Expression>>,
    },
    /// HALT, with where the word stands.
    Halt(Place),
    /// GOTO, with where the word stands, and the label that it goes to.
    Goto {
        place: Place,
        label: Box<Identifier>,
    },
    /// IF
    If(Box<IfThen>),
    /// A simple DO, with where the word stands.
    Do {
        place: Place,
        block: Box<Block>,
    },
    /// DO WHILE, or an iterative DO.
    Loop(Box<Loop>),
    /// DO CASE
    Case(Box<DoCase>),
}

// A module has many statements, so large parts are boxed.
const _: () = prove!(size_of::<StatementKind>() <= 32);

const _: () = prove!(size_of::<Statement>() <= 56);

/// IF a condition THEN a statement ELSE another, if there is one, with where the word IF stands.
#[cycle(statement)]
pub struct IfThen {
    pub place: Place,
    pub condition: Expression,
    pub body: Statement,
    pub otherwise: Option<Statement>,
}

/// DO WHILE or an iterative DO, with where the word DO stands.
#[cycle(statement)]
pub struct Loop {
    pub place: Place,
    pub head: LoopHead,
    pub body: Vec<Statement>,
}

/// DO CASE a number, with where the word DO stands.
#[cycle(statement)]
pub struct DoCase {
    pub place: Place,
    pub choice: Expression,
    pub body: Vec<Statement>,
}

impl Statement {
    ghost use Rattle.std.specs.Prelude.{◌≡◌};
    ghost use Rattle.trees.specs.Trees.{LabelledStatement};
    ghost use Rattle.trees.specs.internal.Views.{kind_tree, statement_tree};

    /// A statement with these labels before it, in their order.
    pub fn new(labels: Vec<Identifier>, kind: StatementKind) -> Statement
        ensures view { statement_tree result ≡ LabelledStatement labels.items (kind_tree kind) }
    {
        Statement { labels, kind }
    }
}

impl StatementKind {
    ghost use Rattle.std.specs.Prelude.{◌≡◌};
    ghost use Rattle.std.specs.Option.{option_map};
    ghost use Rattle.trees.specs.Trees.{NullStatement, AssignmentStatement, CallStatement, ReturnStatement};
    ghost use Rattle.trees.specs.Trees.{HaltStatement, GotoStatement, IfStatement, DoStatement, LoopStatement};
    ghost use Rattle.trees.specs.Trees.{CaseStatement};
    ghost use Rattle.trees.specs.internal.Views.{MakesKind, target_trees, argument_trees, expression_tree, head_tree};
    ghost use Rattle.trees.specs.internal.Views.{else_tree, kind_tree, statement_tree, statement_trees};
    ghost use Rattle.trees.specs.internal.Views.{block_declarations, block_statements};

    /// `;`
    pub fn null(place: Place) -> StatementKind
        ensures view { kind_tree result ≡ NullStatement place }
    {
        StatementKind::Null(place)
    }

    /// The first target, the others after it, and the value that they get.
    pub fn assignment(
        alloc: Global,
        first: Reference,
        others: Vec<Reference>,
        value: Expression,
    ) -> Result<StatementKind, AllocError>
        ensures view { MakesKind result
            (AssignmentStatement (target_trees first others.items) (expression_tree value)) }
    {
        let assignment = Assignment {
            target: first,
            others,
            value,
        };
        Ok(StatementKind::Assignment(Box::new(alloc, assignment)?))
    }

    /// CALL and a procedure with its arguments.
    pub fn call(
        alloc: Global,
        place: Place,
        procedure: Selector,
    ) -> Result<StatementKind, AllocError>
        ensures view { MakesKind result
            (CallStatement place procedure.name (argument_trees procedure.arguments.items)) }
    {
        let procedure = Box::new(alloc, procedure)?;
        Ok(StatementKind::Call { place, procedure })
    }

    /// RETURN, and a value, if there is one.
    pub fn return_value(
        alloc: Global,
        place: Place,
        value: Option<Expression>,
    ) -> Result<StatementKind, AllocError>
        ensures view { MakesKind result (ReturnStatement place (option_map expression_tree value)) }
    {
        let value = match value {
            Some(expression) => Some(Box::new(alloc, expression)?),
            None => None,
        };
        Ok(StatementKind::Return { place, value })
    }

    /// HALT
    pub fn halt(place: Place) -> StatementKind
        ensures view { kind_tree result ≡ HaltStatement place }
    {
        StatementKind::Halt(place)
    }

    /// GOTO a label.
    pub fn goto(alloc: Global, place: Place, label: Identifier) -> Result<StatementKind, AllocError>
        ensures view { MakesKind result (GotoStatement place label) }
    {
        let label = Box::new(alloc, label)?;
        Ok(StatementKind::Goto { place, label })
    }

    /// IF a condition THEN a statement ELSE another, if there is one.
    pub fn if_then(
        alloc: Global,
        place: Place,
        condition: Expression,
        body: Statement,
        otherwise: Option<Statement>,
    ) -> Result<StatementKind, AllocError>
        ensures view { MakesKind result
            (IfStatement place (expression_tree condition) (statement_tree body) (else_tree otherwise)) }
    {
        let statement = IfThen {
            place,
            condition,
            body,
            otherwise,
        };
        Ok(StatementKind::If(Box::new(alloc, statement)?))
    }

    /// A simple DO.
    #[tactic(auto, using(crate::specs::declared::statement::StatementKind::the_lemmas, crate::proofs::Views::statement_rows_are, crate::proofs::Views::declaration_rows_are))]
    pub fn simple_do(alloc: Global, place: Place, block: Block) -> Result<StatementKind, AllocError>
        ensures view { MakesKind result
            (DoStatement place (block_declarations block) (block_statements block)) }
    {
        let block = Box::new(alloc, block)?;
        Ok(StatementKind::Do { place, block })
    }

    /// DO WHILE or an iterative DO, by its head.
    #[tactic(auto, using(crate::specs::declared::statement::StatementKind::the_lemmas, crate::proofs::Views::statement_rows_are))]
    pub fn do_loop(
        alloc: Global,
        place: Place,
        head: LoopHead,
        body: Vec<Statement>,
    ) -> Result<StatementKind, AllocError>
        ensures view { MakesKind result (LoopStatement place (head_tree head) (statement_trees body.items)) }
    {
        let statement = Loop { place, head, body };
        Ok(StatementKind::Loop(Box::new(alloc, statement)?))
    }

    /// DO CASE a number.
    #[tactic(auto, using(crate::specs::declared::statement::StatementKind::the_lemmas, crate::proofs::Views::statement_rows_are))]
    pub fn do_case(
        alloc: Global,
        place: Place,
        choice: Expression,
        body: Vec<Statement>,
    ) -> Result<StatementKind, AllocError>
        ensures view { MakesKind result
            (CaseStatement place (expression_tree choice) (statement_trees body.items)) }
    {
        let statement = DoCase {
            place,
            choice,
            body,
        };
        Ok(StatementKind::Case(Box::new(alloc, statement)?))
    }
}

/// Declarations, and then statements.
#[cycle(statement)]
pub struct Block {
    pub declarations: Vec<Declaration>,
    pub statements: Vec<Statement>,
}

/// A declaration.
#[cycle(statement)]
pub enum Declaration {
    /// DECLARE, with at least one element.
    Declare(Vec<Element>),
    Procedure(Box<Procedure>),
}

impl Declaration {
    ghost use Rattle.std.specs.Prelude.{◌≡◌, map, IfOk};
    ghost use Rattle.trees.specs.Trees.{DeclareTree};
    ghost use Rattle.trees.specs.internal.Views.{element_tree, declaration_tree, procedure_tree};

    /// DECLARE and its elements.
    pub fn declare(elements: Vec<Element>) -> Declaration
        ensures view { declaration_tree result ≡ DeclareTree (map element_tree elements.items) }
    {
        Declaration::Declare(elements)
    }

    /// A procedure, with the name after its END, if there is one.
    #[tactic(auto, using(crate::specs::declared::statement::Declaration::the_lemmas, crate::proofs::Views::statement_rows_are, crate::proofs::Views::declaration_rows_are))]
    pub fn procedure(
        alloc: Global,
        heading: Heading,
        body: Block,
        end_name: Option<Identifier>,
    ) -> Result<Declaration, AllocError>
        ensures view { IfOk result (λ made. declaration_tree made ≡ procedure_tree heading body end_name) }
    {
        let procedure = Procedure {
            heading,
            body,
            end_name,
        };
        Ok(Declaration::Procedure(Box::new(alloc, procedure)?))
    }
}

/// The heading of a procedure. No parentheses are an empty list of parameters.
pub struct Heading {
    pub name: Identifier,
    pub parameters: Vec<Identifier>,
    pub result: Option<ScalarType>,
    pub linkage: Option<Linkage>,
    /// Where the word REENTRANT stands, if it does.
    pub reentrant: Option<Place>,
}

/// A procedure, with the name after its END, if there is one.
#[cycle(statement)]
pub struct Procedure {
    pub heading: Heading,
    pub body: Block,
    pub end_name: Option<Identifier>,
}

// Written out, so that these are freed here, and each crate that frees one calls this.
impl Drop for Iteration {
    fn drop(self) {
        let Iteration {
            variable: _,
            first: _,
            last: _,
            step: _,
        } = self;
    }
}

impl Drop for LoopHead {
    fn drop(self) {
        match self {
            LoopHead::While(_) | LoopHead::Count(_) => {}
        }
    }
}

impl Drop for Assignment {
    fn drop(self) {
        let Assignment {
            target: _,
            others: _,
            value: _,
        } = self;
    }
}

impl Drop for Statement {
    #[cycle(let_go_statement)]
    fn drop(self) {
        let Statement { labels: _, kind: _ } = self;
    }
}

impl Drop for StatementKind {
    #[cycle(let_go_statement)]
    fn drop(self) {
        match self {
            StatementKind::Null(_)
            | StatementKind::Assignment(_)
            | StatementKind::Call {
                place: _,
                procedure: _,
            }
            | StatementKind::Return { place: _, value: _ }
            | StatementKind::Halt(_)
            | StatementKind::Goto { place: _, label: _ }
            | StatementKind::If(_)
            | StatementKind::Do { place: _, block: _ }
            | StatementKind::Loop(_)
            | StatementKind::Case(_) => {}
        }
    }
}

impl Drop for IfThen {
    #[cycle(let_go_statement)]
    fn drop(self) {
        let IfThen {
            place: _,
            condition: _,
            body: _,
            otherwise: _,
        } = self;
    }
}

impl Drop for Loop {
    #[cycle(let_go_statement)]
    fn drop(self) {
        let Loop {
            place: _,
            head: _,
            body: _,
        } = self;
    }
}

impl Drop for DoCase {
    #[cycle(let_go_statement)]
    fn drop(self) {
        let DoCase {
            place: _,
            choice: _,
            body: _,
        } = self;
    }
}

impl Drop for Block {
    #[cycle(let_go_statement)]
    fn drop(self) {
        let Block {
            declarations: _,
            statements: _,
        } = self;
    }
}

impl Drop for Declaration {
    #[cycle(let_go_statement)]
    fn drop(self) {
        match self {
            Declaration::Declare(_) | Declaration::Procedure(_) => {}
        }
    }
}

impl Drop for Heading {
    fn drop(self) {
        let Heading {
            name: _,
            parameters: _,
            result: _,
            linkage: _,
            reentrant: _,
        } = self;
    }
}

impl Drop for Procedure {
    #[cycle(let_go_statement)]
    fn drop(self) {
        let Procedure {
            heading: _,
            body: _,
            end_name: _,
        } = self;
    }
}
