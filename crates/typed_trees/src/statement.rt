//! Typed statements.

use crate::expression::{TypedExpression, TypedTarget};
use trees::ScalarType;

/// The head of an iterative DO: the variable with its type, to which the first value is converted as it is stored.
pub struct TypedIteration {
    pub variable: u32,
    pub scalar: ScalarType,
    pub first: TypedExpression,
    pub last: TypedExpression,
    pub step: Option<TypedExpression>,
}

/// The head of a loop.
pub enum TypedHead {
    /// WHILE a condition.
    While(TypedExpression),
    /// That of an iterative DO.
    Count(TypedIteration),
}

/// Targets and the value that all of them get.
pub struct TypedAssignment {
    pub targets: Vec<TypedTarget>,
    pub value: TypedExpression,
}

/// The operands of CALL MOVE: the count of bytes, the source and the destination. Each is an ADDRESS.
pub struct TypedMove {
    pub count: TypedExpression,
    pub source: TypedExpression,
    pub destination: TypedExpression,
}

/// A statement.
#[cycle(statement)]
pub enum TypedStatement {
    /// A label, which stands before the statement that it names.
    Label(u32),
    /// `;`
    Null,
    Assignment(Box<TypedAssignment>),
    /// A call of a procedure without a result.
    Call {
        procedure: u32,
        arguments: Vec<TypedExpression>,
    },
    Move(Box<TypedMove>),
    /// RETURN, in a typed procedure with a value of its type.
    Return(Option<Box<TypedExpression>>),
    Halt,
    /// GOTO a label.
    Goto(u32),
    If(Box<TypedIf>),
    /// A simple DO.
    Do(Box<TypedList>),
    /// DO WHILE, or an iterative DO.
    Loop(Box<TypedLoop>),
    Case(Box<TypedCase>),
}

// A module has many statements, so large parts are boxed.
const _: () = prove!(size_of::<TypedStatement>() <= 40);

/// IF a condition THEN a statement ELSE another, if there is one.
#[cycle(statement)]
pub struct TypedIf {
    pub condition: TypedExpression,
    pub body: TypedStatement,
    pub otherwise: Option<TypedStatement>,
}

/// DO WHILE or an iterative DO.
#[cycle(statement)]
pub struct TypedLoop {
    pub head: TypedHead,
    pub body: TypedList,
}

/// DO CASE a number.
#[cycle(statement)]
pub struct TypedCase {
    pub choice: TypedExpression,
    pub body: Vec<TypedStatement>,
}

/// A list of statements that may hold labels, numbered in a row from the first on, each with where it stands in the list.
#[cycle(statement)]
pub struct TypedList {
    pub first_label: u32,
    pub places: Vec<u32>,
    pub statements: Vec<TypedStatement>,
}

// Written out, so that these are freed here, and each crate that frees one calls this.
impl Drop for TypedIteration {
    fn drop(self) {
        let TypedIteration {
            variable: _,
            scalar: _,
            first: _,
            last: _,
            step: _,
        } = self;
    }
}

impl Drop for TypedHead {
    fn drop(self) {
        match self {
            TypedHead::While(_) | TypedHead::Count(_) => {}
        }
    }
}

impl Drop for TypedAssignment {
    fn drop(self) {
        let TypedAssignment {
            targets: _,
            value: _,
        } = self;
    }
}

impl Drop for TypedMove {
    fn drop(self) {
        let TypedMove {
            count: _,
            source: _,
            destination: _,
        } = self;
    }
}

impl Drop for TypedStatement {
    #[cycle(let_go_statement)]
    fn drop(self) {
        match self {
            TypedStatement::Label(_)
            | TypedStatement::Null
            | TypedStatement::Assignment(_)
            | TypedStatement::Call {
                procedure: _,
                arguments: _,
            }
            | TypedStatement::Move(_)
            | TypedStatement::Return(_)
            | TypedStatement::Halt
            | TypedStatement::Goto(_)
            | TypedStatement::If(_)
            | TypedStatement::Do(_)
            | TypedStatement::Loop(_)
            | TypedStatement::Case(_) => {}
        }
    }
}

impl Drop for TypedIf {
    #[cycle(let_go_statement)]
    fn drop(self) {
        let TypedIf {
            condition: _,
            body: _,
            otherwise: _,
        } = self;
    }
}

impl Drop for TypedLoop {
    #[cycle(let_go_statement)]
    fn drop(self) {
        let TypedLoop { head: _, body: _ } = self;
    }
}

impl Drop for TypedCase {
    #[cycle(let_go_statement)]
    fn drop(self) {
        let TypedCase { choice: _, body: _ } = self;
    }
}

impl Drop for TypedList {
    #[cycle(let_go_statement)]
    fn drop(self) {
        let TypedList {
            first_label: _,
            places: _,
            statements: _,
        } = self;
    }
}
