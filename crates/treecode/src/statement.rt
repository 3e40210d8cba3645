//! Statements as numbered nodes.

use crate::expression::ExpressionNumber;
use crate::lists::Range;
use trees::ScalarType;

/// The number of a statement in its module. Each part of a statement has a lower number than the whole.
#[derive(Clone, Copy)]
pub struct StatementNumber {
    pub index: u32,
}

/// The head of an iterative DO. The variable is a whole scalar of the type `scalar`, by its object's number; storing
/// the first value converts it to that type.
#[derive(Clone, Copy)]
pub struct Iteration {
    pub variable: u32,
    pub scalar: ScalarType,
    pub first: ExpressionNumber,
    pub last: ExpressionNumber,
    pub step: Option<ExpressionNumber>,
}

/// The head of a loop: the condition of a DO WHILE, or the head of an iterative DO.
#[derive(Clone, Copy)]
pub enum LoopHead {
    While(ExpressionNumber),
    Count(Iteration),
}

/// A statement. Lists of statements are in the module's table of lists, targets in its table of targets, arguments in
/// its table of arguments.
#[derive(Clone, Copy)]
pub enum Statement {
    /// A label of the procedure, by its number there. It comes before the statement that it labels.
    Label(u32),
    /// `;`
    Null,
    /// Assigns one value to all targets.
    Assignment {
        targets: Range,
        value: ExpressionNumber,
    },
    /// A call of a procedure without a result, by its number in the module.
    Call {
        procedure: u32,
        arguments: Range,
    },
    /// CALL MOVE: the number of bytes, the source and the destination. Each is an ADDRESS.
    Move {
        count: ExpressionNumber,
        source: ExpressionNumber,
        destination: ExpressionNumber,
    },
    /// RETURN, in a typed procedure with a value of its type.
    Return(Option<ExpressionNumber>),
    Halt,
    /// GOTO a label of the procedure, by its number there.
    Goto(u32),
    If {
        condition: ExpressionNumber,
        body: StatementNumber,
        otherwise: Option<StatementNumber>,
    },
    /// A simple DO, with its list.
    Do(Range),
    /// DO WHILE or an iterative DO, with its list.
    Loop {
        head: LoopHead,
        body: Range,
    },
    /// DO CASE, with its statements.
    Case {
        choice: ExpressionNumber,
        body: Range,
    },
}

// A module has many statements, so each must be small.
const _: () = prove!(size_of::<Statement>() <= 40);
