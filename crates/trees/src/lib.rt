//! The trees of PL/M-80 modules.
#![tactic(auto)]

mod declaration;
mod expression;
mod functions;
mod identifier;
mod module;
mod numbers;
mod statement;

pub use declaration::{
    At, Definition, Dimension, Element, Item, ItemType, Linkage, Member, Offset, Origin,
    Restricted, ScalarType, Sign, Storage, Subject, ValueList,
};
pub use expression::{BinaryOperator, Expression, Reference, Selector, UnaryOperator};
pub use functions::{ByteOfValue, UnaryFunction};
pub use identifier::{Constant, Identifier, Number, Place, StringLiteral};
pub use module::Module;
pub use numbers::next_number;
pub use statement::{
    Assignment, Block, Declaration, DoCase, Heading, IfThen, Iteration, Loop, LoopHead, Procedure,
    Statement, StatementKind,
};
pub use symbols::Name;
