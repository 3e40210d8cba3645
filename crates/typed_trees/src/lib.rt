//! Typed trees of PL/M-80 modules: names resolved, each expression with its type, each conversion written out.
#![tactic(auto)]

mod charge;
mod expression;
mod limits;
mod members;
mod module;
mod parts;
mod statement;
mod word;

pub use charge::charge_of;
pub use expression::{TypedExpression, TypedReference, TypedSubscript, TypedTarget};
pub use limits::{CODE_BYTES, CODE_BYTES_FOR_WEIGHT, FRAME_LIMIT, OBJECT_LIMIT, PARAMETER_LIMIT};
pub use members::{FoundMember, Members};
pub use module::{Home, ObjectType, Typed, TypedObject, TypedProcedure};
pub use parts::{
    AtAddress, ConstantItem, GlobalItem, InitialValue, Measure, NumberOrigin, ShiftFunction,
    TypedMember, Visibility,
};
pub use statement::{
    TypedAssignment, TypedCase, TypedHead, TypedIf, TypedIteration, TypedList, TypedLoop,
    TypedMove, TypedStatement,
};
pub use word::Word;
