//! Tree code: the trees of a typed module as numbered nodes, with a place for each object.
#![tactic(auto)]

mod contents;
mod effects;
mod expression;
mod expressions;
mod freedom;
mod globals;
mod heights;
mod homes;
mod keeping;
mod known;
mod lists;
mod lowering;
mod memory;
mod module;
mod numbers;
mod place;
mod procedure;
mod procedures;
mod reference;
mod statement;
mod statements;
mod stored;
mod traits;

pub use expression::{Expression, ExpressionForm, ExpressionNumber};
pub use keeping::keeps_of_address;
pub use lists::Range;
pub use lowering::lower;
pub use module::{Content, ExternalName, PublicName, PublicPlace, TreeModule};
pub use place::{Home, Location, Place};
pub use procedure::{FrameVariable, Parameter, ProcedureKind, TreeProcedure};
pub use reference::{Reference, Subscript, Target};
pub use statement::{Iteration, LoopHead, Statement, StatementNumber};
pub use traits::{Keeps, Traits};
