//! The planned code of statements.
#![tactic(auto)]

mod assignment;
mod body;
mod bound;
mod branching;
mod case;
mod iteration;
mod moving;
mod plan;
mod same;

pub use assignment::{plan_assignment, plan_single};
pub use body::{Body, whole};
pub use bound::{Test, facts_of_test, plan_test, test_of};
pub use branching::{plan_if, plan_loop};
pub use case::plan_case;
pub use iteration::{Counter, plan_less};
pub use moving::plan_move;
pub use plan::{Plan, Planned};
pub use same::are_same;
