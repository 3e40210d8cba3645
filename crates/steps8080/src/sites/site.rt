//! Sites of code.

ghost use Rattle.std.specs.Prelude.{◌≡◌};
ghost use Rattle.steps8080.specs.internal.Site.{distance, expression, scalar};

use crate::Facts;
use frames::FramePlan;
use treecode::{Expression, ExpressionNumber, TreeModule};
use trees::ScalarType;

/// A site of code: its module, the frame of the procedure that it is in, and the facts about the registers.
#[derive(Clone, Copy)]
pub struct Site<'a> {
    pub tree: &'a TreeModule,
    pub frame: &'a FramePlan,
    pub facts: Facts,
}

impl<'a> Site<'a> {
    /// The expression with this number, if any.
    #[tactic(auto, unfolding(crate::specs::internal::Site::expression))]
    pub fn expression(&self, number: ExpressionNumber) -> Option<Expression>
        ensures { result ≡ expression self.now number }
    {
        self.tree.expression(number)
    }

    /// The type of an expression.
    pub fn scalar(&self, number: ExpressionNumber) -> ScalarType
        ensures { result ≡ scalar self.now number }
    {
        self.tree.traits(number).scalar
    }

    /// The distance from the stack pointer up to a byte of a variable or parameter in the frame, when `pushed` bytes
    /// are pushed.
    #[tactic(auto, unfolding(crate::specs::internal::Site::distance))]
    pub fn distance(&self, variable: u16, offset: u16, pushed: u16) -> u16
        ensures { result ≡ distance self.now variable offset pushed }
    {
        self.frame
            .distance(variable)
            .wrapping_add(offset)
            .wrapping_add(pushed)
    }
}
