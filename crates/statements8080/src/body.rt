//! The bodies of procedures and main programs.

ghost use Rattle.std.specs.Prelude.{◌≡◌};
ghost use Rattle.statements8080.specs.internal.Bodies.{body_label, is_near, whole};

use exprgen8080::LabelNumber;
use frames::FramePlan;
use treecode::{Location, Reference, TreeModule, TreeProcedure};

/// The body of a procedure, or the main program: its module, its frame, and the label of the code for its first label.
#[derive(Clone, Copy)]
pub struct Body<'a> {
    pub tree: &'a TreeModule,
    pub procedure: &'a TreeProcedure,
    pub frame: &'a FramePlan,
    pub first_label: LabelNumber,
}

impl<'a> Body<'a> {
    /// The label of the code for a label of the body, by its number there.
    pub fn label(&self, number: u32) -> LabelNumber
        ensures { result ≡ body_label self.now number }
    {
        LabelNumber {
            index: self.first_label.index.saturating_add(number),
        }
    }

    /// Whether the code loads and stores a word at this location without its address in HL: in memory, or as one of the
    /// two words next to the stack pointer, when nothing is pushed.
    pub fn is_near(&self, location: Option<Location>) -> bool
        ensures { result ≡ is_near self.now location }
    {
        match location {
            Some(Location::Static(_)) => true,
            Some(Location::Frame { variable, offset }) => {
                let distance = self.frame.distance(variable).wrapping_add(offset);
                distance == 0 || distance == 2
            }
            None => false,
        }
    }
}

/// A whole object.
pub fn whole(object: u32) -> Reference
    ensures { result ≡ whole object }
{
    Reference {
        object,
        subscript: None,
        offset: 0,
        member_subscript: None,
    }
}
