//! Traits of an expression, stored so that its parts need not be visited again.

ghost use Rattle.std.specs.Prelude.{◌≡◌};
ghost use Rattle.treecode.specs.internal.Nodes.{nodes_of};
ghost use Rattle.treecode.specs.internal.Traits.{traits_of};

use crate::effects::{is_quiet, stores_nothing};
use crate::expression::ExpressionForm;
use crate::freedom::is_free;
use crate::heights::height_of;
use crate::keeping::keeps_of;
use crate::known::known_value;
use crate::module::TreeModule;
use crate::place::Place;
use trees::ScalarType;

/// The registers that code keeps while it puts a value, or the address of an object, into HL. A register that is not
/// kept may hold anything afterwards.
#[derive(Clone, Copy)]
pub struct Keeps {
    pub a: bool,
    pub de: bool,
}

/// The traits of an expression.
#[derive(Clone, Copy)]
pub struct Traits {
    /// Its value, exact in its type, if it is known as a number or a relocatable address.
    pub known: Option<Place>,
    /// Its height, as the stack charge counts it; 65,535 if that is more.
    pub height: u16,
    /// The type of its value.
    pub scalar: ScalarType,
    /// It calls nothing, stores nothing and reads no port: evaluating it changes nothing.
    pub is_quiet: bool,
    /// It calls nothing and stores nothing.
    pub stores_nothing: bool,
    /// Code that changes only A and the flags can put its low byte into A.
    pub is_free: bool,
    /// The registers that the code putting its value into HL keeps.
    pub keeps: Keeps,
}

impl Keeps {
    ghost use Rattle.std.specs.Prelude.{◌≡◌};
    ghost use Rattle.treecode.specs.internal.Traits.{keeps_both, keeps_none};

    /// Both registers are kept.
    pub(crate) fn both() -> Keeps
        ensures { result ≡ keeps_both }
    {
        Keeps { a: true, de: true }
    }

    /// No register is kept.
    pub(crate) fn none() -> Keeps
        ensures { result ≡ keeps_none }
    {
        Keeps {
            a: false,
            de: false,
        }
    }
}

impl Traits {
    ghost use Rattle.std.specs.Prelude.{◌≡◌};
    ghost use Rattle.treecode.specs.internal.Traits.{no_traits};

    /// Nothing is known.
    pub(crate) fn none() -> Traits
        ensures { result ≡ no_traits }
    {
        Traits {
            scalar: ScalarType::Byte,
            known: None,
            is_quiet: false,
            stores_nothing: false,
            is_free: false,
            keeps: Keeps::none(),
            height: 0,
        }
    }
}

/// The traits of an expression of this type and form. Its parts have been added to the module.
#[tactic(auto, unfolding(crate::specs::internal::Traits::traits_of))]
pub(crate) fn traits_of(tree: &TreeModule, scalar: ScalarType, form: &ExpressionForm) -> Traits
    ensures { result ≡ traits_of (nodes_of tree.now) scalar form.now }
{
    let known = known_value(tree, scalar, form);
    Traits {
        scalar,
        known,
        is_quiet: is_quiet(tree, form),
        stores_nothing: stores_nothing(tree, form),
        is_free: is_free(tree, scalar, known, form),
        keeps: keeps_of(tree, scalar, known, form),
        height: height_of(tree, form),
    }
}
