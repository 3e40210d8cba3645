//! Modules with what their uses of names are bound to.

ghost use Rattle.std.specs.Prelude.{◌≡◌, IfOk};
ghost use Rattle.failure.specs.Failure.{IfFault};
ghost use Rattle.trees.specs.internal.Views.{module_tree};
ghost use Rattle.names.specs.internal.Binding.{IsBinding, IsFirstFault};

use crate::binder::Binder;
use crate::{Binding, Fault};
use failure::Failure;
use std::alloc::Global;
use trees::Module;

/// A module, and what each use of a name in it is bound to, in the order of the text. Names of members and names after
/// END are not uses.
pub struct Bound {
    pub parsed: Module,
    pub bindings: Vec<Binding>,
}

/// Binds each use of a name in a module to its entity. Refuses a name that is not known where it is used, and one
/// that is declared where it may not be declared again, the first of these in the text.
pub fn bind(alloc: Global, parsed: Module) -> Result<Bound, Failure<Fault>>
    ensures ok { IfOk result (λ bound. IsBinding (module_tree parsed) bound.bindings.items) }
    ensures kept { IfOk result (λ bound. bound.parsed ≡ parsed) }
    ensures fault { IfFault result (IsFirstFault (module_tree parsed)) }
{
    let bindings = bindings_of(alloc, &parsed)?;
    Ok(Bound { parsed, bindings })
}

// The bindings of the uses of names in a module.
fn bindings_of(alloc: Global, parsed: &Module) -> Result<Vec<Binding>, Failure<Fault>>
    ensures ok { IfOk result (λ bindings. IsBinding (module_tree parsed.now) bindings.items) }
    ensures fault { IfFault result (IsFirstFault (module_tree parsed.now)) }
{
    let mut binder = Binder::new(alloc);
    binder.module(&parsed.body)?;
    Ok(binder.into_bindings())
}

// Written out, so that it is freed here, and each crate that frees one calls this.
impl Drop for Bound {
    fn drop(self) {
        let Bound {
            parsed: _,
            bindings: _,
        } = self;
    }
}
