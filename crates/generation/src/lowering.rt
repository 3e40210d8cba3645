//! Tree code of a typed module, with what is known of it.
#![tactic(auto)]

ghost use Rattle.std.specs.Prelude.{IfOk};
ghost use Rattle.typed_trees.specs.Views.{module_view};
ghost use Rattle.layout.specs.Sound.{IsSoundlyTyped};
ghost use Rattle.layout.specs.Views.{layout_view};
ghost use Rattle.treecode.specs.internal.Lowered.{IsLowered};
ghost use Rattle.codegen8080.specs.internal.Sources.{IsOfModule};
ghost use Rattle.codegen8080.specs.internal.Standing.{BodiesStand};
ghost use Rattle.generation.specs.internal.TreeCode.{KeepsModule, KeepsNames};

use layout::Layout;
use std::alloc::{AllocError, Global};
use treecode::TreeModule;
use typed_trees::Typed;

/// A typed module as tree code, with its objects where its storage has them. Where the module is soundly typed and this is
/// its storage, the tree code has the charges of the module and its code bound, and all code that is generated of it does
/// on the machine what the module says. Where the PUBLIC and EXTERNAL names of the module differ from one another, the tree
/// code can have an object module.
#[tactic(auto, using(crate::proofs::TreeCode::keeps_result, crate::proofs::Linkable::keeps_names, codegen8080::proofs::LoweredStand::stands_result, crate::proofs::TreeCode::source_result))]
pub fn lower(alloc: Global, typed: &Typed, storage: &Layout) -> Result<TreeModule, AllocError>
    requires sound { IsSoundlyTyped (module_view typed.now) }
    ensures lowered { IfOk result (IsLowered (module_view typed.now) (layout_view storage.now)) }
    ensures stand { IfOk result BodiesStand }
    ensures names { IfOk result (KeepsNames (module_view typed.now)) }
    ensures source { IfOk result IsOfModule }
    ensures keeps { IfOk result (KeepsModule (module_view typed.now) (layout_view storage.now)) }
{
    treecode::lower(alloc, typed, storage)
}
