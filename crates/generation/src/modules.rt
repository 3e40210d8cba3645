//! Object modules of tree code, with what is known of their code.
#![tactic(auto)]

ghost use Rattle.std.specs.Prelude.{IfOk};
ghost use Rattle.failure.specs.Failure.{IfFault};
ghost use Rattle.treecode.specs.internal.Nodes.{nodes_of};
ghost use Rattle.treecode.specs.internal.Rising.{NumbersRise};
ghost use Rattle.codegen8080.specs.internal.Sources.{IsOfModule};
ghost use Rattle.codegen8080.specs.internal.Standing.{BodiesStand};
ghost use Rattle.codegen8080.specs.internal.Modules.{IsGenerated};
ghost use Rattle.codegen8080.specs.internal.Marking.{AreMarksOf};
ghost use Rattle.generation.specs.ModuleMarks.{LieInModule};
ghost use Rattle.codegen8080.specs.internal.Names.{IsLinkable};
ghost use Rattle.codegen8080.specs.internal.Refusals.{MayRefuse};
ghost use Rattle.image_laws.specs.Objects.{IsObjectOf};
ghost use Rattle.image_laws.specs.Segments.{HasSegments};
ghost use Rattle.image_laws.specs.Names.{HasNames};
ghost use Rattle.program_laws.specs.OneModule.{DoesWhereItLies};
ghost use Rattle.program_laws.specs.internal.Typed.{IsSoundlyMade};
ghost use Rattle.generation.specs.internal.Measured.{IsPastBound, IsWithinBound};
ghost use Rattle.generation.specs.internal.Modules.{IsCounted, MakesNone, OfItsModule};

use codegen8080::{Fault, Generated};
use failure::Failure;
use std::alloc::Global;
use treecode::TreeModule;

/// The object module of a module: its constants and its code in the code segment, its variables in the data segment, its
/// PUBLIC names, and the EXTERNAL names that it refers to; and the marks of its code. Wherever it lies, its procedures and its
/// main program do on the machine what the module says, by what calls do. The code segment is within the code bound of the
/// module, and the code of each body pushes no more bytes than the charge of its procedure leaves. Refuses a module whose
/// storage fits for its length (G1) only where that bound passes 65535.
#[tactic(auto, using(crate::proofs::Contract::soundly_made, crate::proofs::Contract::code_does, crate::proofs::Contract::object_is, crate::proofs::Contract::segments_are, crate::proofs::Contract::names_are, crate::proofs::Counting::counted, crate::proofs::Lying::lie_in_module, crate::proofs::Bounding::within_bound, crate::proofs::Bounding::refusal_past_bound, crate::proofs::Bounding::refusal_makes_none))]
pub fn generate(alloc: Global, tree: &TreeModule) -> Result<Generated, Failure<Fault>>
    requires rise { NumbersRise (nodes_of tree.now) }
    requires stands { BodiesStand tree.now }
    requires linkable { IsLinkable tree.now }
    requires source { IsOfModule tree.now }
    ensures made { IfOk result (λ generated. IsGenerated tree.now generated.object) }
    ensures sound { IfOk result (λ generated. OfItsModule tree.now IsSoundlyMade generated.object) }
    ensures does { IfOk result (λ generated. OfItsModule tree.now DoesWhereItLies generated.object) }
    ensures object { IfOk result (λ generated. OfItsModule tree.now IsObjectOf generated.object) }
    ensures segments { IfOk result (λ generated. OfItsModule tree.now HasSegments generated.object) }
    ensures names { IfOk result (λ generated. OfItsModule tree.now HasNames generated.object) }
    ensures counted { IfOk result (λ generated. OfItsModule tree.now (IsCounted tree.now) generated.object) }
    ensures bound { IfOk result (λ generated. IsWithinBound tree.now generated.object) }
    ensures marked { IfOk result
        (λ generated. AreMarksOf tree.now generated.marks.parts.items generated.marks.procedures.items) }
    ensures lie { IfOk result
        (λ generated. OfItsModule tree.now (LieInModule generated.marks) generated.object) }
    ensures refused { IfFault result (λ fault. MayRefuse tree.now fault) }
    ensures past { IfFault result (λ fault. IsPastBound tree.now fault) }
    ensures not_made { IfFault result (λ fault. MakesNone tree.now fault) }
{
    codegen8080::generate(alloc, tree)
}
