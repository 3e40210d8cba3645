//! Object modules read from bytes, and from readers.

ghost use Rattle.std.specs.Prelude.{◌≡◌, ℕ, List, ◌∷◌, ◌++◌, IfOk};
ghost use Rattle.failure.specs.Failure.{IfFault};
ghost use Rattle.object_modules.specs.Module.{IsObjectModule, ObjectModule as ObjectValue};
ghost use Rattle.object_modules.specs.Spelling.{HasFirstFault, Spells};
ghost use Rattle.object_modules.specs.Text.{text_of, with_publics_in_order};
ghost use Rattle.object_modules.specs.internal.Walks.{module_by};
ghost use Rattle.objmod.specs.internal.Keeping.{ContentsFit};
ghost use Rattle.objmod.specs.Streams.{HasReadFault, ReadsModule, TakesSome};

use crate::parts::read_parts;
use failure::Failure;
use object_modules::{Fault, ObjectModule};
use object_reading::{Walk, walk};
use std::alloc::{AllocError, Global};
use std::io;
use std::io::Read;
use thiserror::Error;

/// Why nothing was read from a reader.
#[derive(Clone, Copy, Debug, Error)]
pub enum ReadFault {
    /// The reader failed.
    #[error("a file can't be read")]
    Read,
    /// The bytes are not an object file.
    #[error("{0}")]
    Object(Fault),
}

impl ReadFault {
    ghost use Rattle.std.specs.Prelude.{◌≡◌};
    ghost use Rattle.objmod.specs.Numbers.{read_fault_number};

    /// The number by which the documentation knows the fault.
    pub fn number(&self) -> &'static str
        ensures { result.now ≡ read_fault_number self.now }
    {
        match self {
            ReadFault::Read => "U3",
            ReadFault::Object(fault) => fault.number(),
        }
    }
}

// The module that a walk gives, before it has handed out anything.
fn module_of_walk(alloc: Global, walk: &mut Walk<'_>) -> Result<ObjectModule, AllocError>
    requires object { IsObjectModule (module_by walk.old) }
    requires contents { ContentsFit walk.old }
    ensures { IfOk result (λ object. object ≡ module_by walk.old) }
{
    let parts = read_parts(alloc, walk)?;
    Ok(ObjectModule::from_parts(parts))
}

/// The module that a file spells.
#[tactic(auto, using(crate::proofs::ReadFiles::walk_valid, crate::proofs::ReadFiles::walk_fits, crate::proofs::ReadFiles::told_spells, object_laws::proofs::Texts::WrittenAgain::written_not_refused, object_laws::proofs::Texts::WrittenAgain::more_is_out_of_order))]
pub fn read(alloc: Global, bytes: &[u8]) -> Result<ObjectModule, Failure<Fault>>
    ensures spelled { IfOk result (λ object. Spells bytes.now object) }
    ensures fault { IfFault result (λ fault. HasFirstFault bytes.now fault) }
    ensures none { IfFault result (λ _. (object : ObjectValue) → ¬ Spells bytes.now object) }
    ensures written { (object : ObjectValue) → IsObjectModule object → bytes.now ≡ text_of object
        → IfOk result (λ read. read ≡ with_publics_in_order object) }
    ensures not_refused { (object : ObjectValue) → IsObjectModule object → bytes.now ≡ text_of object
        → IfFault result (λ _. ⊥) }
    ensures after_the_end { (object : ObjectValue) (first : ℕ) (rest : List ℕ) → IsObjectModule object
        → bytes.now ≡ text_of object ++ first ∷ rest → IfFault result (λ fault. fault ≡ Fault.OutOfOrder) }
    ensures ended { (object : ObjectValue) (first : ℕ) (rest : List ℕ) → IsObjectModule object
        → bytes.now ≡ text_of object ++ first ∷ rest → IfOk result (λ _. ⊥) }
{
    let mut file = walk(alloc, bytes)?;
    Ok(module_of_walk(alloc, &mut file)?)
}

/// Reads a module from a reader, to its end.
#[tactic(auto, using(crate::proofs::ReadStreams::reads_fault, crate::proofs::ReadStreams::reads_module, crate::proofs::ReadStreams::takes_some))]
pub fn read_from<R: Read>(alloc: Global, from: &mut R) -> Result<ObjectModule, Failure<ReadFault>>
    ensures spelled { IfOk result (λ object.
        ReadsModule (R.remaining from.old) (R.remaining from.new) object) }
    ensures fault { IfFault result (λ fault.
        HasReadFault (R.remaining from.old) (R.remaining from.new) fault) }
    ensures taken { TakesSome (R.remaining from.old) (R.remaining from.new) }
{
    let mut bytes = Vec::new(alloc);
    match from.read_to_end(&mut bytes) {
        Ok(_) => {}
        Err(error) if error.kind() == io::ErrorKind::OutOfMemory => return Err(Failure::Memory),
        Err(_) => return Err(Failure::Fault(ReadFault::Read)),
    }
    match read(alloc, bytes.as_slice()) {
        Ok(object) => Ok(object),
        Err(Failure::Fault(fault)) => Err(Failure::Fault(ReadFault::Object(fault))),
        Err(Failure::Memory) => Err(Failure::Memory),
    }
}
