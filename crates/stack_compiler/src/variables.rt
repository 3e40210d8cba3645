//! The code of scalars without subscripts.

ghost use Rattle.std.specs.Prelude.{◌≡◌, ◌+◌, ◌%◌};
ghost use Rattle.mem80.specs.declared.memory.TheConstants.{MEMORY_SIZE};
ghost use Rattle.meaning.specs.Access.{address_of, home_of};
ghost use Rattle.stack_code.specs.internal.Code.{surroundings_at, variable_code};
ghost use Rattle.stack_compiler.specs.internal.Purposes.{purpose_view};
ghost use Rattle.stack_compiler.specs.internal.Sites.{site_view};

use crate::purpose::{Purpose, instruction_at, instruction_of_frame, whole_in_frame};
use crate::site::Site;
use mem80::MEMORY_SIZE;
use resolving::Storage;
use stack_code::Instruction;

/// What is done with a scalar without subscripts that is not BASED.
#[tactic(auto, using(crate::proofs::Storages::variable_in_frame, crate::proofs::Storages::variable_with_base, crate::proofs::Storages::variable_in_memory))]
pub(crate) fn variable_code(site: &Site<'_>, purpose: Purpose, object: u32) -> Instruction
    ensures { result ≡ variable_code (site_view site.now) (purpose_view purpose) object }
{
    match site.storage_of(object) {
        Storage::Frame => instruction_of_frame(purpose, whole_in_frame(object)),
        Storage::Base(_) | Storage::Memory => instruction_at(purpose, site.address_of(object)),
    }
}

/// An offset modulo the size of memory.
pub(crate) fn wrapped(offset: u32) -> u16
    ensures { result ≡ offset % MEMORY_SIZE }
{
    (offset % MEMORY_SIZE as u32) as u16
}

/// The address at an offset from the start of an object.
pub(crate) fn address_after(site: &Site<'_>, object: u32, offset: u32) -> u16
    ensures { result ≡ (address_of (surroundings_at (site_view site.now)) object + offset) % MEMORY_SIZE }
{
    let address = site.address_of(object) as u64 + offset as u64;
    (address % MEMORY_SIZE as u64) as u16
}
