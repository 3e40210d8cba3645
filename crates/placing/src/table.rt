//! What each byte of memory is to a program.

ghost use Rattle.std.specs.Prelude.{◌≡◌, ◌<◌, ℕ, flat_map, map, slice_index_or, zip, IfOk};
ghost use Rattle.mem80.specs.declared.memory.TheConstants.{MEMORY_SIZE};
ghost use Rattle.typed_trees.specs.Views.{module_view};
ghost use Rattle.layout.specs.Placement.{pieces_of, pieces_of_module};
ghost use Rattle.join.specs.Views.{modules_of};
ghost use Rattle.placing.specs.internal.Tables.{IsTableOf};
ghost use Rattle.placing.specs.Views.{module_placement_view, placement_view};
ghost use Rattle.placing.specs.internal.Reaches.{byte_kind, kind_in};

use crate::placement::{ModulePlacement, Placement};
use crate::reaches::Reaches;
use join::Joined;
use mem80::MEMORY_SIZE;
use std::alloc::{AllocError, Global};
use typed_trees::Typed;

/// The kind of a byte of memory to a program.
#[derive(Clone, Copy)]
pub enum ByteKind {
    /// Nothing declared has it.
    Undeclared,
    /// A variable has it, and no constant.
    Writable,
    /// An object with DATA or a constant list has it.
    Constant,
}

/// The kind of each byte of memory to a program at its placement.
#[derive(Drop)]
pub struct ByteKinds {
    kinds: Box<[ByteKind; MEMORY_SIZE]>,
}

// The kind of a byte, by whether a piece has it and whether a constant has it.
fn byte_kind(is_declared: bool, is_constant: bool) -> ByteKind
    ensures { result ≡ byte_kind is_declared is_constant }
{
    if is_constant {
        ByteKind::Constant
    } else if is_declared {
        ByteKind::Writable
    } else {
        ByteKind::Undeclared
    }
}

// Sets the kind of each byte, in one pass over memory: a piece has a byte if one that starts there or below reaches past it.
fn fill(kinds: &mut [ByteKind; MEMORY_SIZE], reaches: &Reaches)
    ensures { (address : ℕ) → address < MEMORY_SIZE
        → slice_index_or kinds.new address ByteKind.Undeclared ≡ kind_in reaches.now address }
{
    let mut declared: u32 = 0;
    let mut constant: u32 = 0;
    for address in 0..MEMORY_SIZE {
        declared = declared.max(reaches.end_of_all(address));
        constant = constant.max(reaches.end_of_constants(address));
        kinds[address] = byte_kind(address < declared as usize, address < constant as usize);
    }
}

// The kind of each byte of memory, with modules at these addresses.
fn kinds_of(
    alloc: Global,
    modules: &[Typed],
    placed: &[ModulePlacement],
) -> Result<Box<[ByteKind; MEMORY_SIZE]>, AllocError>
    ensures { IfOk result (λ kinds. IsTableOf
        (flat_map pieces_of_module (zip (map module_view modules.now) (map module_placement_view placed.now)))
        kinds.value) }
{
    let mut reaches = Reaches::new(alloc)?;
    reaches.add_modules(modules, placed);
    let mut kinds = Box::new(alloc, [ByteKind::Undeclared; MEMORY_SIZE])?;
    fill(&mut *kinds, &reaches);
    Ok(kinds)
}

impl ByteKinds {
    /// The kinds of the bytes of memory to a program at a placement. Fails if memory runs out.
    pub fn new(
        alloc: Global,
        joined: &Joined,
        placement: &Placement,
    ) -> Result<ByteKinds, AllocError>
        ensures { IfOk result (λ table.
            IsTableOf (pieces_of (map module_view (modules_of joined.now)) (placement_view placement.now))
            table.kinds.value) }
    {
        let kinds = kinds_of(alloc, joined.modules(), placement.modules())?;
        Ok(ByteKinds { kinds })
    }

    /// The kind of the byte at an address.
    pub fn kind_at(&self, address: u16) -> ByteKind
        ensures { result ≡ slice_index_or (self.now).kinds.value address ByteKind.Undeclared }
    {
        self.kinds[address as usize]
    }
}
