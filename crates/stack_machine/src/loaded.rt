//! A program that is loaded.

use declared::{FrameSlots, read_scalar, write_scalar};
use join::Joined;
use meaning::Reason;
use mem80::Memory;
use placing::{ByteKinds, Placement};
use stack_code::{Instruction, ModuleTable};
use trees::ScalarType;

/// What a run reads and never changes: the program, where it lies, the slots of its frames, its code with the tables, and what
/// each byte of memory is to it.
#[derive(Clone, Copy)]
pub struct Loaded<'a> {
    pub joined: &'a Joined,
    pub placement: &'a Placement,
    pub slots: &'a [FrameSlots],
    pub code: &'a [Instruction],
    pub tables: &'a [ModuleTable],
    pub kinds: &'a ByteKinds,
}

impl Loaded<'_> {
    ghost use Rattle.std.specs.Prelude.{◌≡◌};
    ghost use Rattle.placing.specs.Views.{placement_view};
    ghost use Rattle.declared.specs.internal.Access.{AreKindsOf, scalar_read, scalar_written};
    ghost use Rattle.join.specs.Views.{modules_in};

    /// Reads the scalar at an address of the memory.
    #[inline(always)]
    pub fn read(&self, memory: &Memory, scalar: ScalarType, address: u16) -> Result<u16, Reason>
        requires { AreKindsOf (self.now).joined.now (self.now).placement.now (self.now).kinds.now }
        ensures { result
            ≡ scalar_read (modules_in (self.now).joined.now) (placement_view (self.now).placement.now)
            memory.now scalar address }
    {
        read_scalar(
            self.joined,
            self.placement,
            self.kinds,
            memory,
            scalar,
            address,
        )
    }

    /// Writes a number to an address of the memory.
    #[inline(always)]
    pub fn write(
        &self,
        memory: &mut Memory,
        scalar: ScalarType,
        address: u16,
        number: u16,
    ) -> Result<(), Reason>
        requires { AreKindsOf (self.now).joined.now (self.now).placement.now (self.now).kinds.now }
        ensures answer { result
            ≡ (scalar_written (modules_in (self.now).joined.now) (placement_view (self.now).placement.now)
            memory.old scalar address number).answer }
        ensures memory { memory.new
            ≡ (scalar_written (modules_in (self.now).joined.now) (placement_view (self.now).placement.now)
            memory.old scalar address number).memory }
    {
        write_scalar(
            self.joined,
            self.placement,
            self.kinds,
            memory,
            scalar,
            address,
            number,
        )
    }
}
