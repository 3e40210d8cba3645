//! The stack, and the jumps, calls and returns.

ghost use Rattle.std.specs.Prelude.{◌≡◌, ◌+◌, ◌*◌, ◌<◌, if◌then◌else◌, slice_set};
ghost use Rattle.mem80.specs.Memory.{byte_at, word_at};
ghost use Rattle.mem80.specs.declared.memory.TheConstants.{MEMORY_SIZE};
ghost use Rattle.isa8080.specs.declared.instr.Pair.TheVariants.{Hl};
ghost use Rattle.isa8080.specs.State.{high_byte, low_byte, wrap, two_less};
ghost use Rattle.cpu8080.specs.internal.Finish.{memory_pushed, pair_in};
ghost use Rattle.cpu8080.specs.internal.PairBytes.{bytes_of};

use crate::flags::MachineRegisters;
use crate::machine_memory::MachineMemory;
use crate::pairs::{fetch_word, hl, put_word, set_hl, word_after, word_in};

/// PUSH: puts a 16-bit value on the stack.
#[inline(always)]
pub fn push<M: MachineMemory>(word: u16, registers: &mut MachineRegisters, memory: &mut M)
    ensures registers { registers.new ≡ record registers.old { sp = two_less registers.old.sp } }
    ensures memory { M.bytes memory.new ≡ memory_pushed word registers.old (M.bytes memory.old) }
{
    let top = registers.sp.wrapping_sub(2);
    memory.set_two(
        registers.sp.wrapping_sub(1),
        (word / 256) as u8,
        top,
        (word % 256) as u8,
    );
    registers.sp = top;
}

/// POP: takes a 16-bit value from the stack.
#[inline(always)]
pub fn pop<M: MachineMemory>(registers: &mut MachineRegisters, memory: &M) -> u16
    ensures word { result ≡ word_at (M.bytes memory.now) registers.old.sp }
    ensures after { registers.new ≡ record registers.old { sp = wrap (registers.old.sp + 2) } }
{
    let word = word_in(registers.sp, memory);
    registers.sp = registers.sp.wrapping_add(2);
    word
}

/// XTHL: exchanges the 16-bit value in H and L with the one on top of the stack.
#[inline(always)]
pub fn exchange_top<M: MachineMemory>(registers: &mut MachineRegisters, memory: &mut M)
    ensures registers { registers.new
        ≡ (let top = word_at (M.bytes memory.old) registers.old.sp in
        record registers.old { hl = bytes_of top }) }
    ensures memory { M.bytes memory.new
        ≡ slice_set
        (slice_set (M.bytes memory.old) registers.old.sp (low_byte (pair_in Hl registers.old)))
        (wrap (registers.old.sp + 1))
        (high_byte (pair_in Hl registers.old)) }
{
    let word = word_in(registers.sp, memory);
    put_word(registers.sp, hl(registers), memory);
    set_hl(word, registers);
}

/// JMP and the conditional jumps: goes on at the address in the instruction, or after the instruction.
#[inline(always)]
pub fn jump_if<M: MachineMemory>(condition: bool, pc: &mut u16, memory: &M)
    ensures { pc.new ≡ (if condition then word_at (M.bytes memory.now) pc.old else wrap (pc.old + 2)) }
{
    if condition {
        *pc = word_in(*pc, memory);
    } else {
        *pc = pc.wrapping_add(2);
    }
}

/// A jump at the end of a line. Its address lies `distance` bytes after the program counter. Goes on at that address, or
/// after the instruction.
#[inline(always)]
pub fn jump_after<M: MachineMemory>(condition: bool, distance: u16, pc: &mut u16, memory: &M)
    requires within { pc.old + distance + 1 < MEMORY_SIZE }
    requires near { distance < 256 }
    ensures { pc.new
        ≡ (if condition
        then byte_at (M.bytes memory.now) (pc.old + distance) + 256 * byte_at (M.bytes memory.now) (pc.old + (distance + 1))
        else wrap (pc.old + (distance + 2))) }
{
    if condition {
        *pc = word_after(*pc, distance, memory);
    } else {
        *pc = pc.wrapping_add(distance + 2);
    }
}

/// RET and the conditional returns: goes on at the address on top of the stack, or after the instruction.
#[inline(always)]
pub fn return_if<M: MachineMemory>(
    condition: bool,
    pc: &mut u16,
    registers: &mut MachineRegisters,
    memory: &M,
)
    ensures place { pc.new ≡ (if condition then word_at (M.bytes memory.now) registers.old.sp else pc.old) }
    ensures registers { registers.new
        ≡ (if condition
        then record registers.old { sp = wrap (registers.old.sp + 2) }
        else registers.old) }
{
    if condition {
        *pc = pop(registers, memory);
    }
}

/// A return at the end of a line. It ends `distance` bytes after the program counter. Goes on at the address on top of
/// the stack, or after the instruction.
#[inline(always)]
pub fn return_after<M: MachineMemory>(
    condition: bool,
    distance: u16,
    pc: &mut u16,
    registers: &mut MachineRegisters,
    memory: &M,
)
    ensures place { pc.new
        ≡ (if condition then word_at (M.bytes memory.now) registers.old.sp else wrap (pc.old + distance)) }
    ensures registers { registers.new
        ≡ (if condition
        then record registers.old { sp = wrap (registers.old.sp + 2) }
        else registers.old) }
{
    if condition {
        *pc = pop(registers, memory);
    } else {
        *pc = pc.wrapping_add(distance);
    }
}

/// CALL and RST: puts the program counter on the stack, for the return, and goes on at an address.
#[inline(always)]
pub fn call<M: MachineMemory>(
    address: u16,
    pc: &mut u16,
    registers: &mut MachineRegisters,
    memory: &mut M,
)
    ensures place { pc.new ≡ address }
    ensures registers { registers.new ≡ record registers.old { sp = two_less registers.old.sp } }
    ensures memory { M.bytes memory.new ≡ memory_pushed pc.old registers.old (M.bytes memory.old) }
{
    push(*pc, registers, memory);
    *pc = address;
}

/// CALL and the conditional calls: calls the address in the instruction, or goes on after the instruction.
#[inline(always)]
pub fn call_if<M: MachineMemory>(
    condition: bool,
    pc: &mut u16,
    registers: &mut MachineRegisters,
    memory: &mut M,
)
    ensures place { pc.new ≡ (if condition then word_at (M.bytes memory.old) pc.old else wrap (pc.old + 2)) }
    ensures registers { registers.new
        ≡ (if condition
        then record registers.old { sp = two_less registers.old.sp }
        else registers.old) }
    ensures memory { M.bytes memory.new
        ≡ (if condition
        then memory_pushed (wrap (pc.old + 2)) registers.old (M.bytes memory.old)
        else M.bytes memory.old) }
{
    let address = fetch_word(pc, memory);
    if condition {
        call(address, pc, registers, memory);
    }
}

/// A call of the address that lies `distance` bytes after the program counter, within the memory.
#[inline(always)]
pub fn call_after<M: MachineMemory>(
    distance: u16,
    pc: &mut u16,
    registers: &mut MachineRegisters,
    memory: &mut M,
)
    requires within { pc.old + distance + 1 < MEMORY_SIZE }
    requires near { distance < 256 }
    ensures place { pc.new
        ≡ byte_at (M.bytes memory.old) (pc.old + distance) + 256 * byte_at (M.bytes memory.old) (pc.old + (distance + 1)) }
    ensures registers { registers.new ≡ record registers.old { sp = two_less registers.old.sp } }
    ensures memory { M.bytes memory.new
        ≡ memory_pushed (wrap (pc.old + (distance + 2))) registers.old (M.bytes memory.old) }
{
    let address = word_after(*pc, distance, memory);
    push(pc.wrapping_add(distance + 2), registers, memory);
    *pc = address;
}
