//! The instructions of the 8080, one form for each of its 244 codes (8080 Assembly Language Programming
//! Manual, chapter 2).

/// One of the seven registers of a byte.
#[derive(Clone, Copy)]
pub enum Register {
    B,
    C,
    D,
    E,
    H,
    L,
    A,
}

/// A register, or the byte of memory at the address in H and L, which is written M.
#[derive(Clone, Copy)]
pub enum Operand {
    Of(Register),
    M,
}

/// A pair of registers that holds a 16-bit value, or the stack pointer.
#[derive(Clone, Copy)]
pub enum Pair {
    Bc,
    De,
    Hl,
    Sp,
}

/// A pair that holds the address of STAX and LDAX.
#[derive(Clone, Copy)]
pub enum IndexPair {
    IndexBc,
    IndexDe,
}

/// What PUSH and POP move: a pair of registers, or A and the flag byte.
#[derive(Clone, Copy)]
pub enum StackPair {
    StackBc,
    StackDe,
    StackHl,
    Psw,
}

/// A condition of a jump, a call or a return.
#[derive(Clone, Copy)]
pub enum Condition {
    NotZero,
    Zero,
    NoCarry,
    Carry,
    ParityOdd,
    ParityEven,
    Plus,
    Minus,
}

/// An operation of a byte with the accumulator.
#[derive(Clone, Copy)]
pub enum Operation {
    Add,
    AddWithCarry,
    Subtract,
    SubtractWithBorrow,
    And,
    ExclusiveOr,
    Or,
    Compare,
}

/// The number of a restart, from 0 to 7.
#[derive(Clone, Copy)]
pub enum Restart {
    N0,
    N1,
    N2,
    N3,
    N4,
    N5,
    N6,
    N7,
}

/// An instruction with its operands.
#[derive(Clone, Copy)]
pub enum Instr {
    /// NOP: does nothing.
    Nop,
    /// LXI: loads a pair with a 16-bit value.
    Lxi(Pair, u16),
    /// STAX: stores A at the address in a pair.
    Stax(IndexPair),
    /// LDAX: loads A from the address in a pair.
    Ldax(IndexPair),
    /// SHLD: stores L and H at an address and the next one.
    Shld(u16),
    /// LHLD: loads L and H from an address and the next one.
    Lhld(u16),
    /// STA: stores A at an address.
    Sta(u16),
    /// LDA: loads A from an address.
    Lda(u16),
    /// INX: counts a pair up, as an address in a loop, and sets no flag.
    Inx(Pair),
    /// DCX: counts a pair down, and sets no flag.
    Dcx(Pair),
    /// DAD: adds a pair to H and L, and sets the carry alone.
    Dad(Pair),
    /// INR: counts a byte up. The carry stays.
    Inr(Operand),
    /// DCR: counts a byte down. The carry stays.
    Dcr(Operand),
    /// MVI: loads a byte.
    Mvi(Operand, u8),
    /// RLC: rotates A to the left.
    Rlc,
    /// RRC: rotates A to the right.
    Rrc,
    /// RAL: rotates A and the carry to the left, as for a shift of several bytes.
    Ral,
    /// RAR: rotates A and the carry to the right.
    Rar,
    /// DAA: adjusts A after an addition of packed decimal digits.
    Daa,
    /// CMA: inverts the bits of A.
    Cma,
    /// STC: sets the carry.
    Stc,
    /// CMC: inverts the carry.
    Cmc,
    /// MOV to a register: copies a byte from a register or from memory.
    Mov(Register, Operand),
    /// MOV to memory: copies a byte from a register.
    MovToMemory(Register),
    /// HLT: halts.
    Hlt,
    /// ADD, ADC, SUB, SBB, ANA, XRA, ORA or CMP: A with an operand.
    Accumulate(Operation, Operand),
    /// ADI, ACI, SUI, SBI, ANI, XRI, ORI or CPI: A with a byte of the instruction.
    AccumulateImmediate(Operation, u8),
    /// RNZ, RZ, RNC, RC, RPO, RPE, RP or RM: returns if a condition holds.
    ReturnIf(Condition),
    /// JNZ, JZ, JNC, JC, JPO, JPE, JP or JM: jumps if a condition holds.
    JumpIf(Condition, u16),
    /// CNZ, CZ, CNC, CC, CPO, CPE, CP or CM: calls if a condition holds.
    CallIf(Condition, u16),
    /// RET: returns from a subroutine.
    Ret,
    /// JMP: continues at an address.
    Jmp(u16),
    /// CALL: calls the subroutine at an address.
    Call(u16),
    /// RST: calls one of eight subroutines at the start of memory.
    Rst(Restart),
    /// POP: takes a pair from the stack.
    Pop(StackPair),
    /// PUSH: puts a pair on the stack.
    Push(StackPair),
    /// OUT: writes A to a port.
    Out(u8),
    /// IN: reads a port into A.
    In(u8),
    /// XTHL: exchanges H and L with the top of the stack.
    Xthl,
    /// XCHG: exchanges H and L with D and E.
    Xchg,
    /// PCHL: continues at the address in H and L, as for a table of jumps.
    Pchl,
    /// SPHL: moves the stack to the address in H and L.
    Sphl,
    /// DI: disables interrupts, which this machine doesn't have.
    Di,
    /// EI: enables interrupts, which this machine doesn't have.
    Ei,
}
