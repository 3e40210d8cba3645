//! Facts about the registers at a point of the code.

ghost use Rattle.std.specs.Prelude.{◌≡◌};
ghost use Rattle.std.specs.Option.{option_or};
ghost use Rattle.steps8080.specs.internal.Facts.{after, after_count, after_form, after_move, after_move_to_memory, after_operation, after_operation_with, after_other, after_pop, after_word, before, byte_for_l, byte_from_hl, holds_byte, is_at, no_facts, origin, with_facts, without_a, without_hl, without_memory, without_operand, without_pair, without_register, without_zero};

use crate::instructions::{copy, load};
use asm8080::WordForm;
use isa8080::{Instr, Operand, Operation, Pair, Register, StackPair};
use treecode::{Location, Place};

/// Facts about the registers at a point of the code: each relates a register to the bytes that memory or the frame
/// holds at that point.
#[derive(Clone, Copy)]
pub struct Facts {
    /// A holds the byte at this location.
    pub byte_in_a: Option<Location>,
    /// HL holds the word at this location.
    pub word_in_hl: Option<Location>,
    /// HL holds the address of this location.
    pub address_in_hl: Option<Location>,
    /// The zero flag shows whether A is 0.
    pub zero_shows_a: bool,
}

// The first location if there is one, else the second.
fn either(first: Option<Location>, second: Option<Location>) -> Option<Location>
    ensures { result ≡ option_or first second }
{
    match first {
        Some(location) => Some(location),
        None => second,
    }
}

/// Whether a register holds what is at a location, where `held` is the location that it is known to hold, if any.
pub fn is_at(held: Option<Location>, location: Location) -> bool
    ensures { result ≡ is_at held location }
{
    match held {
        Some(held) => held == location,
        None => false,
    }
}

/// The location one byte before another one.
pub fn before(location: Location) -> Location
    ensures { result ≡ before location }
{
    location.after(65535)
}

impl Facts {
    /// Nothing is known.
    pub fn none() -> Facts
        ensures { result ≡ no_facts }
    {
        Facts {
            byte_in_a: None,
            word_in_hl: None,
            address_in_hl: None,
            zero_shows_a: false,
        }
    }

    /// The facts, with others that hold too.
    pub fn with(self, others: Facts) -> Facts
        ensures { result ≡ with_facts self others }
    {
        Facts {
            byte_in_a: either(others.byte_in_a, self.byte_in_a),
            word_in_hl: either(others.word_in_hl, self.word_in_hl),
            address_in_hl: either(others.address_in_hl, self.address_in_hl),
            zero_shows_a: others.zero_shows_a || self.zero_shows_a,
        }
    }

    /// The facts after bytes in memory or in the frame may have changed.
    pub fn without_memory(self) -> Facts
        ensures { result ≡ without_memory self }
    {
        Facts {
            byte_in_a: None,
            word_in_hl: None,
            ..self
        }
    }

    // The facts after A has changed.
    fn without_a(self) -> Facts
        ensures { result ≡ without_a self }
    {
        Facts {
            byte_in_a: None,
            zero_shows_a: false,
            ..self
        }
    }

    // The facts after HL has changed.
    fn without_hl(self) -> Facts
        ensures { result ≡ without_hl self }
    {
        Facts {
            word_in_hl: None,
            address_in_hl: None,
            ..self
        }
    }

    // The facts after the zero flag has changed.
    fn without_zero(self) -> Facts
        ensures { result ≡ without_zero self }
    {
        Facts {
            zero_shows_a: false,
            ..self
        }
    }

    // The facts after a register has changed.
    fn without_register(self, register: Register) -> Facts
        ensures { result ≡ without_register self register }
    {
        match register {
            Register::A => self.without_a(),
            Register::H | Register::L => self.without_hl(),
            Register::B | Register::C | Register::D | Register::E => self,
        }
    }

    // The facts after a register, or the byte at the address in HL, has changed.
    fn without_operand(self, operand: Operand) -> Facts
        ensures { result ≡ without_operand self operand }
    {
        match operand {
            Operand::Of(register) => self.without_register(register),
            Operand::M => self.without_memory(),
        }
    }

    // The facts after a pair has changed: none if the stack pointer has.
    fn without_pair(self, pair: Pair) -> Facts
        ensures { result ≡ without_pair self pair }
    {
        match pair {
            Pair::Bc | Pair::De => self,
            Pair::Hl => self.without_hl(),
            Pair::Sp => Facts::none(),
        }
    }

    // The facts after POP.
    fn after_pop(self, pair: StackPair) -> Facts
        ensures { result ≡ after_pop self pair }
    {
        match pair {
            StackPair::StackBc | StackPair::StackDe => self,
            StackPair::StackHl => self.without_hl(),
            StackPair::Psw => self.without_a(),
        }
    }

    // The facts after INR or DCR.
    fn after_count(self, operand: Operand) -> Facts
        ensures { result ≡ after_count self operand }
    {
        let changed = self.without_operand(operand);
        match operand {
            Operand::Of(Register::A) => Facts {
                zero_shows_a: true,
                ..changed
            },
            Operand::Of(_) | Operand::M => changed.without_zero(),
        }
    }

    // The location of the byte that MOV A copies to A, if known.
    fn origin(self, operand: Operand) -> Option<Location>
        ensures { result ≡ origin self operand }
    {
        match operand {
            Operand::M => self.address_in_hl,
            Operand::Of(Register::L) => self.word_in_hl,
            Operand::Of(Register::H) => match self.word_in_hl {
                Some(location) => Some(location.after(1)),
                None => None,
            },
            Operand::Of(_) => None,
        }
    }

    // The facts after MOV to a register.
    fn after_move(self, register: Register, operand: Operand) -> Facts
        ensures { result ≡ after_move self register operand }
    {
        match register {
            Register::A => Facts {
                byte_in_a: self.origin(operand),
                ..self.without_a()
            },
            _ => self.without_register(register),
        }
    }

    // The facts after MOV to memory.
    fn after_move_to_memory(self, register: Register) -> Facts
        ensures { result ≡ after_move_to_memory self register }
    {
        let changed = self.without_memory();
        match register {
            Register::A => Facts {
                byte_in_a: self.address_in_hl,
                ..changed
            },
            _ => changed,
        }
    }

    // The facts after an operation on A.
    fn after_operation(self, operation: Operation) -> Facts
        ensures { result ≡ after_operation self operation }
    {
        match operation {
            Operation::Compare => self.without_zero(),
            _ => Facts {
                byte_in_a: None,
                zero_shows_a: true,
                ..self
            },
        }
    }

    // The facts after an operation on A with an operand. A AND A, and A OR A, leave A as it is.
    fn after_operation_with(self, operation: Operation, operand: Operand) -> Facts
        ensures { result ≡ after_operation_with self operation operand }
    {
        match operation {
            Operation::And | Operation::Or if matches!(operand, Operand::Of(Register::A)) => {
                Facts {
                    zero_shows_a: true,
                    ..self
                }
            }
            _ => self.after_operation(operation),
        }
    }

    /// The facts after an instruction, from those before it.
    pub fn after(self, instruction: Instr) -> Facts
        ensures { result ≡ after self instruction }
    {
        match instruction {
            Instr::Lxi(pair, number) => self.after_word(
                WordForm::LoadPair(pair),
                Place::Number(number),
            ),
            Instr::Shld(number) => self.after_word(WordForm::StoreHl, Place::Number(number)),
            Instr::Lhld(number) => self.after_word(WordForm::LoadHl, Place::Number(number)),
            Instr::Sta(number) => self.after_word(WordForm::StoreA, Place::Number(number)),
            Instr::Lda(number) => self.after_word(WordForm::LoadA, Place::Number(number)),
            Instr::Stax(_) => self.without_memory(),
            Instr::Inx(pair) | Instr::Dcx(pair) => self.without_pair(pair),
            Instr::Dad(_) | Instr::Xchg => self.without_hl(),
            Instr::Xthl => self.without_hl().without_memory(),
            Instr::Inr(operand) | Instr::Dcr(operand) => self.after_count(operand),
            Instr::Mvi(operand, _) => self.without_operand(operand),
            Instr::Mov(register, operand) => self.after_move(register, operand),
            Instr::MovToMemory(register) => self.after_move_to_memory(register),
            Instr::Accumulate(operation, operand) => self.after_operation_with(operation, operand),
            Instr::AccumulateImmediate(operation, _) => self.after_operation(operation),
            Instr::Pop(pair) => self.after_pop(pair),
            _ => self.after_other(instruction),
        }
    }

    // The facts after an instruction that changes only A, only the carry, or nothing; none after any other, which jumps
    // elsewhere.
    fn after_other(self, instruction: Instr) -> Facts
        ensures { result ≡ after_other self instruction }
    {
        match instruction {
            Instr::Ldax(_)
            | Instr::Rlc
            | Instr::Rrc
            | Instr::Ral
            | Instr::Rar
            | Instr::Daa
            | Instr::Cma
            | Instr::In(_) => self.without_a(),
            Instr::Nop
            | Instr::Stc
            | Instr::Cmc
            | Instr::Push(_)
            | Instr::Out(_)
            | Instr::ReturnIf(_)
            | Instr::JumpIf(_, _) => self,
            _ => Facts::none(),
        }
    }

    /// The facts after an instruction with a word, from those before it.
    pub fn after_word(self, form: WordForm, place: Place) -> Facts
        ensures { result ≡ after_word self form place }
    {
        let here = Some(Location::Static(place));
        match form {
            WordForm::LoadPair(Pair::Hl) => Facts {
                address_in_hl: here,
                ..self.without_hl()
            },
            WordForm::LoadHl => Facts {
                word_in_hl: here,
                ..self.without_hl()
            },
            WordForm::LoadA => Facts {
                byte_in_a: here,
                ..self.without_a()
            },
            WordForm::StoreHl => Facts {
                word_in_hl: here,
                ..self.without_memory()
            },
            WordForm::StoreA => Facts {
                byte_in_a: here,
                ..self.without_memory()
            },
            _ => self.after_form(form),
        }
    }

    /// The facts at the next instruction after a jump, or after another instruction with the place of a label.
    pub fn after_form(self, form: WordForm) -> Facts
        ensures { result ≡ after_form self form }
    {
        match form {
            WordForm::JumpWhere(_) => self,
            WordForm::LoadPair(pair) => self.without_pair(pair),
            _ => Facts::none(),
        }
    }

    /// Whether A, H or L holds the byte at a location.
    pub fn holds_byte(&self, location: Location) -> bool
        ensures { result ≡ holds_byte self.now location }
    {
        is_at(self.byte_in_a, location)
            || is_at(self.word_in_hl, location)
            || is_at(self.word_in_hl, before(location))
    }

    /// The instruction that puts the byte at a location into A, if the facts give one.
    pub fn byte_from_hl(&self, location: Location) -> Option<Instr>
        ensures { result ≡ byte_from_hl self.now location }
    {
        if is_at(self.word_in_hl, location) {
            Some(copy(Register::A, Register::L))
        } else if is_at(self.word_in_hl, before(location)) {
            Some(copy(Register::A, Register::H))
        } else if is_at(self.address_in_hl, location) {
            Some(load(Register::A))
        } else {
            None
        }
    }

    /// The instruction that puts the byte at a location into L, if the facts give one.
    pub fn byte_for_l(&self, location: Location) -> Option<Instr>
        ensures { result ≡ byte_for_l self.now location }
    {
        if is_at(self.byte_in_a, location) {
            Some(copy(Register::L, Register::A))
        } else if is_at(self.word_in_hl, before(location)) {
            Some(copy(Register::L, Register::H))
        } else if is_at(self.address_in_hl, location) {
            Some(load(Register::L))
        } else {
            None
        }
    }
}
