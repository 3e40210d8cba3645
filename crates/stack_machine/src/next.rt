//! On to the next instruction.

ghost use Rattle.std.specs.Prelude.{◌∷◌, ◌<◌, IfOk};
ghost use Rattle.stack_code.specs.internal.Machine.{below};
ghost use Rattle.stack_machine.specs.internal.Next.{IsNext, IsNextOrStop};

use crate::end::SourceEnd;
use crate::machine::{Remaining, StackMachine};
use meaning::Reason;
use std::alloc::AllocError;

impl<'a> StackMachine<'a> {
    /// Goes on to the next instruction.
    #[inline(always)]
    pub fn next(&mut self) -> Remaining
        requires { self.old.at < usize.MAX }
        ensures { IsNext self.old self.old.values result self.new }
    {
        self.at += 1;
        Remaining::Nothing
    }

    /// Puts a number on the stack, and goes on to the next instruction.
    #[inline(always)]
    pub fn push(&mut self, number: u16) -> Result<Remaining, AllocError>
        requires { self.old.at < usize.MAX }
        ensures { IfOk result (λ remaining.
            IsNext self.old (number ∷ self.old.values) remaining self.new) }
    {
        self.values.push(number)?;
        Ok(self.next())
    }

    /// Puts a number in place of the value on top, and goes on to the next instruction.
    #[inline(always)]
    pub fn put(&mut self, number: u16) -> Result<Remaining, AllocError>
        requires { self.old.at < usize.MAX }
        ensures { IfOk result (λ remaining.
            IsNext self.old (number ∷ below self.old.values) remaining self.new) }
    {
        self.values.put(number)?;
        Ok(self.next())
    }

    /// Goes on to the next instruction, or stops the program that went outside the language.
    #[inline(always)]
    pub fn next_or_stop(&mut self, done: Result<(), Reason>) -> Remaining
        requires { self.old.at < usize.MAX }
        ensures { IsNextOrStop done self.old result self.new }
    {
        match done {
            Ok(()) => self.next(),
            Err(reason) => Remaining::Stop(SourceEnd::Outside(reason)),
        }
    }
}
