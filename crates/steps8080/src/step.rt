//! Planned code: instructions, labels, and parts that are planned later.

ghost use Rattle.std.specs.Prelude.{◌<◌};

use crate::facts::Facts;
use asm8080::WordForm;
use isa8080::Instr;
use runtime8080::Routine;
use std::alloc::{AllocError, Global};
use treecode::{ExpressionNumber, Place, Range, Reference, Target};

/// The number of a label in the code of a module. The first numbers are the entries of its procedures, in their order;
/// the entries of the routines follow.
#[derive(Clone, Copy, PartialEq, Eq)]
pub struct LabelNumber {
    pub index: u32,
}

/// What the code of an expression does.
#[derive(Clone, Copy)]
pub enum Task {
    /// Puts the low byte of the value into A, whatever its type.
    Byte(ExpressionNumber),
    /// Puts the value into HL; a BYTE is zero-extended.
    Word(ExpressionNumber),
    /// Evaluates the expression for its effects only.
    Effects(ExpressionNumber),
    /// Puts the address of an object or a part of it into HL.
    Address(Reference),
    /// Jumps to a label if the lowest bit of the value is 1 (`sense`) or 0 (not `sense`); else continues.
    Branch {
        condition: ExpressionNumber,
        label: LabelNumber,
        sense: bool,
    },
    /// Stores A (or HL if `is_word`), which holds a value of the target's source type, in a target. If the value
    /// `is_wanted` afterwards, it is still in that register.
    Store {
        target: Target,
        is_wanted: bool,
    },
    /// Calls a procedure, by its number in the module, for a statement; the arguments are in the module's table.
    Call {
        procedure: u32,
        arguments: Range,
    },
}

/// A task at a point where `pushed` bytes have been pushed since the procedure's body or the statement began.
#[derive(Clone, Copy)]
pub struct Part {
    pub task: Task,
    pub pushed: u16,
}

/// A step of code.
#[derive(Clone, Copy)]
pub enum Step {
    /// An instruction.
    Plain(Instr),
    /// An instruction with a word.
    Word(WordForm, Place),
    /// An instruction with the place of a label: a jump or any other.
    Jump(WordForm, LabelNumber),
    /// The place of a label.
    Mark(LabelNumber),
    /// The call of a routine.
    CallRoutine(Routine),
    /// The call of a procedure, by its number in the module.
    CallProcedure(u32),
    /// Makes the zero flag show whether A is 0; no code if it does already.
    TestA,
    /// Facts that hold here, beside those that the instructions alone show.
    Holds(Facts),
    /// Bytes in the frame may have changed by instructions that change only the stack, such as POP and PUSH of a
    /// variable next to the stack pointer.
    MemoryChanged,
    /// The code of a part.
    Part(Part),
}

/// Steps in a row, and the number of labels in use, which has 32 bits.
pub struct Steps {
    pub list: Vec<Step>,
    pub labels: u32,
    pub ghost few: { labels < 4294967296 },
}

impl Steps {
    ghost use Rattle.std.specs.Prelude.{◌≡◌, [], ◌∷◌, OnOk, length, slice_get, take};
    ghost use Rattle.steps8080.specs.declared.step.Step.TheVariants.{Plain, Word, Jump, Mark};
    ghost use Rattle.steps8080.specs.internal.Step.{Adds, label_after, label_of, part, plain};

    /// No steps, with `labels` labels in use.
    pub fn new(alloc: Global, labels: u32) -> Steps
        ensures list { result.list.items ≡ [] }
        ensures labels { result.labels ≡ labels }
    {
        Steps {
            list: Vec::new(alloc),
            labels,
        }
    }

    /// Takes a label that is not in use.
    pub fn label(&mut self) -> LabelNumber
        ensures label { result ≡ label_of self.old.labels }
        ensures taken { self.new.labels ≡ label_after self.old.labels 1 }
        ensures list { self.new.list ≡ self.old.list }
    {
        let label = LabelNumber { index: self.labels };
        self.labels = self.labels.saturating_add(1);
        label
    }

    /// Takes `count` labels that are not in use, and returns the first.
    pub fn labels(&mut self, count: u32) -> LabelNumber
        ensures label { result ≡ label_of self.old.labels }
        ensures taken { self.new.labels ≡ label_after self.old.labels count }
        ensures list { self.new.list ≡ self.old.list }
    {
        let first = LabelNumber { index: self.labels };
        self.labels = self.labels.saturating_add(count);
        first
    }

    /// Adds a step.
    pub fn push(&mut self, step: Step) -> Result<(), AllocError>
        ensures { OnOk result (Adds self.old self.new (step ∷ [])) }
    {
        self.list.push(step)?;
        Ok(())
    }

    /// Adds an instruction.
    pub fn plain(&mut self, instruction: Instr) -> Result<(), AllocError>
        ensures { OnOk result (Adds self.old self.new (Plain instruction ∷ [])) }
    {
        self.push(Step::Plain(instruction))
    }

    /// Adds instructions.
    pub fn all(&mut self, instructions: &[Instr]) -> Result<(), AllocError>
        ensures { OnOk result (Adds self.old self.new (plain instructions.now)) }
    {
        for instruction in instructions {
            self.plain(*instruction)?;
        }
        Ok(())
    }

    /// Adds an instruction with a word.
    pub fn word(&mut self, form: WordForm, place: Place) -> Result<(), AllocError>
        ensures { OnOk result (Adds self.old self.new (Word form place ∷ [])) }
    {
        self.push(Step::Word(form, place))
    }

    /// Adds a jump, or another instruction with the place of a label.
    pub fn jump(&mut self, form: WordForm, label: LabelNumber) -> Result<(), AllocError>
        ensures { OnOk result (Adds self.old self.new (Jump form label ∷ [])) }
    {
        self.push(Step::Jump(form, label))
    }

    /// Adds the place of a label.
    pub fn mark(&mut self, label: LabelNumber) -> Result<(), AllocError>
        ensures { OnOk result (Adds self.old self.new (Mark label ∷ [])) }
    {
        self.push(Step::Mark(label))
    }

    /// Adds the code of a task at a point where `pushed` bytes are pushed.
    pub fn part(&mut self, task: Task, pushed: u16) -> Result<(), AllocError>
        ensures { OnOk result (Adds self.old self.new (part task pushed ∷ [])) }
    {
        self.push(Step::Part(Part { task, pushed }))
    }

    /// The number of steps.
    pub fn count(&self) -> usize
        ensures { result ≡ length self.now.list.items }
    {
        self.list.len()
    }

    /// The step at an index.
    pub fn get(&self, index: usize) -> Option<Step>
        ensures { result ≡ slice_get self.now.list.items index }
    {
        self.list.get(index).copied()
    }

    /// Removes all steps but the first `count`.
    pub fn truncate(&mut self, count: usize)
        ensures list { self.new.list.items ≡ take count self.old.list.items }
        ensures labels { self.new.labels ≡ self.old.labels }
    {
        self.list.truncate(count);
    }
}

// Written out so that the fields are dropped in one place, which other crates call.
impl Drop for Steps {
    fn drop(self) {
        let Steps { list: _, labels: _ } = self;
    }
}
