//! Planned code of statements.

ghost use Rattle.std.specs.Prelude.{◌≡◌, ◌∷◌, [], length, replicate, slice_get, take, OnOk};
ghost use Rattle.steps8080.specs.internal.Step.{label_of};
ghost use Rattle.statements8080.specs.internal.Plans.{PlanAdds, TakesLabels, all, free_label, holds, jump, label_at, mark, part, plain, word};

use asm8080::WordForm;
use exprgen8080::{Facts, LabelNumber, Part, Step, Task};
use isa8080::Instr;
use std::alloc::{AllocError, Global};
use treecode::{Location, Place, Range, Reference, StatementNumber};

/// A step of the code of a statement.
#[derive(Clone, Copy)]
pub enum Planned {
    /// A step of the code of expressions.
    Code(Step),
    /// The code of a statement.
    Statement(StatementNumber),
    /// The code of statements, one after another.
    List(Range),
    /// Puts a BYTE without a base and subscripts into A.
    LoadByte(Reference),
    /// Puts an ADDRESS without a base and subscripts into HL.
    LoadWord(Reference),
    /// The code before this, or a jump just after it, leads to the next label of `Turn` or `Meet`. The facts here hold
    /// there too if that jump `is_the_only_one`.
    Jumped {
        is_the_only_one: bool,
    },
    /// A jump to a label, if the end of the code before it can be reached.
    JumpOn(LabelNumber),
    /// The end of one path and the start of another: a jump to `end`, if the end of the code before it can be reached,
    /// and the place of `other`, to which the code before `Jumped` jumps.
    Turn {
        other: LabelNumber,
        end: LabelNumber,
    },
    /// The place of a label where two paths meet: the one that ends here, and the other one.
    Meet(LabelNumber),
    /// The place of a label that later code jumps back to when these facts hold. The code before it continues here if
    /// it `is_entered`.
    Again {
        label: LabelNumber,
        facts: Facts,
        is_entered: bool,
    },
    /// Whether the end of the statement can be reached.
    Reaches(bool),
}

/// The label at an index among consecutive labels.
pub(crate) fn label_at(first: LabelNumber, index: u32) -> LabelNumber
    ensures { result ≡ label_at first index }
{
    LabelNumber {
        index: first.index.saturating_add(index),
    }
}

/// Steps in a row, and the number of labels that they take.
pub struct Plan {
    pub list: Vec<Planned>,
    /// The number of the first label of these steps.
    pub first_label: u32,
    /// The number of labels that are taken, from that one on.
    pub taken: u32,
}

impl Plan {
    /// No steps.
    pub fn new(alloc: Global) -> Plan
        ensures list { result.list.items ≡ [] }
        ensures first { result.first_label ≡ 0 }
        ensures taken { result.taken ≡ 0 }
    {
        Plan {
            list: Vec::new(alloc),
            first_label: 0,
            taken: 0,
        }
    }

    /// Takes labels from this one on.
    pub fn take_labels_from(&mut self, first: LabelNumber)
        ensures list { self.new.list.items ≡ self.old.list.items }
        ensures first { self.new.first_label ≡ first.index }
        ensures taken { self.new.taken ≡ 0 }
    {
        self.first_label = first.index;
        self.taken = 0;
    }

    /// The number of labels that are taken.
    pub fn taken(&self) -> u32
        ensures { result ≡ self.now.taken }
    {
        self.taken
    }

    /// Takes a label that is not taken yet.
    pub fn label(&mut self) -> LabelNumber
        ensures label { result ≡ label_of (free_label self.old) }
        ensures takes { TakesLabels self.old self.new 1 }
    {
        self.labels(1)
    }

    /// Takes `count` labels that are not taken yet, and returns the first.
    pub fn labels(&mut self, count: u32) -> LabelNumber
        ensures label { result ≡ label_of (free_label self.old) }
        ensures takes { TakesLabels self.old self.new count }
    {
        let label = LabelNumber {
            index: self.first_label.saturating_add(self.taken),
        };
        self.taken = self.taken.saturating_add(count);
        label
    }

    /// Adds a step.
    pub fn push(&mut self, step: Planned) -> Result<(), AllocError>
        ensures { OnOk result (PlanAdds self.old self.new (step ∷ [])) }
    {
        self.list.push(step)?;
        Ok(())
    }

    /// Adds an instruction.
    pub fn plain(&mut self, instruction: Instr) -> Result<(), AllocError>
        ensures { OnOk result (PlanAdds self.old self.new (plain instruction ∷ [])) }
    {
        self.push(Planned::Code(Step::Plain(instruction)))
    }

    /// Adds instructions.
    #[tactic(auto, using(crate::proofs::Adding::adding_begins, crate::proofs::Adding::adding_goes_on, crate::proofs::Adding::adding_ends))]
    pub fn all(&mut self, instructions: &[Instr]) -> Result<(), AllocError>
        ensures { OnOk result (PlanAdds self.old self.new (all instructions.now)) }
    {
        let mut left = instructions;
        while let [instruction, others @ ..] = left {
            self.plain(*instruction)?;
            left = others;
        }
        Ok(())
    }

    /// Adds an instruction `count` times.
    #[tactic(auto, using(crate::proofs::Adding::adding_begins, crate::proofs::Adding::adding_goes_on, crate::proofs::Adding::adding_ends))]
    pub fn repeated(&mut self, instruction: Instr, count: u16) -> Result<(), AllocError>
        ensures { OnOk result (PlanAdds self.old self.new (replicate count (plain instruction))) }
    {
        let mut left = count;
        while left > 0 {
            self.plain(instruction)?;
            left -= 1;
        }
        Ok(())
    }

    /// Adds an instruction with a word.
    pub fn word(&mut self, form: WordForm, place: Place) -> Result<(), AllocError>
        ensures { OnOk result (PlanAdds self.old self.new (word form place ∷ [])) }
    {
        self.push(Planned::Code(Step::Word(form, place)))
    }

    /// Adds a jump, or another instruction with the place of a label.
    pub fn jump(&mut self, form: WordForm, label: LabelNumber) -> Result<(), AllocError>
        ensures { OnOk result (PlanAdds self.old self.new (jump form label ∷ [])) }
    {
        self.push(Planned::Code(Step::Jump(form, label)))
    }

    /// Adds the place of a label.
    pub fn mark(&mut self, label: LabelNumber) -> Result<(), AllocError>
        ensures { OnOk result (PlanAdds self.old self.new (mark label ∷ [])) }
    {
        self.push(Planned::Code(Step::Mark(label)))
    }

    /// Adds the code of a task when `pushed` bytes are pushed.
    pub fn part(&mut self, task: Task, pushed: u16) -> Result<(), AllocError>
        ensures { OnOk result (PlanAdds self.old self.new (part task pushed ∷ [])) }
    {
        self.push(Planned::Code(Step::Part(Part { task, pushed })))
    }

    /// Notes facts that hold here, beside those that the instructions show.
    pub fn holds(&mut self, facts: Facts) -> Result<(), AllocError>
        ensures { OnOk result (PlanAdds self.old self.new (holds facts ∷ [])) }
    {
        self.push(Planned::Code(Step::Holds(facts)))
    }

    /// The number of steps.
    pub fn count(&self) -> usize
        ensures { result ≡ length self.now.list.items }
    {
        self.list.len()
    }

    /// The step at an index.
    pub fn get(&self, index: usize) -> Option<Planned>
        ensures { result ≡ slice_get self.now.list.items index }
    {
        self.list.get(index).copied()
    }

    /// Removes all steps but the first `count`.
    pub fn truncate(&mut self, count: usize)
        ensures list { self.new.list.items ≡ take count self.old.list.items }
        ensures first { self.new.first_label ≡ self.old.first_label }
        ensures taken { self.new.taken ≡ self.old.taken }
    {
        self.list.truncate(count);
    }
}

// Written out so that the fields are dropped in one place, which other crates call.
impl Drop for Plan {
    fn drop(self) {
        let Plan {
            list: _,
            first_label: _,
            taken: _,
        } = self;
    }
}
