//! Emission of planned code.

ghost use Rattle.std.specs.Prelude.{◌≡◌, ◌∷◌, ◌<◌, [], true, IfOk, OnOk};
ghost use Rattle.asm8080.specs.declared.item.Item.TheVariants.{Plain, Mark};
ghost use Rattle.asm8080.specs.declared.item.WordForm.TheVariants.{CallTo};
ghost use Rattle.treecode.specs.internal.Nodes.{nodes_of};
ghost use Rattle.treecode.specs.internal.Rising.{NumbersRise};
ghost use Rattle.steps8080.specs.internal.Facts.{after, after_form, after_word, no_facts};
ghost use Rattle.steps8080.specs.internal.Writer.{jump_item, word_item};
ghost use Rattle.exprgen8080.specs.internal.Emission.{after_test, has_routine, index_of_routine, knowing, module_call_items, module_label_of_routine, module_routine_label, test_items};
ghost use Rattle.exprgen8080.specs.internal.Emitted.{AddsItems, Emits, EmitsSteps, HasAll, IsAlone, IsEmpty, IsNoPart, NotesCalled, after_step, step_items};

use crate::called::CalledRoutines;
use crate::forms::plan_task;
use asm8080::WordForm;
use isa8080::{Instr, Operand, Operation, Register};
use runtime8080::Routine;
use std::alloc::{AllocError, Global};
use steps8080::{Facts, LabelNumber, Part, Site, Step, Steps, Writer};
use treecode::{Place, ProcedureKind, TreeModule};

/// The routines, in the order of their labels.
pub const ROUTINES: [Routine; 9] = [
    Routine::Multiply,
    Routine::Divide,
    Routine::ShiftLeftByte,
    Routine::ShiftRightByte,
    Routine::ShiftLeftAddress,
    Routine::ShiftRightAddress,
    Routine::RotateLeft,
    Routine::RotateRight,
    Routine::Move,
];

// The index of a routine in `ROUTINES`.
fn routine_index(routine: Routine) -> u32
    ensures index { result ≡ index_of_routine routine }
    ensures low { result < 9 }
{
    match routine {
        Routine::Multiply => 0,
        Routine::Divide => 1,
        Routine::ShiftLeftByte => 2,
        Routine::ShiftRightByte => 3,
        Routine::ShiftLeftAddress => 4,
        Routine::ShiftRightAddress => 5,
        Routine::RotateLeft => 6,
        Routine::RotateRight => 7,
        Routine::Move => 8,
    }
}

/// Code that is being emitted: the code, the planned steps, and the facts about the registers at its end.
pub struct Emission {
    pub writer: Writer,
    pub steps: Steps,
    pub facts: Facts,
    /// Whether the code calls each routine.
    pub is_called: CalledRoutines,
}

impl Emission {
    /// No code of a module. The first labels are those of its procedures and of the routines.
    pub fn new(alloc: Global, tree: &TreeModule) -> Result<Emission, AllocError>
        ensures { IfOk result (λ emission. IsEmpty tree.now emission) }
    {
        let procedures = u32::try_from(tree.procedures.len()).unwrap_or(u32::MAX);
        Ok(Emission {
            writer: Writer::new(alloc),
            steps: Steps::new(alloc, procedures.saturating_add(9)),
            facts: Facts::none(),
            is_called: CalledRoutines::none(alloc)?,
        })
    }

    /// Returns the code, and whether it calls each routine.
    pub fn into_code(self) -> (Writer, Vec<bool>)
        ensures writer { result.0 ≡ self.writer }
        ensures called { result.1 ≡ self.is_called }
    {
        let Emission {
            writer,
            steps: _,
            facts: _,
            is_called,
        } = self;
        (writer, is_called.into_flags())
    }

    /// The site at the end of the code, in the body of the given site.
    pub fn site<'a>(&self, site: &Site<'a>) -> Site<'a>
        ensures { result ≡ knowing site.now self.now.facts }
    {
        Site {
            tree: site.tree,
            frame: site.frame,
            facts: self.facts,
        }
    }

    // Adds an instruction.
    fn plain(&mut self, instruction: Instr) -> Result<(), AllocError>
        ensures items { OnOk result (AddsItems self.old self.new
            (Plain instruction ∷ []) (after self.old.facts instruction)) }
        ensures called { self.new.is_called ≡ self.old.is_called }
    {
        self.facts = self.facts.after(instruction);
        self.writer.plain(instruction)
    }

    // Adds an instruction with a word.
    fn word(&mut self, form: WordForm, place: Place) -> Result<(), AllocError>
        ensures items { OnOk result (AddsItems self.old self.new
            (word_item form place ∷ []) (after_word self.old.facts form place)) }
        ensures called { self.new.is_called ≡ self.old.is_called }
    {
        self.facts = self.facts.after_word(form, place);
        self.writer.word(form, place)
    }

    // Adds a jump, or another instruction with the place of a label.
    fn jump(&mut self, form: WordForm, label: LabelNumber) -> Result<(), AllocError>
        ensures items { OnOk result (AddsItems self.old self.new
            (jump_item form label ∷ []) (after_form self.old.facts form)) }
        ensures called { self.new.is_called ≡ self.old.is_called }
    {
        self.facts = self.facts.after_form(form);
        self.writer.jump(form, label)
    }

    // Gives a label its place here. Code may jump to it from anywhere.
    fn mark(&mut self, label: LabelNumber) -> Result<(), AllocError>
        ensures items { OnOk result (AddsItems self.old self.new (Mark label.index ∷ []) no_facts) }
        ensures called { self.new.is_called ≡ self.old.is_called }
    {
        self.facts = Facts::none();
        self.writer.mark(label)
    }

    // Adds a test of A, unless the zero flag shows already whether A is 0.
    fn test_a(&mut self) -> Result<(), AllocError>
        ensures items { OnOk result (AddsItems self.old self.new
            (test_items self.old.facts) (after_test self.old.facts)) }
        ensures called { self.new.is_called ≡ self.old.is_called }
    {
        if self.facts.zero_shows_a {
            return Ok(());
        }
        self.plain(Instr::Accumulate(Operation::Or, Operand::Of(Register::A)))
    }

    // Adds a call of a routine.
    #[tactic(auto, using(crate::proofs::Emitting::call_noted))]
    fn call_routine(&mut self, tree: &TreeModule, routine: Routine) -> Result<(), AllocError>
        ensures items { OnOk result (AddsItems self.old self.new
            (jump_item CallTo (module_label_of_routine tree.now routine) ∷ []) no_facts) }
        ensures noted { OnOk result (has_routine self.new.is_called.items routine ≡ true) }
        ensures notes { NotesCalled tree.now self.old.is_called.items self.new.is_called.items
            (jump_item CallTo (module_label_of_routine tree.now routine) ∷ []) }
    {
        let index = routine_index(routine);
        self.is_called.note(index as usize);
        self.facts = Facts::none();
        self.writer
            .jump(WordForm::CallTo, routine_label(tree, index))
    }

    // Adds a call of a procedure: no items if there is none with this number.
    fn call_procedure(&mut self, tree: &TreeModule, procedure: u32) -> Result<(), AllocError>
        ensures items { OnOk result (AddsItems self.old self.new
            (module_call_items tree.now procedure) no_facts) }
        ensures called { self.new.is_called ≡ self.old.is_called }
    {
        self.facts = Facts::none();
        match tree.procedures.get(procedure as usize) {
            Some(callee) => match callee.kind {
                ProcedureKind::External(name) => self.writer.call_external(name),
                ProcedureKind::Static | ProcedureKind::Reentrant => self
                    .writer
                    .jump(WordForm::CallTo, LabelNumber { index: procedure }),
            },
            None => Ok(()),
        }
    }

    // Adds the code of a step that is not a part.
    #[tactic(auto, using(crate::proofs::Emitting::none_noted))]
    fn step(&mut self, tree: &TreeModule, step: Step) -> Result<(), AllocError>
        requires { IsNoPart step }
        ensures items { OnOk result (AddsItems self.old self.new
            (step_items tree.now self.old.facts step) (after_step self.old.facts step)) }
        ensures alone { OnOk result (IsAlone self.new.is_called.items step) }
        ensures notes { NotesCalled tree.now self.old.is_called.items self.new.is_called.items
            (step_items tree.now self.old.facts step) }
    {
        match step {
            Step::Plain(instruction) => self.plain(instruction),
            Step::Word(form, place) => self.word(form, place),
            Step::Jump(form, label) => self.jump(form, label),
            Step::Mark(label) => self.mark(label),
            Step::CallRoutine(routine) => self.call_routine(tree, routine),
            Step::CallProcedure(procedure) => self.call_procedure(tree, procedure),
            Step::TestA => self.test_a(),
            Step::Holds(facts) => {
                self.facts = self.facts.with(facts);
                Ok(())
            }
            Step::MemoryChanged => {
                self.facts = self.facts.without_memory();
                Ok(())
            }
            Step::Part(_) => unreachable!(),
        }
    }

    /// Adds the code of a step, in the body of the given site. The facts of that site are not used.
    #[cycle(parts)]
    #[tactic(auto, using(crate::proofs::Emitting::emits_step, crate::proofs::Emitting::emits_part))]
    pub fn add(&mut self, site: &Site<'_>, step: Step) -> Result<(), AllocError>
        requires { NumbersRise (nodes_of site.now.tree.now) }
        ensures { OnOk result (EmitsSteps site.now (step ∷ []) self.old self.new) }
    {
        match step {
            Step::Part(part) => self.emit(site, part),
            step => self.step(site.tree, step),
        }
    }

    /// Adds the code of a part. Each part of it ranks below it, so that this ends.
    #[cycle(parts)]
    pub fn emit(&mut self, site: &Site<'_>, part: Part) -> Result<(), AllocError>
        requires { NumbersRise (nodes_of site.now.tree.now) }
        ensures { OnOk result (Emits site.now part self.old self.new) }
    {
        let start = self.steps.count();
        let here = self.site(site);
        plan_task(&here, part, &mut self.steps)?;
        let end = self.steps.count();
        for index in start..end {
            if let Some(step) = self.steps.get(index) {
                self.add(site, step)?;
            }
        }
        self.steps.truncate(start);
        Ok(())
    }
}

/// The label of a routine, by its index in `ROUTINES`.
pub fn routine_label(tree: &TreeModule, index: u32) -> LabelNumber
    ensures { result ≡ module_routine_label tree.now index }
{
    let procedures = u32::try_from(tree.procedures.len()).unwrap_or(u32::MAX);
    LabelNumber {
        index: procedures.saturating_add(index),
    }
}

// Written out so that the fields are dropped in one place, which other crates call.
impl Drop for Emission {
    fn drop(self) {
        let Emission {
            writer: _,
            steps: _,
            facts: _,
            is_called: _,
        } = self;
    }
}
