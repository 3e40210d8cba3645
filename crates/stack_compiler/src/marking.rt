//! Where the parts of the code of a program begin.

ghost use Rattle.std.specs.Prelude.{◌≡◌, ◌++◌, map, OnOk};
ghost use Rattle.stack_compiler.specs.internal.Marked.{later_by, stack_mark};

use stack_code::Instruction;
use std::alloc::{AllocError, Global};

/// A part of the code of a program.
#[derive(Clone, Copy)]
pub enum StackPart {
    /// The beginning of the main program.
    Main,
    /// The beginning of a procedure, by its number in its module.
    Procedure(usize),
    /// A statement, and the code after it up to the next part, by its number in its module; or the code of a loop after its
    /// body. The statements of procedures are counted first, by the numbers of these, and then those of the main program. In a
    /// body a statement comes after its parts and before the next statement, and a label is a statement.
    Statement(usize),
}

/// Where a part of code begins: in which module it is, by its number, and which instruction is its first one.
#[derive(Clone, Copy)]
pub struct StackMark {
    pub part: StackPart,
    pub number_of_module: usize,
    pub place: usize,
}

/// Where a part of the code of one module begins.
#[derive(Clone, Copy)]
pub(crate) struct PartMark {
    pub(crate) part: StackPart,
    pub(crate) place: usize,
}

/// The marks of code of one module that grows at its end, in the order of the code, if they are wanted: of its procedures, or
/// of the main program.
#[derive(Drop)]
pub(crate) struct Marks {
    is_wanted: bool,
    list: Vec<PartMark>,
    /// The index of the mark of the code of a loop after its body, which gets the number of the loop where that ends.
    after_body: Option<usize>,
    /// How many statements are complete.
    statements: usize,
    /// Where the instructions that are made now will begin in the code.
    base: usize,
}

/// A statement whose code is being made: the index of its mark.
#[derive(Clone, Copy)]
pub(crate) struct OpenStatement {
    index: usize,
}

/// The marks of the procedures of a program, in the order of the code, if they are wanted.
#[derive(Drop)]
pub(crate) struct ProgramMarks {
    is_wanted: bool,
    list: Vec<StackMark>,
    /// The module of the main program, and how many statements its procedures have.
    main_module: usize,
    before_main: usize,
}

// A part whose number, if it is a statement, is greater by a count.
fn later_by(count: usize, part: StackPart) -> StackPart
    ensures { result ≡ later_by count part }
{
    match part {
        StackPart::Main => StackPart::Main,
        StackPart::Procedure(number) => StackPart::Procedure(number),
        StackPart::Statement(number) => StackPart::Statement(number.saturating_add(count)),
    }
}

// The mark of a part of a module, after `before` statements of procedures.
fn stack_mark(number_of_module: usize, before: usize, mark: PartMark) -> StackMark
    ensures { result ≡ stack_mark number_of_module before mark }
{
    StackMark {
        part: later_by(before, mark.part),
        number_of_module,
        place: mark.place,
    }
}

// Adds the marks of parts of a module, after `before` statements of procedures.
#[tactic(auto, using(crate::proofs::Marked::mark_added, crate::proofs::Marked::marks_added))]
fn add_marks(
    list: &mut Vec<StackMark>,
    number_of_module: usize,
    before: usize,
    marks: &[PartMark],
) -> Result<(), AllocError>
    ensures { OnOk result (list.new.items
        ≡ list.old.items ++ map (stack_mark number_of_module before) marks.now) }
{
    for mark in marks {
        list.push(stack_mark(number_of_module, before, *mark))?;
    }
    Ok(())
}

impl Marks {
    ghost use Rattle.std.specs.Prelude.{◌≡◌, [], OnOk};
    ghost use Rattle.stack_compiler.specs.declared.marking.StackPart.TheVariants.{Statement};
    ghost use Rattle.stack_compiler.specs.internal.Counted.{Keeps, Numbers, Takes};

    /// No marks, at the start of the code. Where none are wanted none are added.
    pub(crate) fn new(alloc: Global, is_wanted: bool) -> Marks
        ensures list { result.list.items ≡ [] }
        ensures statements { result.statements ≡ 0 }
    {
        Marks {
            is_wanted,
            list: Vec::new(alloc),
            after_body: None,
            statements: 0,
            base: 0,
        }
    }

    /// Adds the mark of a part whose code comes next, after this code.
    #[tactic(auto, using(crate::proofs::Counted::takes_put, crate::proofs::Counted::takes_none))]
    pub(crate) fn put(&mut self, code: &Vec<Instruction>, part: StackPart) -> Result<(), AllocError>
        ensures { OnOk result (Takes part self.old self.new) }
    {
        if self.is_wanted {
            self.list.push(PartMark {
                part,
                place: self.base.saturating_add(code.len()),
            })?;
        }
        Ok(())
    }

    /// Adds the mark of a statement whose code comes next, after this code. Its number is that of its end.
    pub(crate) fn begin_statement(
        &mut self,
        code: &Vec<Instruction>,
    ) -> Result<OpenStatement, AllocError>
        ensures { OnOk result (Takes (Statement 0) self.old self.new) }
    {
        let index = self.list.len();
        self.put(code, StackPart::Statement(0))?;
        Ok(OpenStatement { index })
    }

    /// Adds the mark of the code of a loop after its body. No other statement begins before the loop ends.
    pub(crate) fn end_body(&mut self, code: &Vec<Instruction>) -> Result<(), AllocError>
        ensures { OnOk result (Takes (Statement 0) self.old self.new) }
    {
        let index = self.list.len();
        self.put(code, StackPart::Statement(0))?;
        self.after_body = Some(index);
        Ok(())
    }

    // Gives the mark at an index the number of a statement.
    #[tactic(auto, using(crate::proofs::Counted::takes_set, crate::proofs::Counted::takes_none))]
    fn number(&mut self, index: usize, number: usize)
        ensures takes { Takes (Statement number) self.old self.new }
        ensures statements { self.new.statements ≡ self.old.statements }
    {
        if let Some(mark) = self.list.get_mut(index) {
            *mark = PartMark {
                part: StackPart::Statement(number),
                place: mark.place,
            };
        }
    }

    // Gives the code of a loop after its body, if there is one, the number of the loop.
    #[tactic(auto, using(crate::proofs::Counted::takes_later, crate::proofs::Counted::takes_none))]
    fn number_body(&mut self, number: usize)
        ensures takes { Takes (Statement number) self.old self.new }
        ensures statements { self.new.statements ≡ self.old.statements }
    {
        let body = self.after_body;
        self.after_body = None;
        if let Some(index) = body {
            self.number(index, number);
        }
    }

    /// Gives a statement, whose code is made, the next number.
    #[tactic(auto, using(crate::proofs::Counted::numbers_one))]
    pub(crate) fn end_statement(&mut self, open: OpenStatement)
        ensures { Numbers 0 1 self.old self.new }
    {
        let number = self.statements;
        self.number(open.index, number);
        self.number_body(number);
        self.statements = number.saturating_add(1);
    }

    /// Begins instructions that will be added to this code, and returns where this code itself begins.
    #[tactic(auto, using(crate::proofs::Counted::keeps_same))]
    pub(crate) fn enter(&mut self, code: &Vec<Instruction>) -> usize
        ensures { Keeps self.old self.new }
    {
        let base = self.base;
        self.base = base.saturating_add(code.len());
        base
    }

    /// Ends them, and goes on with code that begins there.
    #[tactic(auto, using(crate::proofs::Counted::keeps_same))]
    pub(crate) fn leave(&mut self, base: usize)
        ensures { Keeps self.old self.new }
    {
        self.base = base;
    }
}

impl ProgramMarks {
    ghost use Rattle.std.specs.Prelude.{◌≡◌, ◌==◌, ◌++◌, ◌∷◌, [], map, if◌then◌else◌, IfOk, OnOk};
    ghost use Rattle.stack_compiler.specs.internal.Marked.{main_mark, stack_mark};

    /// No marks of a program with the main program in this module. Where none are wanted none are added.
    pub(crate) fn new(alloc: Global, is_wanted: bool, main_module: usize) -> ProgramMarks
        ensures list { result.list.items ≡ [] }
        ensures main { result.main_module ≡ main_module }
        ensures before { result.before_main ≡ 0 }
    {
        ProgramMarks {
            is_wanted,
            list: Vec::new(alloc),
            main_module,
            before_main: 0,
        }
    }

    /// No marks of a module yet.
    pub(crate) fn of_module(&self, alloc: Global) -> Marks
        ensures list { result.list.items ≡ [] }
        ensures statements { result.statements ≡ 0 }
    {
        Marks::new(alloc, self.is_wanted)
    }

    /// Adds the marks of the procedures of a module.
    pub(crate) fn add_module(
        &mut self,
        number_of_module: usize,
        marks: &Marks,
    ) -> Result<(), AllocError>
        ensures list { OnOk result (self.new.list.items
            ≡ self.old.list.items ++ map (stack_mark number_of_module 0) marks.now.list.items) }
        ensures main { self.new.main_module ≡ self.old.main_module }
        ensures before { OnOk result (self.new.before_main ≡ (if number_of_module == self.old.main_module
            then marks.now.statements else self.old.before_main)) }
    {
        if number_of_module == self.main_module {
            self.before_main = marks.statements;
        }
        add_marks(&mut self.list, number_of_module, 0, marks.list.as_slice())
    }

    /// All marks: first the beginning of the main program, with which the code begins, and its statements, which are counted
    /// after those of the procedures of its module.
    pub(crate) fn with_main(
        &self,
        alloc: Global,
        main: &Marks,
    ) -> Result<Vec<StackMark>, AllocError>
        ensures { IfOk result (λ list. list.items ≡ main_mark self.now.main_module
            ∷ map (stack_mark self.now.main_module self.now.before_main) main.now.list.items
            ++ self.now.list.items) }
    {
        let mut list = Vec::new(alloc);
        list.push(StackMark {
            part: StackPart::Main,
            number_of_module: self.main_module,
            place: 0,
        })?;
        add_marks(
            &mut list,
            self.main_module,
            self.before_main,
            main.list.as_slice(),
        )?;
        list.extend_from_slice(self.list.as_slice())?;
        Ok(list)
    }
}
