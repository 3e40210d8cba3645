//! Where the parts of the code of a module begin.

ghost use Rattle.std.specs.Prelude.{◌≡◌, ◌+◌, ◌≤◌, [], ◌++◌, false, length, min, slice_index_or, IfOk, OnOk};
ghost use Rattle.asm8080.specs.Items.{size_of_items};
ghost use Rattle.codegen8080.specs.internal.Marking.{routine_mark};
ghost use Rattle.codegen8080.specs.internal.Marks.{PutsPart, code_part, marks_from, marks_of_parts, places_from};
ghost use Rattle.codegen8080.specs.internal.Modules.{all_routines, constant_size, content_items};

use exprgen8080::{Finished, LabelNumber, ROUTINES, Writer, routine_label};
use runtime8080::Routine;
use std::alloc::{AllocError, Global};
use treecode::{Content, StatementNumber, TreeModule};
use trees::next_number;

/// A part of the code of a module. After its constants, which come first, each byte belongs to the last part before it.
#[derive(Clone, Copy)]
pub enum CodePart {
    /// The beginning of the main program.
    Main,
    /// The beginning of a procedure, by its number.
    Procedure(u32),
    /// A statement, and the code after it up to the next one.
    Statement(StatementNumber),
    /// A routine.
    Routine(Routine),
}

/// Where a part of code begins, as an offset from the start of the code segment.
#[derive(Clone, Copy)]
pub struct Mark {
    pub part: CodePart,
    pub place: u16,
}

/// A part of the code of a module that is not a routine.
#[derive(Clone, Copy)]
pub(crate) enum OwnPart {
    /// The beginning of the main program.
    Main,
    /// The beginning of a procedure, by its number.
    Procedure(u32),
    /// A statement.
    Statement(StatementNumber),
}

/// A part of code, and how far it begins after the part before it, or after the constants: 65535 bytes at most.
#[derive(Clone, Copy)]
pub(crate) struct Begun {
    pub(crate) part: OwnPart,
    pub(crate) distance: u16,
}

/// The parts of code that grows at its end, in the order of the code.
#[derive(Drop)]
pub(crate) struct Marks {
    list: Vec<Begun>,
    /// How many items the code had where the last part begins.
    items: usize,
}

// A number of bytes, 65535 at most.
fn capped(bytes: u128) -> u16
    ensures { result ≡ min bytes 65535 }
{
    u16::try_from(bytes).unwrap_or(u16::MAX)
}

// The place at a distance from another, in code that ends at a place.
fn place_after(place: u16, distance: u16, end: u16) -> u16
    ensures { result ≡ min (place + distance) end }
{
    place.saturating_add(distance).min(end)
}

// A part of code that is not a routine, among all parts.
fn code_part(part: OwnPart) -> CodePart
    ensures { result ≡ code_part part }
{
    match part {
        OwnPart::Main => CodePart::Main,
        OwnPart::Procedure(number) => CodePart::Procedure(number),
        OwnPart::Statement(number) => CodePart::Statement(number),
    }
}

// The marks of parts of code, counted from one place on, that ends at another.
fn placed(alloc: Global, parts: &[Begun], start: u16, end: u16) -> Result<Vec<Mark>, AllocError>
    ensures { IfOk result (λ marks. marks.items ≡ marks_of_parts start end parts.now) }
{
    let mut marks = Vec::new(alloc);
    let mut place = start;
    let mut rest = parts;
    while let [part, more @ ..] = rest {
        place = place_after(place, part.distance, end);
        marks.push(Mark {
            part: code_part(part.part),
            place,
        })?;
        rest = more;
    }
    Ok(marks)
}

// Where code ends.
fn end_of(code: &Finished) -> u16
    ensures { result ≡ length code.now.bytes.bytes }
{
    code.bytes.bytes().len() as u16
}

// The bytes of a piece of the contents of a segment.
#[tactic(auto, using(crate::proofs::Marked::word_size))]
fn size_of(content: Content) -> u16
    ensures { result ≡ size_of_items (content_items content) }
{
    match content {
        Content::Byte(_) => 1,
        Content::Word(_) => 2,
        Content::Gap(count) => count,
    }
}

// The bytes of the constants of a module, which come first in its code: 65535 at most.
#[tactic(auto, using(crate::proofs::Marked::one_more_content))]
fn size_of_constants(tree: &TreeModule) -> u16
    ensures { result ≡ min (constant_size tree.now) 65535 }
{
    let mut size: u16 = 0;
    let mut left = tree.constants.as_slice();
    while let [content, others @ ..] = left {
        size = size.saturating_add(size_of(*content));
        left = others;
    }
    size
}

/// Whether the routine with this index is called.
pub(crate) fn is_called_at(is_called: &[bool], index: u32) -> bool
    ensures { result ≡ slice_index_or is_called.now index false }
{
    match is_called.get(index as usize) {
        Some(is_called) => *is_called,
        None => false,
    }
}

/// Where the code of each procedure begins: 0 for an EXTERNAL one, which has none.
pub(crate) fn procedure_places(
    alloc: Global,
    tree: &TreeModule,
    code: &Finished,
) -> Result<Vec<u16>, AllocError>
    ensures { IfOk result (λ places. places.items
        ≡ places_from code.now.bytes code.now.labels.items 0 tree.now.procedures.items) }
{
    let mut places = Vec::new(alloc);
    let mut number: u32 = 0;
    let mut left = tree.procedures.as_slice();
    while let [_, others @ ..] = left {
        places.push(code.place(LabelNumber { index: number }))?;
        number = next_number(number)?;
        left = others;
    }
    Ok(places)
}

impl Marks {
    /// No marks, at the start of the code.
    pub(crate) fn new(alloc: Global) -> Marks
        ensures list { result.list.items ≡ [] }
        ensures items { result.items ≡ 0 }
    {
        Marks {
            list: Vec::new(alloc),
            items: 0,
        }
    }

    /// Counts from the end of code whose bytes so far are constants.
    pub(crate) fn begin(&mut self, constants: &Writer)
        ensures { self.new.items ≡ length constants.now.code.items }
    {
        self.items = constants.item_count();
    }

    /// Adds a part whose code comes next.
    pub(crate) fn put(&mut self, writer: &Writer, part: OwnPart) -> Result<(), AllocError>
        ensures { OnOk result (PutsPart writer.now.code.items part self.old self.new) }
    {
        let distance = capped(writer.size_from(self.items));
        self.items = writer.item_count();
        self.list.push(Begun { part, distance })?;
        Ok(())
    }

    /// The marks of the parts, after the constants, and then those of the routines that are called, whose code comes last.
    pub(crate) fn with_routines(
        self,
        alloc: Global,
        tree: &TreeModule,
        code: &Finished,
        is_called: &[bool],
    ) -> Result<Vec<Mark>, AllocError>
        ensures marks { IfOk result (λ marks. marks.items
            ≡ marks_of_parts (min (constant_size tree.now) 65535) (length code.now.bytes.bytes) self.list.items
            ++ marks_from tree.now is_called.now code.now.bytes code.now.labels.items 0 all_routines) }
        ensures few { length code.now.bytes.bytes ≤ 65535 }
    {
        let start = size_of_constants(tree);
        let mut marks = placed(alloc, self.list.as_slice(), start, end_of(code))?;
        put_routines(&mut marks, tree, code, is_called, &ROUTINES)?;
        Ok(marks)
    }
}

// Adds the mark of a routine, if code calls it.
fn put_routine(
    marks: &mut Vec<Mark>,
    routine: Routine,
    is_called: bool,
    place: u16,
) -> Result<(), AllocError>
    ensures { OnOk result ((marks.new).items ≡ (marks.old).items ++ routine_mark routine is_called place) }
{
    if is_called {
        marks.push(Mark {
            part: CodePart::Routine(routine),
            place,
        })?;
    }
    Ok(())
}

// Adds the marks of the routines that code calls.
fn put_routines(
    marks: &mut Vec<Mark>,
    tree: &TreeModule,
    code: &Finished,
    is_called: &[bool],
    routines: &[Routine],
) -> Result<(), AllocError>
    ensures { OnOk result ((marks.new).items ≡ (marks.old).items
        ++ marks_from tree.now is_called.now code.now.bytes code.now.labels.items 0 routines.now) }
{
    let mut index = 0;
    for routine in routines {
        let place = code.place(routine_label(tree, index));
        put_routine(marks, *routine, is_called_at(is_called, index), place)?;
        index = next_number(index)?;
    }
    Ok(())
}
