//! The tables of a program: where its procedures and its labels stand in the code.

ghost use Rattle.std.specs.Prelude.{◌≡◌, [], suc, map, IfOk, OnOk};
ghost use Rattle.typed_trees.specs.Views.{module_view, procedure_view};
ghost use Rattle.stack_code.specs.internal.Program.{AreTablesOf};
ghost use Rattle.stack_compiler.specs.internal.Rows.{empty_row, entry_begun, first_of, noted, noted_all, padded, row_begun, row_labelled, row_view, started_entry, started_row, updated, with_label};

use stack_code::{Entry, Instruction, ModuleTable};
use std::alloc::{AllocError, Global};
use typed_trees::{Typed, TypedProcedure, charge_of};

// Entries of procedures that are not yet found in the code.
fn started_entries(alloc: Global, procedures: &[TypedProcedure]) -> Result<Vec<Entry>, AllocError>
    ensures { IfOk result (λ entries.
        entries.items ≡ map started_entry (map procedure_view procedures.now)) }
{
    let mut entries = Vec::with_capacity(alloc, procedures.len())?;
    for procedure in procedures {
        entries.push(Entry {
            begin: 0,
            charge: charge_of(procedure),
        })?;
    }
    Ok(entries)
}

// The table of a module before anything in it is found.
fn started_table(alloc: Global, typed: &Typed) -> Result<ModuleTable, AllocError>
    ensures { IfOk result (λ table. row_view table ≡ started_row (module_view typed.now)) }
{
    let procedures = started_entries(alloc, typed.procedures.as_slice())?;
    Ok(ModuleTable {
        procedures,
        labels: Vec::new(alloc),
    })
}

// The tables of modules before anything in them is found.
fn started_tables(alloc: Global, modules: &[Typed]) -> Result<Vec<ModuleTable>, AllocError>
    ensures { IfOk result (λ tables.
        map row_view tables.items ≡ map started_row (map module_view modules.now)) }
{
    let mut tables = Vec::with_capacity(alloc, modules.len())?;
    for typed in modules {
        let table = started_table(alloc, typed)?;
        tables.push(table)?;
    }
    Ok(tables)
}

// The first of two places, where 0 means no place.
#[tactic(auto, using(crate::proofs::RowLoops::first_is_none, crate::proofs::RowLoops::first_stands))]
fn first_of(first: usize, second: usize) -> usize
    ensures { result ≡ first_of first second }
{
    if first == 0 { second } else { first }
}

// Zeros up to a count.
fn pad_places(places: &mut Vec<usize>, count: usize) -> Result<(), AllocError>
    ensures { OnOk result (places.new.items ≡ padded 0 places.old.items count) }
{
    while places.len() < count {
        places.push(0)?;
    }
    Ok(())
}

// Notes where a label stands, if it is the first time.
fn note_place(places: &mut Vec<usize>, label: usize, after: usize)
    ensures { places.new.items ≡ updated (λ place. first_of place after) places.old.items label }
{
    let found = match places.get(label) {
        Some(place) => *place,
        None => return,
    };
    let first = first_of(found, after);
    if let Some(place) = places.get_mut(label) {
        *place = first;
    }
}

// A label of the module stands before a place in the code.
fn note_label(table: &mut ModuleTable, label: u32, after: usize) -> Result<(), AllocError>
    ensures { OnOk result (row_view table.new ≡ row_labelled label after (row_view table.old)) }
{
    pad_places(&mut table.labels, label as usize + 1)?;
    note_place(&mut table.labels, label as usize, after);
    Ok(())
}

// Notes where a procedure begins, if it is the first time.
fn note_entry(entries: &mut Vec<Entry>, number: usize, after: usize)
    ensures { entries.new.items ≡ updated (entry_begun after) entries.old.items number }
{
    let found = match entries.get(number) {
        Some(entry) => *entry,
        None => return,
    };
    let begun = Entry {
        begin: first_of(found.begin, after),
        charge: found.charge,
    };
    if let Some(entry) = entries.get_mut(number) {
        *entry = begun;
    }
}

// A procedure of the module begins before a place in the code.
fn note_begin(table: &mut ModuleTable, number: usize, after: usize)
    ensures { row_view table.new ≡ row_begun number after (row_view table.old) }
{
    note_entry(&mut table.procedures, number, after);
}

// Tables up to that of a module, empty ones for modules that have none.
#[tactic(auto, using(crate::proofs::RowLoops::empty_pushed, crate::proofs::RowLoops::empties_pushed))]
fn pad_tables(alloc: Global, tables: &mut Vec<ModuleTable>, number: usize) -> Result<(), AllocError>
    ensures { OnOk result (map row_view tables.new.items
        ≡ padded empty_row (map row_view tables.old.items) (suc number)) }
{
    while tables.len() <= number {
        tables.push(ModuleTable {
            procedures: Vec::new(alloc),
            labels: Vec::new(alloc),
        })?;
    }
    Ok(())
}

// A label of a module stands before a place in the code.
fn note_label_in(
    tables: &mut Vec<ModuleTable>,
    number_of_module: usize,
    label: u32,
    after: usize,
) -> Result<(), AllocError>
    ensures { OnOk result (map row_view tables.new.items
        ≡ updated (row_labelled label after) (map row_view tables.old.items) number_of_module) }
{
    if let Some(table) = tables.get_mut(number_of_module) {
        note_label(table, label, after)?;
    }
    Ok(())
}

// A procedure of a module begins before a place in the code.
fn note_begin_in(
    tables: &mut Vec<ModuleTable>,
    number_of_module: usize,
    number: usize,
    after: usize,
)
    ensures { map row_view tables.new.items
        ≡ updated (row_begun number after) (map row_view tables.old.items) number_of_module }
{
    if let Some(table) = tables.get_mut(number_of_module) {
        note_begin(table, number, after);
    }
}

// Notes an instruction that stands before a place.
fn note(
    alloc: Global,
    tables: &mut Vec<ModuleTable>,
    instruction: Instruction,
    after: usize,
) -> Result<(), AllocError>
    ensures { OnOk result (map row_view tables.new.items
        ≡ noted (map row_view tables.old.items) after instruction) }
{
    match instruction {
        Instruction::Mark { module, label } => {
            pad_tables(alloc, tables, module)?;
            note_label_in(tables, module, label, after)
        }
        Instruction::Begin { module, procedure } => {
            note_begin_in(tables, module, procedure, after);
            Ok(())
        }
        _ => Ok(()),
    }
}

// Notes each instruction of the code.
#[tactic(auto, using(crate::proofs::RowLoops::instruction_noted))]
fn note_all(
    alloc: Global,
    tables: &mut Vec<ModuleTable>,
    code: &[Instruction],
) -> Result<(), AllocError>
    ensures { OnOk result (map row_view tables.new.items
        ≡ noted_all (map row_view tables.old.items) 0 code.now) }
{
    for (at, instruction) in code.iter().enumerate() {
        note(alloc, tables, *instruction, at + 1)?;
    }
    Ok(())
}

/// Where the procedures and the labels of modules stand in the code.
#[tactic(auto, using(crate::proofs::RowLaws::tables_made))]
pub(crate) fn tables_of(
    alloc: Global,
    modules: &[Typed],
    code: &[Instruction],
) -> Result<Vec<ModuleTable>, AllocError>
    ensures { IfOk result (λ tables. AreTablesOf (map module_view modules.now) code.now tables.items) }
{
    let mut tables = started_tables(alloc, modules)?;
    note_all(alloc, &mut tables, code)?;
    Ok(tables)
}
