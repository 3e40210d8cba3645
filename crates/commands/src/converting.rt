//! Orders to convert an old source, carried out.

ghost use Rattle.std.specs.Prelude.{◌≡◌, ◌⊎◌, ◌<◌, ◌≤◌, [], length, IfOk};
ghost use Rattle.host.specs.Failure.{IfFault};
ghost use Rattle.host.specs.Files.{KeepsFiles};
ghost use Rattle.host.specs.Refusals.{Tells, file_line, refusal_line};
ghost use Rattle.host.specs.Writing.{AppendsBeginning};
ghost use Rattle.words.specs.declared.limits.TheConstants.{LONGEST_SOURCE};
ghost use Rattle.host.specs.internal.Endings.{status_of};
ghost use Rattle.command_line.specs.internal.Orders.{convert_in};
ghost use Rattle.convert.specs.Assembly.{as_it_is, parts_of};
ghost use Rattle.convert.specs.Edits.{changes_of};
ghost use Rattle.convert.specs.Preparing.{prepared, prepared_notes};
ghost use Rattle.convert.specs.Sources.{IsConverted, place_at};
ghost use Rattle.sources.specs.Faults.{line_of, number_of};
ghost use Rattle.commands.specs.Converting.{ConvertsByTables, ConvertsFile, HasNoConversion, IsNoModule, fault_line_at, medium_of};
ghost use Rattle.commands.specs.Tables.{KeepsAllBut};
ghost use Rattle.commands.specs.internal.Converting.{ComesOf, IsConvertedTo, RefusesParts, IsMadeOf, IsOfForm, IsRefusedAs, PrintsTabled, PrintsTold, UnlessFault, form_of_fault, told_line};

use crate::including::included_files;
use command_line::ConvertOrder;
use convert::{
    Advice, Assembly, Converted, Entry, Medium, PlacedNote, Rule, all_advice, all_rules, assemble,
    assemble_as_is, convert_source, line_table, name_of_file, note_lines, place_at, plain, prepare,
};
use host::{
    Ending, Failure, Files, refuse_file, refuse_memory, refuse_name, refuse_output, write_bytes,
};
use object_commands::write_file;
use sources::{LONGEST_SOURCE, ReadFault, read_source};
use std::alloc::{AllocError, Global};
use std::io::Write;

/// What a text is.
#[derive(Clone, Copy)]
pub(crate) enum Form {
    /// A module of this language, with no fault of names or of types.
    Module,
    /// A module but for such a fault.
    Mistyped,
    /// Neither.
    Old,
}

/// What a source is converted to: what is printed, the lines that tell its notes, and the table of its lines, where it is
/// wanted. Of a source without notes no line is told.
#[derive(Drop)]
pub(crate) struct Conversion {
    pub(crate) text: Vec<u8>,
    pub(crate) told: Vec<u8>,
    pub(crate) table: Vec<u8>,
}

/// Why a source is not converted: the number of a fault, the file that it is about, and the line there.
#[derive(Drop)]
pub(crate) struct Refusal {
    pub(crate) number: &'static str,
    pub(crate) file: Vec<u8>,
    pub(crate) line: u32,
}

/// Converts the source of an order by the rules of their table.
#[tactic(auto, using(crate::proofs::Converted::by_tables))]
pub(crate) fn convert_by_tables<F: Files, O: Write, E: Write>(
    alloc: Global,
    order: &ConvertOrder,
    files: &mut F,
    out: &mut O,
    err: &mut E,
) -> Ending
    ensures unchanged { KeepsAllBut (convert_in order.now).lines (F.files files.old) (F.files files.new) }
    ensures converted { ConvertsByTables (convert_in order.now) (F.files files.old)
        (F.files files.new) (status_of result) (F.failures files.old) (F.failures files.new)
        (E.contents err.old) (E.contents err.new) (O.contents out.old) (O.contents out.new) }
    ensures ending { (result ≡ Ending.Done) ⊎ (result ≡ Ending.Refused) }
    ensures count { (result ≡ Ending.Refused → ⊥) → F.failures files.new ≡ F.failures files.old }
    ensures quiet { (result ≡ Ending.Refused → ⊥) → E.contents err.new ≡ E.contents err.old }
{
    convert_file(alloc, all_rules(), all_advice(), order, files, out, err)
}

// Converts the source of an order.
#[tactic(auto, using(crate::proofs::Tables::kept_same, crate::proofs::Tables::kept_all_but))]
fn convert_file<F: Files, O: Write, E: Write>(
    alloc: Global,
    rules: &[Rule],
    advice: &Advice,
    order: &ConvertOrder,
    files: &mut F,
    out: &mut O,
    err: &mut E,
) -> Ending
    ensures unchanged { KeepsAllBut (convert_in order.now).lines (F.files files.old) (F.files files.new) }
    ensures converted { ConvertsFile rules.now advice.now (convert_in order.now) (F.files files.old)
        (F.files files.new) (status_of result) (F.failures files.old) (F.failures files.new)
        (E.contents err.old) (E.contents err.new) (O.contents out.old) (O.contents out.new) }
    ensures ending { (result ≡ Ending.Done) ⊎ (result ≡ Ending.Refused) }
    ensures count { (result ≡ Ending.Refused → ⊥) → F.failures files.new ≡ F.failures files.old }
    ensures quiet { (result ≡ Ending.Refused → ⊥) → E.contents err.new ≡ E.contents err.old }
{
    let text = match files.read_file(order.file) {
        Ok(text) => text,
        Err(Failure::Fault(fault)) => return refuse_file(fault, order.file, err),
        Err(Failure::Memory) => return refuse_memory(err),
    };
    match converted_file(alloc, rules, advice, order, text.as_slice(), files) {
        Ok(conversion) => report(order, &conversion, files, out, err),
        Err(Failure::Fault(refusal)) => tell_refusal(&refusal, err),
        Err(Failure::Memory) => refuse_memory(err),
    }
}

// What the file of an order is converted to.
fn converted_file<F: Files>(
    alloc: Global,
    rules: &[Rule],
    advice: &Advice,
    order: &ConvertOrder,
    file: &[u8],
    files: &mut F,
) -> Result<Conversion, Failure<Refusal>>
    ensures converted { IfOk result (IsConvertedTo rules.now advice.now (convert_in order.now)
        (F.files files.old) (prepared_notes advice.now (medium_of (convert_in order.now)) file.now)
        (prepared (medium_of (convert_in order.now)) file.now)) }
    ensures refused { IfFault result (IsRefusedAs advice.now (convert_in order.now) (F.files files.old)
        (prepared_notes advice.now (medium_of (convert_in order.now)) file.now)
        (prepared (medium_of (convert_in order.now)) file.now) (F.failures files.old) (F.failures files.new)) }
    ensures kept { KeepsFiles (F.files files.old) (F.files files.new) }
    ensures count { UnlessFault result (F.failures files.new ≡ F.failures files.old) }
{
    let prepared = prepare(alloc, advice, medium_of(order), file)?;
    converted_source(
        alloc,
        rules,
        advice,
        order,
        prepared.notes.as_slice(),
        prepared.text.as_slice(),
        files,
    )
}

// How the file of an order holds its source.
fn medium_of(order: &ConvertOrder) -> Medium
    ensures { result ≡ medium_of (convert_in order.now) }
{
    Medium {
        listing: order.listing,
        cards: order.cards,
    }
}

// What a source is converted to, after what was told before.
fn converted_source<F: Files>(
    alloc: Global,
    rules: &[Rule],
    advice: &Advice,
    order: &ConvertOrder,
    before: &[PlacedNote],
    text: &[u8],
    files: &mut F,
) -> Result<Conversion, Failure<Refusal>>
    ensures converted { IfOk result
        (IsConvertedTo rules.now advice.now (convert_in order.now) (F.files files.old) before.now text.now) }
    ensures refused { IfFault result (IsRefusedAs advice.now (convert_in order.now) (F.files files.old)
        before.now text.now (F.failures files.old) (F.failures files.new)) }
    ensures kept { KeepsFiles (F.files files.old) (F.files files.new) }
    ensures count { UnlessFault result (F.failures files.new ≡ F.failures files.old) }
{
    if text.len() > LONGEST_SOURCE {
        let refusal = refusal_of(alloc, ReadFault::TooLong, order.file.as_bytes(), 0)?;
        return Err(Failure::Fault(refusal));
    }
    match form_of(alloc, text)? {
        Form::Module => {
            let conversion = module_as_it_is(alloc, order, before, text)?;
            Ok(conversion)
        }
        Form::Mistyped => converted_module(alloc, rules, order, before, text),
        Form::Old => converted_old(alloc, rules, advice, order, before, text, files),
    }
}

// What a text is.
#[tactic(auto, using(crate::proofs::Converted::source_is_module, crate::proofs::Converted::of_form))]
fn form_of(alloc: Global, text: &[u8]) -> Result<Form, AllocError>
    requires { length text.now ≤ LONGEST_SOURCE }
    ensures { IfOk result (λ form. IsOfForm text.now form) }
{
    match read_source(alloc, text) {
        Ok(_) => Ok(Form::Module),
        Err(Failure::Fault(fault)) => Ok(form_of_fault(fault)),
        // Memory ran out while it was read.
        Err(Failure::Memory) => Err(AllocError),
    }
}

// What a text with this fault is.
fn form_of_fault(fault: ReadFault) -> Form
    ensures { result ≡ form_of_fault fault }
{
    match fault {
        ReadFault::Typing(_) => Form::Mistyped,
        ReadFault::Storage(_) => Form::Module,
        ReadFault::TooLong | ReadFault::Words(_) | ReadFault::Expansion(_) | ReadFault::Syntax(_) =>
            Form::Old,
    }
}

// A module as it is.
fn module_as_it_is(
    alloc: Global,
    order: &ConvertOrder,
    before: &[PlacedNote],
    text: &[u8],
) -> Result<Conversion, AllocError>
    ensures { IfOk result
        (IsMadeOf (convert_in order.now) [] (as_it_is before.now text.now) [] text.now before.now) }
{
    let assembly = assemble_as_is(alloc, before, text)?;
    let unchanged = Converted {
        text: Vec::from_slice(alloc, text)?,
        edits: Vec::new(alloc),
        notes: Vec::from_slice(alloc, before)?,
    };
    conversion_of(alloc, order, &[], &assembly, unchanged)
}

// What a text is converted to that would be a module but for a fault of names or of types: its words alone are changed.
fn converted_module(
    alloc: Global,
    rules: &[Rule],
    order: &ConvertOrder,
    before: &[PlacedNote],
    text: &[u8],
) -> Result<Conversion, Failure<Refusal>>
    ensures made { IfOk result
        (ComesOf (convert_in order.now) [] (as_it_is before.now text.now) rules.now) }
    ensures refused { IfFault result (RefusesParts (convert_in order.now) [] (as_it_is before.now text.now)) }
{
    let assembly = assemble_as_is(alloc, before, text)?;
    converted_assembly(alloc, rules, order, &[], &assembly)
}

// What a text is converted to that is no module, with the files that it includes.
fn converted_old<F: Files>(
    alloc: Global,
    rules: &[Rule],
    advice: &Advice,
    order: &ConvertOrder,
    before: &[PlacedNote],
    text: &[u8],
    files: &mut F,
) -> Result<Conversion, Failure<Refusal>>
    requires { IsNoModule text.now }
    ensures converted { IfOk result
        (IsConvertedTo rules.now advice.now (convert_in order.now) (F.files files.old) before.now text.now) }
    ensures refused { IfFault result (IsRefusedAs advice.now (convert_in order.now) (F.files files.old)
        before.now text.now (F.failures files.old) (F.failures files.new)) }
    ensures kept { KeepsFiles (F.files files.old) (F.files files.new) }
    ensures count { UnlessFault result (F.failures files.new ≡ F.failures files.old) }
{
    let source = plain(alloc, text)?;
    let entries = match included_files(alloc, advice, order, before, source.as_slice(), files) {
        Ok(entries) => entries,
        Err(Failure::Fault(name)) => return Err(Failure::Fault(unread(name))),
        Err(Failure::Memory) => return Err(Failure::Memory),
    };
    let sets = order.sets.as_slice();
    let assembly = assemble(
        alloc,
        advice,
        entries.as_slice(),
        before,
        sets,
        source.as_slice(),
    )?;
    converted_assembly(alloc, rules, order, entries.as_slice(), &assembly)
}

// That a file that is included can't be read.
fn unread(name: Vec<u8>) -> Refusal
    ensures line { told_line result ≡ file_line name.items }
    ensures file { result.file.items ≡ name.items }
{
    Refusal {
        number: "U3",
        file: name,
        line: 0,
    }
}

// What is converted of what was put together of a source and of these files.
fn converted_assembly(
    alloc: Global,
    rules: &[Rule],
    order: &ConvertOrder,
    entries: &[Entry],
    assembly: &Assembly,
) -> Result<Conversion, Failure<Refusal>>
    ensures made { IfOk result
        (ComesOf (convert_in order.now) entries.now (parts_of assembly.now) rules.now) }
    ensures refused { IfFault result (RefusesParts (convert_in order.now) entries.now (parts_of assembly.now)) }
{
    match converted_text(alloc, rules, assembly) {
        Ok(converted) => {
            let conversion = conversion_of(alloc, order, entries, assembly, converted)?;
            Ok(conversion)
        }
        Err(Failure::Fault(fault)) => {
            let refusal = fault_of(alloc, order.file, entries, assembly, &fault)?;
            Err(Failure::Fault(refusal))
        }
        Err(Failure::Memory) => Err(Failure::Memory),
    }
}

// What was put together, with its words changed.
fn converted_text(
    alloc: Global,
    rules: &[Rule],
    assembly: &Assembly,
) -> Result<Converted, Failure<ReadFault>>
    ensures converted { IfOk result (λ converted. IsConverted rules.now (parts_of assembly.now)
        (changes_of converted.edits.items) converted.text.items converted.notes.items) }
    ensures refused { IfFault result (HasNoConversion (parts_of assembly.now).text) }
{
    if assembly.text.len() > LONGEST_SOURCE {
        return Err(Failure::Fault(ReadFault::TooLong));
    }
    match convert_source(alloc, rules, assembly) {
        Ok(converted) => Ok(converted),
        Err(Failure::Fault(fault)) => Err(Failure::Fault(ReadFault::Expansion(fault))),
        Err(Failure::Memory) => Err(Failure::Memory),
    }
}

// What is printed and told of what was converted, with the table of its lines, if it is wanted.
fn conversion_of(
    alloc: Global,
    order: &ConvertOrder,
    entries: &[Entry],
    assembly: &Assembly,
    converted: Converted,
) -> Result<Conversion, AllocError>
    ensures { IfOk result (IsMadeOf (convert_in order.now) entries.now (parts_of assembly.now)
        (changes_of converted.edits.items) converted.text.items converted.notes.items) }
{
    let table = match order.lines {
        Some(_) => line_table(
            alloc,
            order.file,
            entries,
            assembly,
            converted.edits.as_slice(),
            converted.text.as_slice(),
        )?,
        None => Vec::new(alloc),
    };
    let told = note_lines(alloc, order.file, entries, converted.notes.as_slice())?;
    Ok(Conversion {
        text: converted.text,
        told,
        table,
    })
}

// A fault of what was put together, at the place from which its line comes.
fn fault_of(
    alloc: Global,
    name: &str,
    entries: &[Entry],
    assembly: &Assembly,
    fault: &ReadFault,
) -> Result<Refusal, AllocError>
    ensures { IfOk result (λ refusal. told_line refusal ≡ fault_line_at name.now entries.now
        (place_at (parts_of assembly.now).places (line_of fault.now)) fault.now) }
{
    let place = place_at(assembly.places.as_slice(), fault.line() as usize);
    let file = name_of_file(name.as_bytes(), entries, place.file);
    let line = place.line.min(4_294_967_295) as u32;
    refusal_of(alloc, *fault, file, line)
}

// A fault that is told at a line of a file.
fn refusal_of(
    alloc: Global,
    fault: ReadFault,
    file: &[u8],
    line: u32,
) -> Result<Refusal, AllocError>
    ensures { IfOk result (λ refusal. told_line refusal ≡ refusal_line (number_of fault) file.now line) }
{
    Ok(Refusal {
        number: fault.number(),
        file: Vec::from_slice(alloc, file)?,
        line,
    })
}

// Tells why a source is not converted.
fn tell_refusal<E: Write>(refusal: &Refusal, err: &mut E) -> Ending
    ensures ending { result ≡ Ending.Refused }
    ensures told { Tells (told_line refusal.now) (E.contents err.old) (E.contents err.new) }
{
    refuse_name(refusal.number, refusal.file.as_slice(), refusal.line, err)
}

// Writes the table of a conversion, if it is wanted, prints the text, and tells the notes.
#[tactic(auto, using(crate::proofs::Tables::kept_same, crate::proofs::Tables::kept_all_but))]
fn report<F: Files, O: Write, E: Write>(
    order: &ConvertOrder,
    conversion: &Conversion,
    files: &mut F,
    out: &mut O,
    err: &mut E,
) -> Ending
    ensures unchanged { KeepsAllBut (convert_in order.now).lines (F.files files.old) (F.files files.new) }
    ensures printed { PrintsTabled (convert_in order.now) conversion.now (F.files files.old)
        (F.files files.new) (status_of result) (F.failures files.old) (F.failures files.new)
        (E.contents err.old) (E.contents err.new) (O.contents out.old) (O.contents out.new) }
    ensures ending { (result ≡ Ending.Done) ⊎ (result ≡ Ending.Refused) }
    ensures count { (result ≡ Ending.Refused → ⊥) → F.failures files.new ≡ F.failures files.old }
    ensures quiet { (result ≡ Ending.Refused → ⊥) → E.contents err.new ≡ E.contents err.old }
{
    let Some(name) = order.lines else {
        return print(conversion, out, err);
    };
    match write_file(name, conversion.table.as_slice(), files) {
        Ok(()) => print(conversion, out, err),
        Err(Failure::Fault(fault)) => refuse_file(fault, name, err),
        Err(Failure::Memory) => refuse_memory(err),
    }
}

// Prints the text of a conversion, and tells the notes.
fn print<O: Write, E: Write>(conversion: &Conversion, out: &mut O, err: &mut E) -> Ending
    ensures printed { PrintsTold conversion.now (status_of result)
        (E.contents err.old) (E.contents err.new) (O.contents out.old) (O.contents out.new) }
    ensures ending { (result ≡ Ending.Done) ⊎ (result ≡ Ending.Refused) }
    ensures quiet { (result ≡ Ending.Refused → ⊥) → E.contents err.new ≡ E.contents err.old }
{
    match write_bytes(out, conversion.text.as_slice()) {
        Ok(()) => tell(conversion.told.as_slice(), err),
        Err(Failure::Fault(_)) => refuse_output(err),
        Err(Failure::Memory) => refuse_memory(err),
    }
}

// Tells the lines of notes, if there are any.
fn tell<E: Write>(lines: &[u8], err: &mut E) -> Ending
    ensures done { result ≡ Ending.Done → lines.now ≡ [] }
    ensures some { result ≡ Ending.Refused → 0 < length lines.now }
    ensures told { result ≡ Ending.Refused →
        AppendsBeginning (E.contents err.old) (E.contents err.new) lines.now }
    ensures ending { (result ≡ Ending.Done) ⊎ (result ≡ Ending.Refused) }
    ensures quiet { (result ≡ Ending.Refused → ⊥) → E.contents err.new ≡ E.contents err.old }
{
    if lines.is_empty() {
        return Ending::Done;
    }
    let _ = write_bytes(err, lines);
    Ending::Refused
}
