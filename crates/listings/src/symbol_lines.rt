//! The symbols of a program: its procedures, its variables and the lines of its code, with their addresses.

ghost use Rattle.std.specs.Prelude.{◌≡◌, ◌+◌, ◌≤◌, ◌++◌, ◌∷◌, [], IfOk, IfSome, None, OnOk, codes, false, length, true};
ghost use Rattle.layout.specs.Placement.{kind_of};
ghost use Rattle.object_commands.specs.Placing.{range_line};
ghost use Rattle.typed_trees.specs.Views.{object_view, procedure_view};
ghost use Rattle.typed_trees.specs.Weight.{constant_bytes};
ghost use Rattle.sources.specs.Programs.{IsProgramOf, program_modules, texts_of};
ghost use Rattle.sources.specs.declared.sources.TheConstants.{MOST_SOURCES};
ghost use Rattle.listings.specs.Symbols.{IsOwnerBy, IsOwnerOf, SymbolsOfProgram, is_own, object_line, source_line};
ghost use Rattle.listings.specs.internal.Adding.{Adds};
ghost use Rattle.listings.specs.internal.Marks.{begins_in};
ghost use Rattle.listings.specs.internal.Programs.{object_of, typed_of};
ghost use Rattle.listings.specs.internal.Symbols.{ArePlacesIn, IsPlaceIn, KeepsPlaces, HasLine, HasObjectLines, HasProcedureLines, HasSourceLines, HasSymbolsOf, HaveSymbolsOf, has_kind, owner_text, procedure_names};

use crate::code_places::address_of;
use crate::places::{put_address, put_range};
use crate::procedures::{code_of, procedure_at, procedure_with};
use crate::text_lines::line_count;
use crate::view::ModuleView;
use crate::views::{all_marks, views_of};
use object_modules::Name;
use std::alloc::{AllocError, Global};
use std::io;
use std::io::Write;
use tool::{Built, Source};
use trees::next_number;
use typed_trees::{Home, TypedObject, TypedProcedure, Visibility};

// Whether a procedure is not EXTERNAL.
fn is_own(visibility: Visibility) -> bool
    ensures { result ≡ is_own visibility }
{
    match visibility {
        Visibility::External => false,
        Visibility::Private | Visibility::Public => true,
    }
}

// Adds the line of what has a name in a module: a word, both names, an address and a number of bytes.
#[tactic(auto, using(crate::proofs::SymbolTexts::line_joined))]
fn put_named(
    lines: &mut Vec<u8>,
    word: &str,
    of_module: &Name,
    name: &Name,
    address: u16,
    size: u32,
) -> io::Result<()>
    ensures { OnOk result (lines.new.items ≡ lines.old.items
        ++ range_line (word.now ++ of_module.now ++ 32 ∷ name.now) address size) }
{
    write!(lines, "{word}{of_module} {name}")?;
    put_range(lines, address, size)
}

// Adds the line of a procedure, unless it is EXTERNAL.
#[tactic(auto, using(crate::proofs::SymbolTexts::external_left_out, crate::proofs::SymbolTexts::procedure_added))]
fn put_procedure(
    lines: &mut Vec<u8>,
    view: &ModuleView,
    procedure: &TypedProcedure,
    place: u16,
) -> io::Result<()>
    requires begins { begins_in (constant_bytes (typed_of view.now)) (object_of view.now)
        (procedure_view procedure.now) place ≡ true }
    ensures { OnOk result
        (Adds (HasProcedureLines view.now (procedure_view procedure.now ∷ []))
        lines.old.items lines.new.items) }
{
    if !is_own(procedure.visibility) {
        return Ok(());
    }
    let code = code_of(view, procedure, place);
    let address = address_of(view.code_base, code.place);
    put_named(
        lines,
        "PROC ",
        &view.typed.name,
        &procedure.name,
        address,
        code.size,
    )
}

// Adds the lines of the procedures of a module.
#[tactic(auto, using(crate::proofs::Adding::text_begun, crate::proofs::SymbolTexts::procedure_next, crate::proofs::SymbolTexts::procedures_ended, crate::proofs::SymbolTexts::procedures_cut, crate::proofs::ProcedureCodes::begins_first, crate::proofs::ProcedureCodes::begin_later))]
fn put_procedures(lines: &mut Vec<u8>, view: &ModuleView) -> io::Result<()>
    ensures { OnOk result (Adds (HasProcedureLines view.now (typed_of view.now).procedures)
        lines.old.items lines.new.items) }
{
    let mut rest = view.typed.procedures.as_slice();
    let mut places = view.procedures;
    while let [procedure, more @ ..] = rest {
        let [place, more_places @ ..] = places else {
            return Ok(());
        };
        put_procedure(lines, view, procedure, *place)?;
        rest = more;
        places = more_places;
    }
    Ok(())
}

// The name of the procedure in which the source declares an object, if it is in one.
#[tactic(auto, using(crate::proofs::SymbolTexts::no_owner, crate::proofs::SymbolTexts::owner_found))]
fn owner_in_source(view: &ModuleView, object: u32) -> Option<Name>
    ensures { IsOwnerBy false None (procedure_names (typed_of view.now)) (owner_text result) }
{
    let owner = *view.marks.owners.get(object as usize)?;
    let procedure = procedure_at(view.typed, owner?)?;
    Some(procedure.name)
}

// The name of the procedure in which an object is declared, if it is in one. A PUBLIC object is in none, and a parameter is in
// its procedure.
#[tactic(auto, using(crate::proofs::SymbolTexts::public_unowned, crate::proofs::SymbolTexts::parameter_owned, crate::proofs::SymbolTexts::source_owned))]
fn owner_of(view: &ModuleView, object: &TypedObject, number: u32) -> Option<Name>
    ensures { IsOwnerOf (typed_of view.now) number (object_view object.now) (owner_text result) }
{
    if object.is_public {
        return None;
    }
    match procedure_with(view.typed, number) {
        Some(procedure) => Some(procedure.name),
        None => owner_in_source(view, number),
    }
}

// Whether an object has a place of its own.
fn has_place(object: &TypedObject) -> bool
    ensures { result ≡ has_kind (kind_of (object_view object.now).home) }
{
    match object.home {
        Home::Data(_) | Home::Constant(_) | Home::At(_) => true,
        Home::Based(_) | Home::External | Home::Absent | Home::Frame(_) => false,
    }
}

// Begins the line of an object of a procedure, or of none, with its name and that of its module.
fn put_variable(
    lines: &mut Vec<u8>,
    of_module: &Name,
    name: &Name,
    owner: Option<Name>,
) -> io::Result<()>
    ensures { OnOk result (lines.new.items ≡ lines.old.items
        ++ (codes "VAR " ++ of_module.now ++ 32 ∷ owner_text owner ++ 32 ∷ name.now)) }
{
    match owner {
        Some(owner) => write!(lines, "VAR {of_module} {owner} {name}"),
        None => write!(lines, "VAR {of_module} - {name}"),
    }
}

// Adds the line of an object of a procedure, or of none, if it has a place.
#[tactic(auto, using(crate::proofs::SymbolTexts::object_placed, crate::proofs::SymbolTexts::object_without_place))]
fn put_object(
    lines: &mut Vec<u8>,
    of_module: &Name,
    object: &TypedObject,
    owner: Option<Name>,
    address: u16,
) -> io::Result<()>
    ensures { OnOk result (lines.new.items ≡ lines.old.items
        ++ object_line of_module.now ((object_view object.now, address), owner_text owner)) }
{
    if !has_place(object) {
        return Ok(());
    }
    put_variable(lines, of_module, &object.name, owner)?;
    put_range(lines, address, object.size())
}

// Adds the lines of the objects of a module that have a place.
#[tactic(auto, using(crate::proofs::Adding::text_begun, crate::proofs::SymbolTexts::object_next, crate::proofs::SymbolTexts::objects_ended, crate::proofs::SymbolTexts::addresses_ended))]
fn put_objects(lines: &mut Vec<u8>, view: &ModuleView) -> io::Result<()>
    ensures { OnOk result (Adds (HasObjectLines (typed_of view.now)
        (0, ((typed_of view.now).objects, view.now.placed.now.objects.items)))
        lines.old.items lines.new.items) }
{
    let mut number: u32 = 0;
    let mut objects = view.typed.objects.as_slice();
    let mut addresses = view.placed.objects.as_slice();
    while let [object, more @ ..] = objects {
        let [address, more_addresses @ ..] = addresses else {
            return Ok(());
        };
        let owner = owner_of(view, object, number);
        put_object(lines, &view.typed.name, object, owner, *address)?;
        number = next_number(number)?;
        objects = more;
        addresses = more_addresses;
    }
    Ok(())
}

// Notes the place of a mark for its line, unless that has one.
#[tactic(auto, using(crate::proofs::SymbolTexts::place_kept, crate::proofs::SymbolTexts::same_places))]
fn note(first: &mut Vec<Option<u32>>, line: u32, place: u32)
    ensures length { length first.new.items ≡ length first.old.items }
    ensures placed { KeepsPlaces place first.old.items first.new.items }
{
    let index = line as usize;
    if let Some(None) = first.get(index) {
        first[index] = Some(place);
    }
}

// The place of the first code of each line of a source of `count` lines, by the line's number. Code in no line has 0.
#[tactic(auto, using(crate::proofs::SymbolTexts::no_places, crate::proofs::ProcedureCodes::mark_within, crate::proofs::ProcedureCodes::mark_in_code))]
fn first_code(alloc: Global, view: &ModuleView, count: u32) -> Result<Vec<Option<u32>>, AllocError>
    ensures length { IfOk result (λ first. length first.items ≡ count + 1) }
    ensures placed { IfOk result (λ first. ArePlacesIn view.now first.items) }
{
    let mut first = Vec::new(alloc);
    first.resize(count as usize + 1, None)?;
    for mark in view.marks.marks.iter() {
        note(&mut first, mark.line, mark.place as u32);
    }
    Ok(first)
}

// Adds the line of a line of a module.
#[tactic(auto, using(std::proofs::lemmas::List::append_assoc))]
fn put_source_line(
    lines: &mut Vec<u8>,
    view: &ModuleView,
    number: usize,
    place: u32,
) -> io::Result<()>
    ensures { OnOk result (lines.new.items
        ≡ lines.old.items ++ source_line (typed_of view.now).name view.now.code_base (number, place)) }
{
    let of_module = &view.typed.name;
    write!(lines, "LINE {of_module} {number}")?;
    put_address(lines, address_of(view.code_base, place))?;
    writeln!(lines)
}

// Adds the line of a line of a module, if code begins in it.
#[tactic(auto, using(crate::proofs::SymbolTexts::line_added, crate::proofs::SymbolTexts::no_line_added))]
fn put_line_if(
    lines: &mut Vec<u8>,
    view: &ModuleView,
    number: usize,
    place: Option<u32>,
) -> io::Result<()>
    requires in_code { IfSome place (IsPlaceIn view.now) }
    ensures { OnOk result (Adds (HasLine view.now number) lines.old.items lines.new.items) }
{
    match place {
        Some(place) => put_source_line(lines, view, number, place),
        None => Ok(()),
    }
}

// Adds the lines of the lines of a module in which code begins.
#[tactic(auto, using(crate::proofs::Adding::text_begun, crate::proofs::SymbolTexts::line_next, crate::proofs::SymbolTexts::lines_ended, crate::proofs::SymbolTexts::place_there))]
fn put_lines(lines: &mut Vec<u8>, view: &ModuleView, first: &[Option<u32>]) -> io::Result<()>
    requires placed { ArePlacesIn view.now first.now }
    ensures { OnOk result
        (Adds (HasSourceLines view.now (length first.now) 1) lines.old.items lines.new.items) }
{
    for number in 1..first.len() {
        put_line_if(lines, view, number, first[number])?;
    }
    Ok(())
}

// Adds the symbols of a module.
#[tactic(auto, using(crate::proofs::SymbolTexts::symbols_joined))]
fn put_module(alloc: Global, lines: &mut Vec<u8>, view: &ModuleView) -> io::Result<()>
    ensures { OnOk result (Adds (HasSymbolsOf view.now) lines.old.items lines.new.items) }
{
    put_procedures(lines, view)?;
    put_objects(lines, view)?;
    let count = line_count(view.text)?;
    let first = first_code(alloc, view, count)?;
    put_lines(lines, view, first.as_slice())
}

// The symbols of modules.
#[tactic(auto, using(crate::proofs::Adding::text_begun, crate::proofs::SymbolTexts::module_next, crate::proofs::SymbolTexts::modules_ended))]
fn symbols_in(alloc: Global, views: &[ModuleView]) -> Result<Vec<u8>, AllocError>
    ensures { IfOk result (λ lines. HaveSymbolsOf views.now lines.items) }
{
    let mut lines = Vec::new(alloc);
    let mut rest = views;
    while let [view, more @ ..] = rest {
        // This is an `AllocError`: a write into a vector has no other error.
        let Ok(()) = put_module(alloc, &mut lines, view) else {
            return Err(AllocError);
        };
        rest = more;
    }
    Ok(lines)
}

/// The symbols of a program that was built from these sources: its procedures, its variables and the lines of its code.
#[tactic(auto, using(crate::proofs::SymbolTexts::program_symbols))]
pub fn symbols_of(alloc: Global, built: &Built, sources: &[Source]) -> Result<Vec<u8>, AllocError>
    requires few { length sources.now ≤ MOST_SOURCES }
    requires program { IsProgramOf (texts_of sources.now) (program_modules built.now.program) }
    ensures symbols { IfOk result (λ lines. SymbolsOfProgram (texts_of sources.now) built.now lines.items) }
{
    let marks = all_marks(alloc, built, sources)?;
    let views = views_of(alloc, built, sources, marks.as_slice())?;
    let lines = symbols_in(alloc, views.as_slice())?;
    Ok(lines)
}
