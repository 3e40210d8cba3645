//! Names that stand for addresses.

ghost use Rattle.std.specs.Prelude.{◌≡◌, ◌++◌, ◌∷◌, [], Contains, IfOk, OnOk, map, option_map, option_to_list, true};
ghost use Rattle.typed_trees.specs.Views.{module_view, object_view, procedure_view};
ghost use Rattle.listings.specs.Names.{is_private, module_symbols, names_in_code, object_symbol, procedure_symbol, public_symbols, symbol_of};
ghost use Rattle.typed_trees.specs.Weight.{constant_bytes};
ghost use Rattle.listings.specs.internal.Marks.{begins_in, lies_within};
ghost use Rattle.listings.specs.internal.Programs.{code_size, AddsNames, HasNames, IsNameAmong, IsNameIn, object_names, object_of, pair_of, public_names, typed_of};
ghost use Rattle.listings.specs.internal.Views.{name_at, named_view, routine_name, text_of_name};

use crate::code_places::address_of;
use crate::procedures::public_place;
use crate::view::ModuleView;
use codegen8080::CodePart;
use object_modules::Name;
use runtime8080::Routine;
use std::alloc::{AllocError, Global};
use tool::SourceMark;
use typed_trees::{Home, TypedObject, TypedProcedure, Visibility};

/// What a name is written as: a name of the source, or that of a routine, which has small letters.
#[derive(Clone, Copy)]
pub(crate) enum NameText {
    Declared(Name),
    Routine(Routine),
}

/// A name and the address that it stands for.
#[derive(Clone, Copy)]
pub(crate) struct Named {
    pub(crate) address: u16,
    pub(crate) text: NameText,
}

// The name of a routine.
fn routine_name(routine: Routine) -> &'static str
    ensures { result.now ≡ routine_name routine }
{
    match routine {
        Routine::Multiply => "Multiply",
        Routine::Divide => "Divide",
        Routine::ShiftLeftByte => "ShiftLeftByte",
        Routine::ShiftRightByte => "ShiftRightByte",
        Routine::ShiftLeftAddress => "ShiftLeftAddress",
        Routine::ShiftRightAddress => "ShiftRightAddress",
        Routine::RotateLeft => "RotateLeft",
        Routine::RotateRight => "RotateRight",
        Routine::Move => "Move",
    }
}

impl Named {
    ghost use Rattle.std.specs.Prelude.{◌≡◌};
    ghost use Rattle.listings.specs.internal.Views.{named_view};

    /// What the name is written as.
    pub(crate) fn as_bytes(&self) -> &[u8]
        ensures { result.now ≡ (named_view self.now).name }
    {
        match &self.text {
            NameText::Declared(name) => name.as_slice(),
            NameText::Routine(routine) => routine_name(*routine).as_bytes(),
        }
    }
}

// Whether a procedure is neither PUBLIC nor EXTERNAL.
fn is_private(visibility: Visibility) -> bool
    ensures { result ≡ is_private visibility }
{
    match visibility {
        Visibility::Private => true,
        Visibility::Public | Visibility::External => false,
    }
}

// Adds a name that the source declares.
#[tactic(auto, using(crate::proofs::NamesAdded::name_pushed))]
fn push_name(names: &mut Vec<Named>, address: u16, name: Name) -> Result<(), AllocError>
    ensures { OnOk result (map named_view names.new.items
        ≡ map named_view names.old.items ++ symbol_of name address ∷ []) }
{
    let text = NameText::Declared(name);
    names.push(Named { address, text })?;
    Ok(())
}

// Adds the name of a routine, if a part of the code of a module is one.
#[tactic(auto, using(crate::proofs::NamesAdded::no_names, crate::proofs::NamesAdded::routine_added))]
fn put_routine(
    names: &mut Vec<Named>,
    view: &ModuleView,
    mark: SourceMark,
) -> Result<(), AllocError>
    requires within { lies_within (constant_bytes (typed_of view.now)) (code_size view.now) mark ≡ true }
    ensures { OnOk result (AddsNames (IsNameIn view.now) names.old.items names.new.items) }
{
    let CodePart::Routine(routine) = mark.part else {
        return Ok(());
    };
    let address = address_of(view.code_base, mark.place as u32);
    let text = NameText::Routine(routine);
    names.push(Named { address, text })?;
    Ok(())
}

// Adds the names of the routines of a module.
#[tactic(auto, using(crate::proofs::NamesAdded::no_names, crate::proofs::NamesAdded::names_joined, crate::proofs::ProcedureCodes::mark_within))]
fn put_routines(names: &mut Vec<Named>, view: &ModuleView) -> Result<(), AllocError>
    ensures { OnOk result (AddsNames (IsNameIn view.now) names.old.items names.new.items) }
{
    for mark in view.marks.marks.iter() {
        put_routine(names, view, *mark)?;
    }
    Ok(())
}

// Adds the name of a procedure that begins at a place, if it is neither PUBLIC nor EXTERNAL.
#[tactic(auto, using(crate::proofs::NamesAdded::no_names, crate::proofs::NamesAdded::private_added))]
fn put_private(
    names: &mut Vec<Named>,
    view: &ModuleView,
    procedure: &TypedProcedure,
    place: u16,
) -> Result<(), AllocError>
    requires named { is_private (procedure_view procedure.now).visibility ≡ true
        → Contains (names_in_code (typed_of view.now)) (procedure_view procedure.now).name }
    requires begins { begins_in (constant_bytes (typed_of view.now)) (object_of view.now)
        (procedure_view procedure.now) place ≡ true }
    ensures { OnOk result (AddsNames (IsNameIn view.now) names.old.items names.new.items) }
{
    if !is_private(procedure.visibility) {
        return Ok(());
    }
    let address = address_of(view.code_base, place as u32);
    let text = NameText::Declared(procedure.name);
    names.push(Named { address, text })?;
    Ok(())
}

// Adds the names of such procedures of a module.
#[tactic(auto, using(crate::proofs::NamesAdded::no_names, crate::proofs::NamesAdded::names_joined, crate::proofs::NamesAdded::all_privates, crate::proofs::NamesAdded::privates_first, crate::proofs::NamesAdded::privates_later, crate::proofs::ProcedureCodes::begins_first, crate::proofs::ProcedureCodes::begin_later))]
fn put_privates(names: &mut Vec<Named>, view: &ModuleView) -> Result<(), AllocError>
    ensures { OnOk result (AddsNames (IsNameIn view.now) names.old.items names.new.items) }
{
    let mut rest = view.typed.procedures.as_slice();
    let mut places = view.procedures;
    while let [procedure, more @ ..] = rest {
        let [place, more_places @ ..] = places else {
            return Ok(());
        };
        put_private(names, view, procedure, *place)?;
        rest = more;
        places = more_places;
    }
    Ok(())
}

// Adds the names of such procedures and of the routines of a module.
#[tactic(auto, using(crate::proofs::NamesAdded::names_joined))]
fn put_parts(names: &mut Vec<Named>, view: &ModuleView) -> Result<(), AllocError>
    ensures { OnOk result (AddsNames (IsNameIn view.now) names.old.items names.new.items) }
{
    put_privates(names, view)?;
    put_routines(names, view)
}

// Adds the names of such procedures and of the routines of modules.
#[tactic(auto, using(crate::proofs::NamesAdded::parts_begun, crate::proofs::NamesAdded::parts_done))]
fn put_all_parts(names: &mut Vec<Named>, views: &[ModuleView]) -> Result<(), AllocError>
    ensures { OnOk result (AddsNames (IsNameAmong views.now) names.old.items names.new.items) }
{
    let mut rest = views;
    while let [view, more @ ..] = rest {
        put_parts(names, view)?;
        rest = more;
    }
    Ok(())
}

// Adds the name of a procedure, if it is PUBLIC.
#[tactic(auto, using(crate::proofs::NamesAdded::nothing_named, crate::proofs::NamesAdded::procedure_named))]
fn put_procedure(
    names: &mut Vec<Named>,
    view: &ModuleView,
    procedure: &TypedProcedure,
) -> Result<(), AllocError>
    ensures { OnOk result (map named_view names.new.items ≡ map named_view names.old.items
        ++ option_to_list
        (procedure_symbol view.now.code_base (object_of view.now).publics (procedure_view procedure.now))) }
{
    match public_place(view.object, procedure) {
        Some(place) => {
            let address = address_of(view.code_base, place as u32);
            push_name(names, address, procedure.name)
        }
        None => Ok(()),
    }
}

// Adds the names of the PUBLIC procedures of a module.
#[tactic(auto, using(crate::proofs::NamesAdded::procedures_more, crate::proofs::NamesAdded::procedures_done))]
fn put_procedures(names: &mut Vec<Named>, view: &ModuleView) -> Result<(), AllocError>
    ensures { OnOk result (map named_view names.new.items ≡ map named_view names.old.items
        ++ public_symbols view.now.code_base (typed_of view.now) (object_of view.now)) }
{
    let mut rest = view.typed.procedures.as_slice();
    while let [procedure, more @ ..] = rest {
        put_procedure(names, view, procedure)?;
        rest = more;
    }
    Ok(())
}

// Adds the names of the PUBLIC procedures of modules.
#[tactic(auto, using(crate::proofs::NamesAdded::more_of, crate::proofs::NamesAdded::none_of))]
fn put_all_procedures(names: &mut Vec<Named>, views: &[ModuleView]) -> Result<(), AllocError>
    ensures { OnOk result (map named_view names.new.items
        ≡ map named_view names.old.items ++ public_names views.now) }
{
    let mut rest = views;
    while let [view, more @ ..] = rest {
        put_procedures(names, view)?;
        rest = more;
    }
    Ok(())
}

// Adds the name of an object, if that lies in a segment of its module.
#[tactic(auto, using(crate::proofs::NamesAdded::nothing_named))]
fn put_object(names: &mut Vec<Named>, object: &TypedObject, address: u16) -> Result<(), AllocError>
    ensures { OnOk result (map named_view names.new.items ≡ map named_view names.old.items
        ++ option_to_list (object_symbol (object_view object.now, address))) }
{
    match object.home {
        Home::Data(_) | Home::Constant(_) => push_name(names, address, object.name),
        Home::At(_) | Home::Based(_) | Home::External | Home::Absent | Home::Frame(_) => Ok(()),
    }
}

// Adds the names of the objects in the segments of a module.
#[tactic(auto, using(crate::proofs::NamesAdded::objects_more, crate::proofs::NamesAdded::objects_done, crate::proofs::NamesAdded::addresses_done))]
fn put_objects(names: &mut Vec<Named>, view: &ModuleView) -> Result<(), AllocError>
    ensures { OnOk result (map named_view names.new.items
        ≡ map named_view names.old.items ++ module_symbols (pair_of view.now)) }
{
    let mut objects = view.typed.objects.as_slice();
    let mut addresses = view.placed.objects.as_slice();
    while let [object, more @ ..] = objects {
        let [address, more_addresses @ ..] = addresses else {
            return Ok(());
        };
        put_object(names, object, *address)?;
        objects = more;
        addresses = more_addresses;
    }
    Ok(())
}

// Adds the names of the objects in the segments of modules.
#[tactic(auto, using(crate::proofs::NamesAdded::more_of, crate::proofs::NamesAdded::none_of))]
fn put_all_objects(names: &mut Vec<Named>, views: &[ModuleView]) -> Result<(), AllocError>
    ensures { OnOk result (map named_view names.new.items
        ≡ map named_view names.old.items ++ object_names views.now) }
{
    let mut rest = views;
    while let [view, more @ ..] = rest {
        put_objects(names, view)?;
        rest = more;
    }
    Ok(())
}

/// The names of modules: of the objects and the procedures that lie in their segments, and of the routines. Objects AT an
/// address are not among them.
#[tactic(auto, using(crate::proofs::NamesAdded::names_whole))]
pub(crate) fn names_of(alloc: Global, views: &[ModuleView]) -> Result<Vec<Named>, AllocError>
    ensures { IfOk result (λ names. HasNames views.now (map named_view names.items)) }
{
    let mut names = Vec::new(alloc);
    put_all_objects(&mut names, views)?;
    put_all_procedures(&mut names, views)?;
    put_all_parts(&mut names, views)?;
    Ok(names)
}

/// The name of an address, if it has one.
pub(crate) fn name_at(names: &[Named], address: u16) -> Option<&Named>
    ensures { option_map (λ named. named_view named.now) result ≡ name_at names.now address }
{
    let mut rest = names;
    while let [named, more @ ..] = rest {
        if named.address == address {
            return Some(named);
        }
        rest = more;
    }
    None
}
