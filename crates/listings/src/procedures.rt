//! The procedures of a module: where their code begins, and which objects are their parameters.

ghost use Rattle.std.specs.Prelude.{◌≡◌, ◌<◌, ◌≤◌, ◌==◌, IfSome, Some, map, option_map, slice_get, true};
ghost use Rattle.std.specs.List.{list_any};
ghost use Rattle.std.specs.Str.{bytes_eq};
ghost use Rattle.object_modules.specs.internal.Views.{owned_public_view};
ghost use Rattle.typed_trees.specs.Views.{module_view, procedure_view};
ghost use Rattle.typed_trees.specs.Weight.{constant_bytes};
ghost use Rattle.listings.specs.Names.{code_place, is_code, public_place};
ghost use Rattle.listings.specs.Symbols.{IsCodeOf, is_own, procedure_with};
ghost use Rattle.listings.specs.internal.Marks.{begins_in};
ghost use Rattle.listings.specs.internal.Programs.{code_size, object_of, typed_of};

use crate::view::ModuleView;
use codegen8080::CodePart;
use object_modules::{Name, ObjectModule, OwnedPublic, Segment};
use typed_trees::{Typed, TypedProcedure, Visibility};

/// The procedure of a number, if there is one.
pub(crate) fn procedure_at(typed: &Typed, number: usize) -> Option<&TypedProcedure>
    ensures { IfSome result (λ procedure. slice_get (module_view typed.now).procedures number
        ≡ Some (procedure_view procedure.now)) }
{
    typed.procedures.get(number)
}

// Whether a segment is that of the code.
fn is_code(segment: Segment) -> bool
    ensures { result ≡ is_code segment }
{
    match segment {
        Segment::Code => true,
        Segment::Absolute | Segment::Data | Segment::Stack => false,
    }
}

// Whether two names are the same.
#[tactic(auto, using(crate::proofs::ProcedureCodes::names_equal))]
fn same_name(one: &Name, other: &Name) -> bool
    ensures { result ≡ bytes_eq one.now other.now }
{
    *one == *other
}

// The place in the code that has a public name, if one has it.
fn code_place(publics: &[OwnedPublic], name: &Name) -> Option<u16>
    ensures { result ≡ code_place (map owned_public_view publics.now) name.now }
{
    let mut rest = publics;
    while let [public, more @ ..] = rest {
        if is_code(public.segment) && same_name(&public.name, name) {
            return Some(public.offset);
        }
        rest = more;
    }
    None
}

/// Where a procedure begins in the code of its module, if it is PUBLIC.
pub(crate) fn public_place(object: &ObjectModule, procedure: &TypedProcedure) -> Option<u16>
    ensures { result ≡ public_place object.now.publics (procedure_view procedure.now) }
{
    match procedure.visibility {
        Visibility::Public => code_place(object.publics(), &procedure.name),
        Visibility::Private | Visibility::External => None,
    }
}

// Whether a part belongs to what was begun before it.
fn goes_on(part: CodePart) -> bool {
    matches!(part, CodePart::Statement(_))
}

// Where code that begins at a place of a module ends: where another procedure or a routine begins, or where all code ends.
#[tactic(auto, using(crate::proofs::ProcedureCodes::first_within, crate::proofs::ProcedureCodes::others_within))]
fn end_of(view: &ModuleView, place: u32) -> u32
    ensures later { place < code_size view.now → place < result }
    ensures within { result ≤ code_size view.now }
{
    let mut rest = view.marks.marks.as_slice();
    while let [mark, more @ ..] = rest {
        if place < mark.place as u32 && !goes_on(mark.part) {
            return mark.place as u32;
        }
        rest = more;
    }
    view.object.length(Segment::Code) as u32
}

/// The code of a procedure: its offset from the start of the code segment, and how many bytes it has.
#[derive(Clone, Copy)]
pub(crate) struct ProcedureCode {
    pub(crate) place: u32,
    pub(crate) size: u32,
}

/// The code of a procedure that begins at a place.
#[tactic(auto, using(crate::proofs::ProcedureCodes::code_between))]
pub(crate) fn code_of(view: &ModuleView, procedure: &TypedProcedure, place: u16) -> ProcedureCode
    requires own { is_own (procedure_view procedure.now).visibility ≡ true }
    requires begins { begins_in (constant_bytes (typed_of view.now)) (object_of view.now)
        (procedure_view procedure.now) place ≡ true }
    ensures { IsCodeOf (constant_bytes (typed_of view.now)) (object_of view.now)
        (procedure_view procedure.now) result.place result.size }
{
    let place = place as u32;
    let end = end_of(view, place);
    ProcedureCode {
        place,
        size: end.saturating_sub(place),
    }
}

// Whether an object is a parameter of a procedure.
fn has_parameter(procedure: &TypedProcedure, object: u32) -> bool
    ensures { result ≡ list_any (λ number. number == object) (procedure_view procedure.now).parameters }
{
    let mut rest = procedure.parameters.as_slice();
    while let [number, more @ ..] = rest {
        if *number == object {
            return true;
        }
        rest = more;
    }
    false
}

/// The procedure that has an object as a parameter, if one has.
pub(crate) fn procedure_with(typed: &Typed, object: u32) -> Option<&TypedProcedure>
    ensures { option_map (λ procedure. procedure_view procedure.now) result
        ≡ procedure_with object (module_view typed.now).procedures }
{
    let mut rest = typed.procedures.as_slice();
    while let [procedure, more @ ..] = rest {
        if has_parameter(procedure, object) {
            return Some(procedure);
        }
        rest = more;
    }
    None
}
