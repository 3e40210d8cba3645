//! Modules merged.

ghost use Rattle.std.specs.Prelude.{◌≡◌, ◌==◌, ◌||◌, [], All, false, true, length, slice_get, sum_by, IfOk, Ok, Err, None, Some};
ghost use Rattle.std.specs.List.{list_any};
ghost use Rattle.failure.specs.Failure.{IfFault};
ghost use Rattle.object_modules.specs.declared.segment.Segment.TheVariants.{Code, Data};
ghost use Rattle.object_modules.specs.Displacements.{linked_modules, starts_of as start_list};
ghost use Rattle.object_modules.specs.Merge.{HighByteMoves, main_modules, merge_of, public_names, some_high_byte_moves, some_segment_is_too_long};
ghost use Rattle.object_modules.specs.Module.{IsObjectModule};
ghost use Rattle.link_laws.specs.Faults.{refusal_of};
ghost use Rattle.link_laws.specs.internal.Building.{AreJoined, alignment_joined, end_in, end_joined};
ghost use Rattle.link_laws.specs.internal.Passes.{externals_of, gathered, missing_in};
ghost use Rattle.link_laws.specs.internal.Growing.{all_grown, nothing_grown};
ghost use Rattle.link_modules.specs.internal.Views.{main_view};

use crate::contents::segments_of;
use crate::growing::GrowingSegment;
use crate::inputs::Input;
use crate::linkable::{Linkable, Named};
use crate::mains::{MainModule, first_main, has_one_main};
use crate::merged::Merged;
use crate::modules::inputs_of;
use crate::names::{NameTable, public_names_of, unresolved_in};
use crate::pieces::{Pieces, pieces_of, starts_of};
use crate::placed::Placed;
use crate::publics::{Publics, publics_of};
use failure::Failure;
use link_laws::LinkFault;
use object_modules::{Alignment, ModuleParts, ObjectModule, Segment};
use std::alloc::Global;

// Where the last piece ends.
fn merged_end<L: Linkable>(segment: Segment, placed: &[Placed<'_, L>]) -> u16
    ensures { result ≡ end_joined (end_in segment) 0 placed.now }
{
    let mut end = 0;
    for one in placed {
        end = one.end(segment);
    }
    end
}

// Where the merged segment may begin: at a page if one of its pieces is page-aligned.
fn merged_alignment<L: Linkable>(segment: Segment, placed: &[Placed<'_, L>]) -> Alignment
    ensures { result ≡ alignment_joined segment placed.now }
{
    for one in placed {
        if matches!(one.item().alignment(segment), Alignment::Page) {
            return Alignment::Page;
        }
    }
    Alignment::Byte
}

// Whether a high byte is fixed to a target that moves by a number that is not a multiple of 256, in the code or in the data.
fn high_byte_moves(code: &GrowingSegment, data_bytes: &GrowingSegment) -> bool
    ensures { result ≡ (code.now.moves || data_bytes.now.moves) }
{
    code.moves() || data_bytes.moves()
}

// The code and the data of a merge, in which no high byte moves; one that does is a fault.
fn still_segments<'a, L: Named<'a>>(
    alloc: Global,
    publics: &Publics<'_, 'a>,
    placed: &[Placed<'_, L>],
) -> Result<(GrowingSegment, GrowingSegment), Failure<LinkFault>>
    ensures code { IfOk result (λ made. made.0 ≡ all_grown publics.now Code nothing_grown placed.now) }
    ensures data_bytes { IfOk result (λ made. made.1
        ≡ all_grown publics.now Data nothing_grown placed.now) }
    ensures still { IfOk result (λ _. list_any (some_high_byte_moves publics.now) placed.now ≡ false) }
    ensures fault { IfFault result (λ fault. refusal_of fault ≡ HighByteMoves) }
    ensures moves { IfFault result (λ _. list_any (some_high_byte_moves publics.now) placed.now ≡ true) }
{
    let (code, data_bytes) = segments_of(alloc, publics, placed)?;
    if high_byte_moves(&code, &data_bytes) {
        return Err(Failure::Fault(LinkFault::HighByteMoves));
    }
    Ok((code, data_bytes))
}

// The parts of a merge whose segments are made.
fn parts_of<L: Linkable>(
    alloc: Global,
    pieces: &Pieces<'_, L>,
    publics: Publics<'_, '_>,
    main: MainModule,
    code: GrowingSegment,
    data_bytes: GrowingSegment,
) -> ModuleParts
    requires code { code ≡ all_grown publics Code nothing_grown pieces.now.placed.items }
    requires data_bytes { data_bytes ≡ all_grown publics Data nothing_grown pieces.now.placed.items }
    ensures { AreJoined publics.entry pieces.now.placed.items pieces.now.stack_length (main_view main) result }
{
    let placed = pieces.placed.as_slice();
    let code_end = merged_end(Segment::Code, placed);
    let data_end = merged_end(Segment::Data, placed);
    ModuleParts {
        name: main.name,
        code: code.into_segment(code_end, merged_alignment(Segment::Code, placed)),
        data_bytes: data_bytes.into_segment(data_end, merged_alignment(Segment::Data, placed)),
        stack_length: pieces.stack_length,
        publics: publics.into_publics(),
        externals: Vec::new(alloc),
        start: Some(main.start),
    }
}

// The merge of modules with all of their names found, pieces that fit, and one main module.
fn merge_placed<'a, L: Named<'a>>(
    alloc: Global,
    inputs: &[Input<L>],
    names: &NameTable<'a>,
    pieces: &Pieces<'_, L>,
    main: MainModule,
) -> Result<Merged, Failure<LinkFault>>
    requires known { gathered [] (public_names inputs.now) ≡ Ok names.now }
    requires resolved { None ≡ missing_in names.now (externals_of inputs.now) }
    requires fits { some_segment_is_too_long inputs.now (linked_modules inputs.now) ≡ false }
    requires single { (length (main_modules (linked_modules inputs.now)) == 1) ≡ true }
    requires main { Some (main_view main) ≡ slice_get (main_modules (linked_modules inputs.now)) 0 }
    requires placed { pieces.now.placed.items ≡ linked_modules inputs.now }
    requires stack { pieces.now.stack_length ≡ sum_by (λ object. object.stack_length) inputs.now }
    requires valid { All IsObjectModule inputs.now }
    ensures merged { IfOk result (λ merged. merge_of inputs.now ≡ Ok merged.object) }
    ensures starts { IfOk result (λ merged. merged.starts ≡ start_list inputs.now) }
    ensures refused { IfFault result (λ fault. merge_of inputs.now ≡ Err (refusal_of fault)) }
{
    let placed = pieces.placed.as_slice();
    let owned = publics_of(alloc, names.count(), placed)?;
    let publics = Publics::new(names, owned);
    let (code, data_bytes) = still_segments(alloc, &publics, placed)?;
    let starts = starts_of(alloc, placed)?;
    let parts = parts_of(alloc, pieces, publics, main, code, data_bytes);
    Ok(Merged::new(ObjectModule::from_parts(parts), starts))
}

// The merge of modules with all of their names found, and pieces that fit.
#[tactic(auto, using(link_laws::proofs::Linkings::by_mains, link_laws::proofs::Linkings::by_no_main))]
fn merge_pieces<'a, L: Named<'a>>(
    alloc: Global,
    inputs: &[Input<L>],
    names: &NameTable<'a>,
    pieces: &Pieces<'_, L>,
) -> Result<Merged, Failure<LinkFault>>
    requires known { gathered [] (public_names inputs.now) ≡ Ok names.now }
    requires resolved { None ≡ missing_in names.now (externals_of inputs.now) }
    requires fits { some_segment_is_too_long inputs.now (linked_modules inputs.now) ≡ false }
    requires placed { pieces.now.placed.items ≡ linked_modules inputs.now }
    requires stack { pieces.now.stack_length ≡ sum_by (λ object. object.stack_length) inputs.now }
    requires valid { All IsObjectModule inputs.now }
    ensures merged { IfOk result (λ merged. merge_of inputs.now ≡ Ok merged.object) }
    ensures starts { IfOk result (λ merged. merged.starts ≡ start_list inputs.now) }
    ensures refused { IfFault result (λ fault. merge_of inputs.now ≡ Err (refusal_of fault)) }
{
    if has_one_main(inputs) {
        match first_main(pieces.placed.as_slice()) {
            Some(main) => merge_placed(alloc, inputs, names, pieces, main),
            None => Err(Failure::Fault(LinkFault::NotOneMain)),
        }
    } else {
        Err(Failure::Fault(LinkFault::NotOneMain))
    }
}

// The merge of modules with these public names.
fn merge_named<'a, L: Named<'a>>(
    alloc: Global,
    inputs: &[Input<L>],
    names: &NameTable<'a>,
) -> Result<Merged, Failure<LinkFault>>
    requires { gathered [] (public_names inputs.now) ≡ Ok names.now }
    ensures merged { IfOk result (λ merged. merge_of inputs.now ≡ Ok merged.object) }
    ensures starts { IfOk result (λ merged. merged.starts ≡ start_list inputs.now) }
    ensures refused { IfFault result (λ fault. merge_of inputs.now ≡ Err (refusal_of fault)) }
{
    match unresolved_in(names, inputs) {
        Some(name) => Err(Failure::Fault(LinkFault::UnresolvedExternal { name })),
        None => {
            let pieces = pieces_of(alloc, inputs)?;
            merge_pieces(alloc, inputs, names, &pieces)
        }
    }
}

/// The merge of modules in this order, wherever their names and bytes lie. Where there is none, the first cause in
/// the order of the faults is answered.
pub fn merge<'a, L: Named<'a>>(
    alloc: Global,
    inputs: &[Input<L>],
) -> Result<Merged, Failure<LinkFault>>
    ensures merged { IfOk result (λ merged. merge_of inputs.now ≡ Ok merged.object) }
    ensures starts { IfOk result (λ merged. merged.starts ≡ start_list inputs.now) }
    ensures refused { IfFault result (λ fault. merge_of inputs.now ≡ Err (refusal_of fault)) }
{
    let names = public_names_of(alloc, inputs)?;
    merge_named(alloc, inputs, &names)
}

/// The merge of modules in this order. Where there is none, the first cause in the order of the faults is
/// answered.
pub fn link(alloc: Global, modules: &[ObjectModule]) -> Result<Merged, Failure<LinkFault>>
    ensures merged { IfOk result (λ merged. merge_of modules.now ≡ Ok merged.object) }
    ensures starts { IfOk result (λ merged. merged.starts ≡ start_list modules.now) }
    ensures refused { IfFault result (λ fault. merge_of modules.now ≡ Err (refusal_of fault)) }
{
    let inputs = inputs_of(alloc, modules)?;
    merge(alloc, inputs.as_slice())
}
