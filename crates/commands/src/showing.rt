//! Listings and symbols of files that are placed.

ghost use Rattle.std.specs.Prelude.{◌≡◌, ◌≤◌, ◌⊎◌, IfOk, false, length, map, true};
ghost use Rattle.command_line.specs.internal.Orders.{place_in};
ghost use Rattle.host.specs.Files.{KeepsFiles};
ghost use Rattle.host.specs.Refusals.{TellsOther, TellsRefusal};
ghost use Rattle.sources.specs.Programs.{IsProgramOf, program_modules, text_of, texts_of};
ghost use Rattle.sources.specs.declared.sources.TheConstants.{MOST_SOURCES};
ghost use Rattle.commands.specs.Refusing.{RefusesFor};
ghost use Rattle.commands.specs.Showing.{PrintsBuilt, PrintsShown, PrintsTextsBy, RefusesShown, RefusesTextsBy, ShowsProgram, StopsShowing, begins_object, is_object, takes_object};
ghost use Rattle.commands.specs.internal.Shown.{is_shown};

use crate::programs::{name_at, refuse_sources, sources_of};
use crate::reports::print_text;
use command_line::{PlaceAction, PlaceOrder};
use host::{Ending, Failure, Files, read_files, refuse_file, refuse_memory};
use listings::{listing_of, symbols_of};
use mem80::Plan;
use object_commands::print_list;
use std::alloc::{AllocError, Global};
use std::io::Write;
use tool::{Built, Source, build};

// Whether bytes begin with the type of an object's first record. Those of a source never do.
fn begins_object(bytes: &[u8]) -> bool
    ensures { result ≡ begins_object bytes.now }
{
    match bytes {
        [first, ..] => *first == 2,
        [] => false,
    }
}

// Whether texts are that of one object alone.
fn is_object(texts: &[Vec<u8>]) -> bool
    ensures { result ≡ is_object (map (λ text. text.items) texts.now) }
{
    match texts {
        [text] => begins_object(text.as_slice()),
        _ => false,
    }
}

// Whether texts are listed as an object.
fn takes_object(action: PlaceAction, texts: &[Vec<u8>]) -> bool
    ensures { result ≡ takes_object action (map (λ text. text.items) texts.now) }
{
    match action {
        PlaceAction::Listing => is_object(texts),
        PlaceAction::Locate | PlaceAction::Hex | PlaceAction::Symbols => false,
    }
}

/// Reads the files of an order, and prints the listing or the symbols of the program that their texts make, or the listing of
/// an object. After a write that failed a beginning of that was printed, and after any other refusal nothing.
#[tactic(auto, using(host::proofs::FilesRead::files_stay))]
pub(crate) fn show_files<F: Files, O: Write, E: Write>(
    alloc: Global,
    order: &PlaceOrder,
    plan: &Plan,
    files: &mut F,
    out: &mut O,
    err: &mut E,
) -> Ending
    requires shown { is_shown order.now.action ≡ true }
    ensures unchanged { KeepsFiles (F.files files.old) (F.files files.new) }
    ensures printed { result ≡ Ending.Done → PrintsShown order.now.action (F.files files.old)
        (place_in order.now).files plan.now (O.contents out.old) (O.contents out.new) }
    ensures ending { (result ≡ Ending.Done) ⊎ (result ≡ Ending.Refused) }
    ensures refused { result ≡ Ending.Refused → RefusesFor
        (RefusesShown order.now.action (F.files files.old) (place_in order.now).files plan.now
        (E.contents err.old) (E.contents err.new) (O.contents out.old) (O.contents out.new))
        (F.files files.old) (place_in order.now).files (F.failures files.old) (F.failures files.new)
        (E.contents err.old) (E.contents err.new) (O.contents out.old) (O.contents out.new) }
    ensures told { result ≡ Ending.Refused → TellsRefusal (F.files files.old) (place_in order.now).files
        (F.failures files.old) (F.failures files.new) (E.contents err.old) (E.contents err.new) }
    ensures count { (result ≡ Ending.Refused → ⊥) → F.failures files.new ≡ F.failures files.old }
    ensures quiet { (result ≡ Ending.Refused → ⊥) → E.contents err.new ≡ E.contents err.old }
{
    match read_files(alloc, order.files.as_slice(), files) {
        Ok(texts) => show_texts(alloc, order, plan, texts.as_slice(), out, err),
        Err(Failure::Fault((fault, name))) => refuse_file(fault, name, err),
        Err(Failure::Memory) => refuse_memory(err),
    }
}

// Prints what an order wants of texts.
fn show_texts<O: Write, E: Write>(
    alloc: Global,
    order: &PlaceOrder,
    plan: &Plan,
    texts: &[Vec<u8>],
    out: &mut O,
    err: &mut E,
) -> Ending
    requires shown { is_shown order.now.action ≡ true }
    ensures printed { result ≡ Ending.Done → PrintsTextsBy
        (takes_object order.now.action (map (λ text. text.items) texts.now)) order.now.action plan.now
        (map (λ text. text.items) texts.now) (O.contents out.old) (O.contents out.new) }
    ensures ending { (result ≡ Ending.Done) ⊎ (result ≡ Ending.Refused) }
    ensures refused { result ≡ Ending.Refused → RefusesTextsBy
        (takes_object order.now.action (map (λ text. text.items) texts.now)) order.now.action plan.now
        (place_in order.now).files (map (λ text. text.items) texts.now)
        (E.contents err.old) (E.contents err.new) (O.contents out.old) (O.contents out.new) }
    ensures told { result ≡ Ending.Refused → TellsOther (E.contents err.old) (E.contents err.new) }
    ensures quiet { (result ≡ Ending.Refused → ⊥) → E.contents err.new ≡ E.contents err.old }
{
    if takes_object(order.action, texts) {
        let name = name_at(order.files.as_slice(), 0);
        return print_list(alloc, name, text_at(texts, 0), plan, out, err);
    }
    match sources_of(alloc, order.files.as_slice(), texts) {
        Ok(sources) => show_sources(alloc, order, plan, sources.as_slice(), out, err),
        Err(_) => refuse_memory(err),
    }
}

// The text of this number, or no bytes.
fn text_at(texts: &[Vec<u8>], number: usize) -> &[u8]
    ensures { result.now ≡ text_of (map (λ text. text.items) texts.now) number }
{
    match texts.get(number) {
        Some(text) => text.as_slice(),
        None => &[],
    }
}

// Builds the program of sources, and prints what an order wants of it.
fn show_sources<O: Write, E: Write>(
    alloc: Global,
    order: &PlaceOrder,
    plan: &Plan,
    sources: &[Source],
    out: &mut O,
    err: &mut E,
) -> Ending
    requires shown { is_shown order.now.action ≡ true }
    ensures printed { result ≡ Ending.Done → PrintsTextsBy false order.now.action plan.now
        (texts_of sources.now) (O.contents out.old) (O.contents out.new) }
    ensures ending { (result ≡ Ending.Done) ⊎ (result ≡ Ending.Refused) }
    ensures refused { result ≡ Ending.Refused → RefusesTextsBy false order.now.action plan.now
        (place_in order.now).files (texts_of sources.now)
        (E.contents err.old) (E.contents err.new) (O.contents out.old) (O.contents out.new) }
    ensures told { result ≡ Ending.Refused → TellsOther (E.contents err.old) (E.contents err.new) }
    ensures quiet { (result ≡ Ending.Refused → ⊥) → E.contents err.new ≡ E.contents err.old }
{
    match build(alloc, sources, plan) {
        Ok(built) => show_built(alloc, order.action, &built, sources, out, err),
        Err(Failure::Fault(fault)) => refuse_sources(&fault, order.files.as_slice(), err),
        Err(Failure::Memory) => refuse_memory(err),
    }
}

// What an order wants of a program that was built from sources.
fn text_of_program(
    alloc: Global,
    action: PlaceAction,
    built: &Built,
    sources: &[Source],
) -> Result<Vec<u8>, AllocError>
    requires shown { is_shown action ≡ true }
    requires few { length sources.now ≤ MOST_SOURCES }
    requires program { IsProgramOf (texts_of sources.now) (program_modules built.now.program) }
    ensures { IfOk result (λ text. ShowsProgram action (texts_of sources.now) built.now text.items) }
{
    match action {
        PlaceAction::Listing => listing_of(alloc, built, sources),
        PlaceAction::Symbols => symbols_of(alloc, built, sources),
        PlaceAction::Locate | PlaceAction::Hex => unreachable!(),
    }
}

// Prints what an order wants of a program that was built from sources.
fn show_built<O: Write, E: Write>(
    alloc: Global,
    action: PlaceAction,
    built: &Built,
    sources: &[Source],
    out: &mut O,
    err: &mut E,
) -> Ending
    requires shown { is_shown action ≡ true }
    requires few { length sources.now ≤ MOST_SOURCES }
    requires program { IsProgramOf (texts_of sources.now) (program_modules built.now.program) }
    ensures printed { result ≡ Ending.Done → PrintsBuilt action (texts_of sources.now) built.now
        (O.contents out.old) (O.contents out.new) }
    ensures ending { (result ≡ Ending.Done) ⊎ (result ≡ Ending.Refused) }
    ensures stopped { result ≡ Ending.Refused → StopsShowing action (texts_of sources.now) built.now
        (E.contents err.old) (E.contents err.new) (O.contents out.old) (O.contents out.new) }
    ensures told { result ≡ Ending.Refused → TellsOther (E.contents err.old) (E.contents err.new) }
    ensures quiet { (result ≡ Ending.Refused → ⊥) → E.contents err.new ≡ E.contents err.old }
{
    let lines = match text_of_program(alloc, action, built, sources) {
        Ok(lines) => lines,
        Err(_) => return refuse_memory(err),
    };
    print_text(lines.as_slice(), out, err)
}
