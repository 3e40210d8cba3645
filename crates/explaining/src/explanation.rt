//! What is printed of how a command ended.

ghost use Rattle.std.specs.Prelude.{length};
ghost use Rattle.explaining.specs.Growing.{Grows};
ghost use Rattle.explaining.specs.Looking.{Looks};

use crate::faulty_records::add_faulty_record;
use crate::globals::{Declarations, add_mains, add_missing, show_declarations};
use crate::kept_files::{Content, KeptFile, KeptFiles, find_kept, kept_bytes};
use crate::kept_lines::KeptLines;
use crate::kinds::as_object;
use crate::object_names::{add_externals, add_missing_objects, add_objects, add_starts};
use crate::options::{command_word, explain_value};
use crate::page::{Page, Piece};
use crate::ranges::{add_object, add_ranges};
use crate::refused::explain_source;
use crate::told::{Told, told_in};
use crate::twice::add_named_twice;
use crate::unwritten::cause_of_file;
use crate::wrong_options::cure_of_option;
use host::{Files, write_bytes};
use std::alloc::Global;
use std::io::Write;

/// What is looked at beside the line of a fault: the words of the command line, the names of tables of lines, and the files
/// that were read.
#[derive(Clone, Copy)]
pub(crate) struct Seen<'s> {
    pub(crate) alloc: Global,
    pub(crate) words: &'s [&'s str],
    pub(crate) tables: &'s [&'s str],
    pub(crate) files: &'s [KeptFile],
}

// What a fault means: of a file that can't be read or written, and of one that is no object file, by what is known of it.
fn cause_of(page: &mut Page, seen: &Seen, told: Told) -> &'static str {
    let cause = match (told.number.as_bytes(), find_kept(seen.files, told.place)) {
        ([b'U', b'3'], _) => cause_of_file(page, seen, told.place),
        ([b'O', ..], Some(Content::Bytes(bytes))) => as_object(bytes.as_slice()),
        _ => None,
    };
    cause.unwrap_or(told.meaning)
}

// Adds what a fault means, with what is known of the names and places of the program.
fn explain_program(page: &mut Page, seen: &Seen, told: Told) {
    let name = told.place.as_bytes();
    match told.number.as_bytes() {
        [b'J', b'1' | b'2'] => show_declarations(page, seen, name, Declarations::Shared),
        [b'J', b'3'] => show_declarations(page, seen, name, Declarations::WithParameters),
        [b'J', b'4'] => add_mains(page, seen.alloc, seen.files),
        [b'J', b'5'] => show_declarations(page, seen, name, Declarations::At),
        [b'L', b'1' | b'2'] => add_objects(page, seen, name),
        [b'L', b'4'] => add_starts(page, seen),
        [b'O', ..] => add_faulty_record(page, seen, told.place),
        [b'P', b'3'] => add_externals(page, seen),
        _ => {}
    }
    let cause = cause_of(page, seen, told);
    page.cause(cause, told.number);
    match told.number.as_bytes() {
        [b'J', b'1'] => add_missing(page, seen.alloc, seen.files),
        [b'J', b'5'] => add_object(page, seen, told.place),
        [b'P', b'1'] => add_ranges(page, seen, true),
        [b'P', b'2'] => add_ranges(page, seen, false),
        [b'J', b'2' | b'4'] | [b'L', b'1' | b'4'] => add_named_twice(page, seen),
        [b'L', b'2'] => add_missing_objects(page, seen, name),
        _ => {}
    }
}

// Adds what a fault means: that of a text of an option, that of a source that was read, or another.
fn explain_fault(page: &mut Page, seen: &Seen, told: Told) {
    match (told.number.as_bytes(), kept_bytes(seen.files, told.place)) {
        ([b'U', b'4'], _) => explain_value(page, seen.words, told.place),
        ([b'C', ..], Some(text)) => explain_source(page, seen, told, text),
        _ => explain_program(page, seen, told),
    }
}

// What the end of a run means, by its exit status, where it did not halt; by whether it was to end before it reads a port past
// its input, and whether it was of object files.
fn meaning_of_end(status: u8, until_dry: bool, is_of_objects: bool) -> Option<&'static str> {
    match status {
        3 if until_dry => Some(
            "DRY says that a port was to be read past its input, which may be none, and LIMIT that the budget of --limit was used up. See plm explain DRY and plm explain LIMIT",
        ),
        3 => Some(
            "The budget of --limit was used up: mostly a loop that never ends, as a wait for input. See plm explain LIMIT",
        ),
        4 if is_of_objects => Some(
            "ILLEGAL says that the machine met what is no instruction of an 8080: a jump out of the code, code that was written over, or code of a Z80 or an 8085. PORT says that a port failed. See plm explain ILLEGAL and plm explain PORT",
        ),
        4 => Some(
            "ILLEGAL says that the machine met what is no instruction: try plm interpret, which stops where the source goes outside. PORT says that a port failed. See plm explain ILLEGAL and plm explain PORT",
        ),
        5 => Some(
            "The program did what the language does not define, right after its last event. See plm explain OUTSIDE",
        ),
        _ => None,
    }
}

// The option that prints where a run stood that did not halt, if the words lack it.
fn hint_of_end(status: u8, words: &[&str]) -> Option<&'static str> {
    match status {
        3 | 4 | 5 if !words.contains(&"--where") => Some(
            "With --where a line tells where that was",
        ),
        _ => None,
    }
}

// Whether a fault in a line of a source was told, by the status of a command and what it printed on standard error.
fn is_of_line(status: u8, printed: &[u8]) -> bool {
    match told_in(printed) {
        Some(told) => {
            (status == 1 || status == 2) && matches!(told.number.as_bytes(), [b'C', ..])
        }
        None => false,
    }
}

// What is said of how a command ended, by its words, the names of tables of lines, the files that were read, its status, and
// what it printed on standard error.
fn explanation(
    alloc: Global,
    words: &[&str],
    tables: &[&str],
    files: &[KeptFile],
    status: u8,
    printed: &[u8],
) -> Page {
    let mut page = Page::new(alloc);
    let seen = Seen {
        alloc,
        words,
        tables,
        files,
    };
    match told_in(printed) {
        Some(told) if status == 1 || status == 2 => explain_fault(&mut page, &seen, told),
        _ if status == 2 => {
            if let Some(cure) = cure_of_option(words, printed) {
                page.sentence(&[Piece::Text(cure)]);
            }
        }
        _ => {
            let until_dry = words.contains(&"--until-dry");
            let is_of_objects = command_word(words) == "execute";
            if let Some(meaning) = meaning_of_end(status, until_dry, is_of_objects) {
                page.sentence(&[Piece::Text(meaning)]);
            }
            if let Some(hint) = hint_of_end(status, words) {
                page.sentence(&[Piece::Text(hint)]);
            }
        }
    }
    page
}

/// Prints on `err` how the command of these words ended, from what is kept of it: the files that it read and the lines that it
/// printed. The tables of these names are looked for first, where a fault in a line of a source was told. Where memory runs out,
/// nothing is printed.
pub fn explain<F: Files, E: Write>(
    alloc: Global,
    words: &[&str],
    tables: &[&str],
    files: &mut KeptFiles<F>,
    status: u8,
    err: &mut KeptLines<E>,
)
    ensures looks { Looks (length tables.now) (F.files files.old.inner) (F.files files.new.inner)
        (F.failures files.old.inner) (F.failures files.new.inner) }
    ensures grows { Grows (E.contents err.old.inner) (E.contents err.new.inner) }
{
    look_for_all(is_of_line(status, err.kept.as_slice()), tables, files);
    let (kept, printed) = (files.kept.as_slice(), err.kept.as_slice());
    let page = explanation(alloc, words, tables, kept, status, printed);
    let _ = write_bytes(err, page.bytes());
}

// Looks for files, if they are wanted.
#[tactic(auto, using(crate::proofs::Looked::looking_begun, crate::proofs::Looked::looking_ended, crate::proofs::Looked::looks_none))]
fn look_for_all<F: Files>(are_wanted: bool, names: &[&str], files: &mut KeptFiles<F>)
    ensures { Looks (length names.now) (F.files files.old.inner) (F.files files.new.inner)
        (F.failures files.old.inner) (F.failures files.new.inner) }
{
    if are_wanted {
        let mut rest = names;
        while let [name, more @ ..] = rest {
            files.look_for(name);
            rest = more;
        }
    }
}
