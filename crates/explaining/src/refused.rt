//! Where a source is refused, and why.

use crate::converted::text_of_words;
use crate::explanation::Seen;
use crate::high_bytes::{Within, add_wrong_byte};
use crate::hints::{Hint, hint_at, is_around};
use crate::kinds::as_source;
use crate::left_out::{
    cure_of, is_built_in, is_called_of_time, is_number_without_digit, is_same_name,
};
use crate::lines::{
    has_lone_quote, is_blank, is_number, line_before, numbered_line, show_line, show_place,
};
use crate::listing::is_listing;
use crate::named::{find_named, leaves_procedure};
use crate::naming::{
    Named, awaited_after, find_defined, find_in_block, find_object, line_of_object,
};
use crate::number_spelling::{explain_after_dollar, explain_name_as_number, explain_number};
use crate::numbering::{cure_after, cure_before, is_after_source};
use crate::openers::{Opened, Opener, openers};
use crate::options::command_word;
use crate::origins::add_origins;
use crate::page::{MARGIN, Page, Piece};
use crate::spelling::{ends_string_in_word, is_after_nested, refused_byte};
use crate::statements::{awaits_value, statement_of};
use crate::told::Told;
use host::Failure;
use sources::{LONGEST_SOURCE, Place, ReadFault, read_source};
use std::alloc::Global;
use std::fmt;
use std::fmt::Write;
use words::{Kind, Mark, ReservedWord, Word};

// Why a text is refused, where it is, and there is memory to tell.
fn fault_of(page: &mut Page, alloc: Global, text: &[u8]) -> Option<ReadFault> {
    match read_source(alloc, text) {
        Err(Failure::Fault(fault)) => Some(fault),
        Err(Failure::Memory) => {
            page.note(false);
            None
        }
        Ok(_) => None,
    }
}

/// The words of a text as they stand, and those that LITERALLY makes of them; none where the text is refused for one of them.
pub(crate) fn words_of<'a>(
    page: &mut Page,
    alloc: Global,
    text: &'a [u8],
) -> (Vec<Word<'a>>, Vec<Word<'a>>) {
    let mut plain = Vec::new(alloc);
    if text.len() <= LONGEST_SOURCE {
        match words::scan(alloc, text) {
            Ok(words) => plain = words,
            Err(failure) => page.note(!matches!(failure, Failure::Memory)),
        }
    }
    let mut words = Vec::new(alloc);
    match literally::expand(alloc, plain.as_slice()) {
        Ok(expanded) => words = expanded,
        Err(failure) => page.note(!matches!(failure, Failure::Memory)),
    }
    (plain, words)
}

// The words before the first one that begins at a place, and this one with the words after it.
fn split_at_place<'w, 'a>(words: &'w [Word<'a>], start: u32) -> (&'w [Word<'a>], &'w [Word<'a>]) {
    let mut count = words.len();
    for (at, word) in words.iter().enumerate() {
        if word.start == start {
            count = at;
            break;
        }
    }
    words.split_at(count.min(words.len()))
}

// What a dot stands before: the name of a member, after that of its structure, or a name whose location is meant.
#[derive(Clone, Copy, PartialEq, Eq)]
enum Dot {
    Member,
    Location,
}

// A text that is refused: what is told of that, its words as they stand, and with those of its LITERALLY definitions, the
// place of the word at fault, if there is one, the words before it, and it with those after it.
#[derive(Clone, Copy)]
struct Refused<'w, 'a, 's, 't> {
    seen: &'w Seen<'s>,
    told: Told<'t>,
    text: &'a [u8],
    plain: &'w [Word<'a>],
    words: &'w [Word<'a>],
    place: Option<Place>,
    before: &'w [Word<'a>],
    after: &'w [Word<'a>],
}

impl<'a> Refused<'_, 'a, '_, '_> {
    // Shows the line of the word at fault, if there is one, marks the word, and says from where the line comes; and then says
    // why the text is refused.
    fn show(&self, page: &mut Page, cause: &str) {
        if let Some(place) = self.place {
            show_place(page, self.text, place.line, place.start as usize);
            add_origins(page, self.seen, self.told, self.text);
        }
        page.cause(cause, self.told.number);
    }

    // Does the same with what a fault says, without the line, which a colon ends.
    fn show_said<T: fmt::Display>(&self, page: &mut Page, fault: &T) {
        let mut said = String::new(self.seen.alloc);
        let is_written = write!(said, "{fault}").is_ok();
        page.note(is_written);
        match said.as_str().split_once(": ") {
            Some((_, sentence)) => self.show(page, sentence),
            None => self.show(page, said.as_str()),
        }
    }

    // What is open after words.
    fn open_after(&self, page: &mut Page, words: &[Word<'a>]) -> Vec<Opener<'a>> {
        match openers(self.seen.alloc, words) {
            Ok(open) => open,
            Err(_) => {
                page.note(false);
                Vec::new(self.seen.alloc)
            }
        }
    }

    // Adds what a name stands for by LITERALLY, where the word at fault is one of those.
    fn add_expansion(&self, page: &mut Page) {
        let [first, ..] = self.after else {
            return;
        };
        let (_, plain) = split_at_place(self.plain, first.start);
        if let [plain, ..] = plain
            && first.text != plain.text
        {
            page.pieces(&[
                Piece::Text(MARGIN),
                Piece::Shown(plain.text),
                Piece::Text(" stands for its text by LITERALLY:"),
            ]);
            for word in self.after {
                if word.start == plain.start {
                    page.pieces(&[Piece::Text(" "), Piece::Shown(word.text)]);
                }
            }
            page.pieces(&[Piece::Text(".\n")]);
        }
    }

    // What the word at fault comes after, if that is a dot: the one of a member, or of a location.
    fn dot(&self) -> Option<Dot> {
        match self.before {
            [.., around, last] if last.kind == Kind::Mark(Mark::Period) => match around.kind {
                Kind::Name | Kind::Mark(Mark::RightParenthesis) => Some(Dot::Member),
                _ => Some(Dot::Location),
            },
            _ => None,
        }
    }

    // Whether the word at fault stands where a number may stand: after what a value comes after, and before no list.
    fn is_value(&self) -> bool {
        match (self.before, self.after) {
            ([.., last], [_, next, ..]) => {
                awaits_value(last.kind) && next.kind != Kind::Mark(Mark::LeftParenthesis)
            }
            _ => false,
        }
    }

    // The word at fault, where it stands in the text as it is, or is the only one of the text that it is put in for.
    fn word(&self) -> Option<Word<'a>> {
        match self.after {
            [word, next, ..] if word.start == next.start => None,
            [word, ..] => Some(*word),
            [] => None,
        }
    }
}

// What was not meant to end where it ends before the place at fault: a comment, or a string.
fn hint_of_spelling(text: &[u8], place: usize) -> Option<Hint<'static>> {
    let is_quote_there = matches!(text.get(place), Some(b'\''));
    let is_quote_before = matches!(text.get(place.saturating_sub(1)), Some(b'\''));
    if is_after_nested(text, place) {
        Some(Hint::Said("Comments do not nest: the first */ ends the comment"))
    } else if (is_quote_there || is_quote_before) && ends_string_in_word(text, place) {
        Some(Hint::Said("A quote in a string is written twice: ''"))
    } else {
        None
    }
}

// Adds what is likely wrong at a word that cannot stand where it stands, below the line that comes before, if that is at
// fault, and its own.
fn explain_word(page: &mut Page, refused: &Refused) {
    let hint = match refused.word() {
        Some(word) => {
            let count = refused.before.len().saturating_sub(1);
            let open = refused.open_after(page, refused.before.get(..count).unwrap_or(&[]));
            hint_of_spelling(refused.text, word.start as usize).or(hint_at(
                refused.words,
                refused.before,
                &word,
                refused.after,
                open.as_slice(),
            ))
        }
        None => None,
    };
    if let Some(Hint::Missing { line, .. }) = hint {
        show_line(page, refused.text, line);
    }
    refused.show(page, refused.told.meaning);
    if let Some(hint) = hint {
        hint.add(page);
    }
    if let Some(Hint::NamedAround { line } | Hint::Late { line, .. }) = hint {
        show_line(page, refused.text, line);
    }
    refused.add_expansion(page);
}

// Whether words end with END, or with END and a name.
fn ends_with_end(words: &[Word]) -> bool {
    match words {
        [.., end, last] if last.kind == Kind::Name => {
            end.kind == Kind::Reserved(ReservedWord::End)
        }
        [.., last] => last.kind == Kind::Reserved(ReservedWord::End),
        [] => false,
    }
}

// Adds that a text ends before its module does, and what is still open, or what is missing.
fn explain_end(page: &mut Page, refused: &Refused) {
    if refused.words.is_empty() {
        add_origins(page, refused.seen, refused.told, refused.text);
        page.cause("The text has no words, and is no module", "C7");
        return;
    }
    let open = refused.open_after(page, refused.words);
    refused.show(page, "The text ends before its module does");
    if let [.., last] = open.as_slice() {
        page.sentence(&[
            Piece::Text("An END is missing: "),
            Piece::Text(last.what()),
            Piece::Shown(last.name),
            Piece::Text(" of line "),
            Piece::Number(last.line),
            Piece::Text(" is still open"),
        ]);
        show_line(page, refused.text, last.line);
    } else if ends_with_end(refused.words) {
        page.sentence(&[Piece::Text("A semicolon is missing after the last END")]);
    }
}

// Adds what an END ends whose name is not that of this.
fn explain_end_name(page: &mut Page, refused: &Refused) {
    refused.show(page, refused.told.meaning);
    if let ([earlier @ .., _], [name, ..]) = (refused.before, refused.after) {
        let open = refused.open_after(page, earlier);
        add_ended(page, refused.text, open.as_slice(), name.text);
    }
}

// Adds what an END ends, and whether something around it has a name.
fn add_ended(page: &mut Page, text: &[u8], open: &[Opener], name: &[u8]) {
    if let [around @ .., last] = open {
        page.sentence(&[
            Piece::Text("This END ends "),
            Piece::Text(last.what()),
            Piece::Shown(last.name),
            Piece::Text(" of line "),
            Piece::Number(last.line),
            Piece::Text(if is_around(around, name) {
                ", so an END may be missing before it"
            } else {
                ""
            }),
        ]);
        show_line(page, text, last.line);
    }
}

// Adds where a name is declared that is not known at the word at fault: in what is not open there, or below.
fn explain_declared(page: &mut Page, refused: &Refused, at: usize) {
    let (before, after) = refused.words.split_at(at.min(refused.words.len()));
    let open = refused.open_after(page, before);
    let here = refused.open_after(page, refused.before);
    let ([.., around], [word, ..]) = (open.as_slice(), after) else {
        return;
    };
    if here.iter().any(|it| it.at == around.at) {
        if at > refused.before.len() {
            page.sentence(&[
                Piece::Text("It is declared below, in line "),
                Piece::Number(word.line),
            ]);
            show_line(page, refused.text, word.line);
        }
        return;
    }
    let (line, of_line) = (Piece::Number(word.line), Piece::Number(around.line));
    let (declared, within) = (Piece::Text("It is declared in line "), Piece::Text(", in "));
    match around.opened {
        Opened::Group => {
            let of_do = Piece::Text(", in the DO of line ");
            page.sentence(&[declared, line, of_do, of_line]);
        }
        Opened::Module | Opened::Procedure => {
            page.sentence(&[declared, line, within, Piece::Shown(around.name)]);
        }
    }
    show_line(page, refused.text, word.line);
}

// Adds where a name is declared before that is declared twice, and whether a $ alone makes the difference.
fn explain_twice(page: &mut Page, refused: &Refused) {
    let open = refused.open_after(page, refused.before);
    let start = match open.as_slice() {
        [.., last] => last.at,
        [] => 0,
    };
    let block = refused.before.get(start..).unwrap_or(&[]);
    let wanted = awaited_after(refused.before).unwrap_or(Named::Object);
    if let Some(word) = refused.word()
        && let Some(first) = find_in_block(block, word.text, wanted)
    {
        page.sentence(&[
            Piece::Text("It is declared in line "),
            Piece::Number(first.line),
            Piece::Text(", too"),
        ]);
        show_line(page, refused.text, first.line);
        if !first.text.eq_ignore_ascii_case(word.text) {
            page.sentence(&[Piece::Text("A $ in a name is ignored")]);
        }
    }
}

// Adds what is likely meant by a name that is not known.
fn explain_name(page: &mut Page, refused: &Refused) {
    if let Some(word) = refused.word() {
        if is_number_without_digit(word.text) {
            page.sentence(&[
                Piece::Text("A number begins with a digit: 0"),
                Piece::Shown(word.text),
            ]);
        } else if refused.dot() != Some(Dot::Member) {
            explain_unknown(page, refused, word.text);
        }
    }
}

// Adds where something of a name is that is not known and names no member, or what to write for it. A procedure that is called is
// none of the words that are left out, but for TIME and those of CP/M.
fn explain_unknown(page: &mut Page, refused: &Refused, name: &[u8]) {
    let is_called = match refused.before {
        [.., last] => last.kind == Kind::Reserved(ReservedWord::Call),
        [] => false,
    };
    let cure = if is_called && !is_called_of_time(name) {
        None
    } else {
        cure_of(name)
    };
    if let Some(at) = find_object(refused.words, name) {
        explain_declared(page, refused, at);
    } else if let Some(line) = find_named(refused.words, name, true) {
        page.sentence(&[
            Piece::Text("The procedure of this name is declared in line "),
            Piece::Number(line),
        ]);
        show_line(page, refused.text, line);
    } else if let Some(cure) = cure {
        page.sentence(&[Piece::Text(cure)]);
    } else if refused.dot() == Some(Dot::Location) {
        explain_location(page, refused, name);
    } else if refused.is_value() {
        explain_name_as_number(page, refused.seen.alloc, name);
    }
}

// Adds that a declaration hides the built-in procedure of its name, where that is used, or where a variable is declared whose
// subscript is missing or superfluous.
fn explain_use(page: &mut Page, refused: &Refused, fault: &typing::Fault) {
    let Some(word) = refused.word() else {
        return;
    };
    let has_list = match refused.after {
        [_, next, ..] => next.kind == Kind::Mark(Mark::LeftParenthesis),
        _ => false,
    };
    let is_member = refused.dot() == Some(Dot::Member);
    let is_assigned = statement_of(refused.before).is_empty();
    let is_function = is_built_in(word.text) && is_assigned == is_same_name(word.text, b"OUTPUT");
    let is_move = is_same_name(word.text, b"MOVE");
    let is_hidden = match fault.cause {
        typing::Cause::SubscriptMismatch => is_function && has_list && !is_member,
        typing::Cause::CallOfNoProcedure => is_move,
        _ => false,
    };
    if is_hidden {
        page.sentence(&[
            Piece::Text("A declaration of "),
            Piece::Shown(word.text),
            Piece::Text(" hides the built-in procedure of its name"),
        ]);
    } else if matches!(fault.cause, typing::Cause::SubscriptMismatch) && !is_member {
        add_declaration(page, refused, word);
    }
}

// Adds where the object of a word is declared, if that is on another line.
fn add_declaration(page: &mut Page, refused: &Refused, word: Word) {
    let open = refused.open_after(page, refused.before);
    let line = line_of_object(open.as_slice(), refused.before, word.text).unwrap_or(word.line);
    if line != word.line {
        page.sentence(&[
            Piece::Shown(word.text),
            Piece::Text(" is declared in line "),
            Piece::Number(line),
        ]);
        show_line(page, refused.text, line);
    }
}

// Adds where a label is that stands after the dot of a location, and is known there.
fn explain_no_variable(page: &mut Page, refused: &Refused, fault: &typing::Fault) {
    if let typing::Cause::NoVariable = fault.cause
        && let Some(word) = refused.word()
    {
        explain_location(page, refused, word.text);
    }
}

// Adds where a label is whose location is asked for. The name of the module is no label.
fn explain_location(page: &mut Page, refused: &Refused, name: &[u8]) {
    let within = refused.words.get(2..).unwrap_or(&[]);
    if let Some(line) = find_named(within, name, false) {
        page.sentence(&[
            Piece::Shown(name),
            Piece::Text(" is a label, in line "),
            Piece::Number(line),
            Piece::Text(
                ", whose location is left out: delete the jump to it, and plm hex --jump makes one",
            ),
        ]);
        show_line(page, refused.text, line);
    }
}

// Adds where a label is, which a GOTO does not reach.
fn explain_label(page: &mut Page, refused: &Refused) {
    if let Some(word) = refused.word()
        && let Some(line) = find_named(refused.words, word.text, false)
    {
        show_line(page, refused.text, line);
        let is_left = leaves_procedure(
            refused.seen.alloc,
            refused.words,
            refused.before,
            word.text,
        );
        page.sentence(&[Piece::Text(if is_left {
            "A GOTO does not leave its procedure: set a variable, and test it after each call"
        } else {
            "A GOTO reaches labels of its own list of statements, and of those around it"
        })]);
    }
}

// Adds what breaks a rule of names or types.
fn explain_typing(page: &mut Page, refused: &Refused, fault: &typing::Fault) {
    match refused.told.number {
        "C13" | "C14" | "C15" => refused.show_said(page, &fault.cause),
        _ => refused.show(page, refused.told.meaning),
    }
    match refused.told.number {
        "C11" => explain_name(page, refused),
        "C12" => explain_twice(page, refused),
        "C13" if refused.dot() == Some(Dot::Location) => explain_no_variable(page, refused, fault),
        "C13" => explain_use(page, refused, fault),
        "C20" => explain_label(page, refused),
        _ => {}
    }
    refused.add_expansion(page);
}

// The hint for a $ that begins no word, from its line and the part of the line before it.
fn hint_of_dollar(line: &[u8], before: &[u8]) -> &'static str {
    if before.is_empty() {
        "Control lines are left out: plm convert takes them out, and puts in the file of $INCLUDE; of a listing, add --listing"
    } else if has_lone_quote(line) {
        "A quote may be missing before it on this line"
    } else {
        "A control line begins with its $: put it at the beginning of a line, where plm convert takes it out"
    }
}

// The hint for a byte that begins no word, from its line and the part of the line before it.
fn hint_of_byte(byte: u8, line: &[u8], before: &[u8]) -> Option<&'static str> {
    match byte {
        b'$' => Some(hint_of_dollar(line, before)),
        0 | 26 => Some(
            "^Z and zeros come from the end of a file of CP/M: delete them, or use plm convert",
        ),
        12 => Some("A form feed: delete it, or use plm convert"),
        b'_' => Some("A name may have $, and no _"),
        b'"' => Some("A string stands between single quotes"),
        b'\'' => Some(
            "A string ends on its line, and has only printed characters of ASCII: no tab",
        ),
        b'/' => Some("A comment has only printed characters of ASCII, tabs and line ends"),
        _ => None,
    }
}

// Adds what is wrong with the spelling of a word.
fn explain_spelling(page: &mut Page, refused: &Refused) {
    refused.show(page, refused.told.meaning);
    if let Some(place) = refused.place
        && let Some(hint) = hint_of_spelling(refused.text, place.start as usize)
    {
        hint.add(page);
    } else if refused.told.number == "C1"
        && let Some(place) = refused.place
    {
        explain_byte(page, refused, place);
    } else if refused.told.number == "C3"
        && let Some(place) = refused.place
    {
        let rest = refused.text.get(place.start as usize..).unwrap_or(&[]);
        explain_number(page, refused.seen.alloc, rest);
    }
}

// Adds what is said of the byte at a place, which begins no word.
fn explain_byte(page: &mut Page, refused: &Refused, place: Place) {
    let (text, start) = (refused.text, place.start as usize);
    let line = numbered_line(text, place.line);
    let before = line_before(text, start);
    match text.get(start..).unwrap_or(&[]) {
        [b'$', digits @ ..]
            if !is_blank(before)
                && !has_lone_quote(line)
                && explain_after_dollar(page, refused.seen.alloc, digits) => {}
        [byte, ..] if !byte.is_ascii() => {
            add_wrong_byte(page, text, start, place.line, Within::Source);
        }
        [byte, ..] => {
            if let Some(hint) = hint_of_byte(*byte, line, before) {
                page.sentence(&[Piece::Text(hint)]);
                add_refused_byte(page, text, place);
            }
        }
        [] => {}
    }
}

// Adds which byte of a comment or of a string may not stand in it.
fn add_refused_byte(page: &mut Page, text: &[u8], place: Place) {
    let start = place.start as usize;
    let within = match text.get(start) {
        Some(b'/') => Within::Comment,
        Some(b'\'') => Within::Text,
        _ => return,
    };
    if let Some((at, line)) = refused_byte(text, start, place.line) {
        add_wrong_byte(page, text, at, line, within);
    }
}

// Adds why the text has no expansion, and for a name that is defined twice, where it is defined before.
fn explain_expansion(page: &mut Page, refused: &Refused, fault: &literally::Fault) {
    refused.show_said(page, fault);
    if let literally::Fault::Again { start, .. } = fault
        && let (before, [word, ..]) = split_at_place(refused.plain, *start)
        && let Some(line) = find_defined(before, word.text)
    {
        page.sentence(&[
            Piece::Text("It is defined in line "),
            Piece::Number(line),
            Piece::Text(", too"),
        ]);
        show_line(page, refused.text, line);
    }
}

// Whether the word at fault, or the one before it, is after the columns that a card has for source.
fn is_on_card(refused: &Refused, start: usize) -> bool {
    let is_last = match refused.before {
        [.., last] => is_after_source(refused.text, last.start as usize),
        [] => false,
    };
    is_last || is_after_source(refused.text, start)
}

// What to do about numbers before the lines of a text or after them, where they are what is at fault.
fn hint_of_numbers(refused: &Refused) -> Option<&'static str> {
    let start = refused.place?.start as usize;
    let before = line_before(refused.text, start);
    let is_before = match refused.text.get(start) {
        Some(b'0'..=b'9') => is_blank(before),
        Some(b'$') => is_number(before),
        _ => false,
    };
    let cure = if is_before {
        cure_before(refused.text)
    } else {
        None
    };
    if cure.is_none() && is_on_card(refused, start) {
        cure_after(refused.text)
    } else {
        cure
    }
}

// Adds why a text is refused.
fn explain_fault(page: &mut Page, refused: &Refused, fault: &ReadFault) {
    let is_listed = refused.before.len() <= 2 && is_listing(refused.text);
    let hint = if is_listed {
        Some("This is a listing: use plm convert --listing")
    } else {
        hint_of_numbers(refused)
    };
    if let Some(hint) = hint {
        refused.show(page, refused.told.meaning);
        page.sentence(&[Piece::Text(hint)]);
        return;
    }
    match fault {
        ReadFault::Words(_) => explain_spelling(page, refused),
        ReadFault::Expansion(fault) => explain_expansion(page, refused, fault),
        ReadFault::Syntax(syntax::Fault::Word { .. }) => explain_word(page, refused),
        ReadFault::Syntax(syntax::Fault::End { .. }) => explain_end(page, refused),
        ReadFault::Syntax(syntax::Fault::EndName { .. }) => explain_end_name(page, refused),
        ReadFault::Typing(fault) => explain_typing(page, refused, fault),
        ReadFault::Storage(fault) => refused.show_said(page, fault),
        ReadFault::Syntax(syntax::Fault::Depth { .. }) | ReadFault::TooLong => {
            refused.show(page, refused.told.meaning);
        }
    }
}

// Adds why a text is refused at a place.
fn explain_at(page: &mut Page, seen: &Seen, told: Told, text: &[u8], fault: &ReadFault) {
    let (plain, words) = words_of(page, seen.alloc, text);
    let place = fault.place();
    let start = match place {
        Some(place) => place.start,
        None => 0,
    };
    let (before, after) = split_at_place(words.as_slice(), start);
    let refused = Refused {
        seen,
        told,
        text,
        plain: plain.as_slice(),
        words: words.as_slice(),
        place,
        before,
        after,
    };
    explain_fault(page, &refused, fault);
}

/// Adds why a source is refused, as the line of its fault and another look at it tell, with what is said below that line of
/// the places from which it comes.
pub(crate) fn explain_source(page: &mut Page, seen: &Seen, told: Told, text: &[u8]) {
    if let Some(other) = as_source(text, command_word(seen.words)) {
        add_origins(page, seen, told, text);
        page.cause(other, told.number);
        return;
    }
    match text_of_words(seen, told.place, text) {
        Ok(Some(lines)) => explain_text(page, seen, told, lines.as_slice()),
        Ok(None) => explain_text(page, seen, told, text),
        Err(_) => page.note(false),
    }
}

// Adds why a text is refused that is no other kind of file.
fn explain_text(page: &mut Page, seen: &Seen, told: Told, text: &[u8]) {
    match fault_of(page, seen.alloc, text) {
        Some(fault) if fault.number() == told.number && fault.line() == told.line => {
            explain_at(page, seen, told, text, &fault);
        }
        _ => {
            if told.line > 0 {
                show_line(page, text, told.line);
                add_origins(page, seen, told, text);
            }
            page.cause(told.meaning, told.number);
        }
    }
}
