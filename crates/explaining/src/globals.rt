//! The names that the modules of a program share.

use crate::explanation::Seen;
use crate::kept_files::{Content, KeptFile};
use crate::left_out::is_same_name;
use crate::lines::show_line_of;
use crate::page::{MARGIN, Page, Piece};
use crate::refused::words_of;
use sources::read_source;
use std::alloc::{AllocError, Global};
use symbols::{Name, NameSet};
use typed_trees::{GlobalItem, Typed, Visibility};
use words::{Kind, Mark, ReservedWord, Word};

/// Which declarations of a name are shown.
#[derive(Clone, Copy)]
pub(crate) enum Declarations {
    /// Those that have PUBLIC or EXTERNAL.
    Shared,
    /// Those that have PUBLIC or EXTERNAL, and of a procedure those of its parameters too.
    WithParameters,
    /// Those that have AT.
    At,
}

impl Declarations {
    // Whether a declaration with this word is shown.
    fn has(self, word: ReservedWord) -> bool {
        match word {
            ReservedWord::Public | ReservedWord::External => !matches!(self, Declarations::At),
            ReservedWord::At => matches!(self, Declarations::At),
            _ => false,
        }
    }

    // Whether the declarations of parameters are shown.
    fn has_parameters(self) -> bool {
        matches!(self, Declarations::WithParameters)
    }
}

/// The PUBLIC and the EXTERNAL names of modules or of objects, each in the order of these.
#[derive(Drop)]
pub(crate) struct Shared {
    pub(crate) public: Vec<Name>,
    pub(crate) external: Vec<Name>,
}

// The name of what a module shares, by its number, and whether it is PUBLIC.
fn shared_name(typed: &Typed, item: GlobalItem) -> Option<(Name, bool)> {
    match item {
        GlobalItem::GlobalObject(number) => match typed.objects.get(number as usize) {
            Some(object) => Some((object.name, object.is_public)),
            None => None,
        },
        GlobalItem::GlobalProcedure(number) => match typed.procedures.get(number as usize) {
            Some(procedure) => {
                let is_public = matches!(procedure.visibility, Visibility::Public);
                Some((procedure.name, is_public))
            }
            None => None,
        },
    }
}

// Names as a set.
fn set_of(alloc: Global, names: &[Name]) -> Result<NameSet, AllocError> {
    let mut set = NameSet::new(alloc);
    for name in names {
        set.insert(*name)?;
    }
    Ok(set)
}

impl Shared {
    /// No names.
    pub(crate) fn new(alloc: Global) -> Shared {
        Shared {
            public: Vec::new(alloc),
            external: Vec::new(alloc),
        }
    }

    // Takes in what the module shares that a text is.
    fn add_text(&mut self, alloc: Global, text: &[u8]) -> Result<(), AllocError> {
        if let Ok(module) = read_source(alloc, text) {
            for item in &module.typed.globals {
                match shared_name(&module.typed, *item) {
                    Some((name, true)) => self.public.push(name)?,
                    Some((name, false)) => self.external.push(name)?,
                    None => {}
                }
            }
        }
        Ok(())
    }

    /// The EXTERNAL names that are not PUBLIC, each of them once.
    pub(crate) fn missing(&self, alloc: Global) -> Result<Vec<Name>, AllocError> {
        let mut known = set_of(alloc, self.public.as_slice())?;
        let mut missing = Vec::new(alloc);
        for name in &self.external {
            if !known.contains(*name) {
                known.insert(*name)?;
                missing.push(*name)?;
            }
        }
        Ok(missing)
    }
}

// The names that the modules share whose texts were read.
fn shared_in(alloc: Global, files: &[KeptFile]) -> Result<Shared, AllocError> {
    let mut shared = Shared::new(alloc);
    for file in files {
        if let Content::Bytes(text) = &file.content {
            shared.add_text(alloc, text.as_slice())?;
        }
    }
    Ok(shared)
}

// The EXTERNAL names of the modules whose texts were read that none has as PUBLIC, each of them once.
fn missing_in(alloc: Global, files: &[KeptFile]) -> Result<Vec<Name>, AllocError> {
    let shared = shared_in(alloc, files)?;
    let missing = shared.missing(alloc)?;
    Ok(missing)
}

/// Adds all EXTERNAL names that no module has as PUBLIC, where there are several.
pub(crate) fn add_missing(page: &mut Page, alloc: Global, files: &[KeptFile]) {
    match missing_in(alloc, files) {
        Ok(names) if names.len() > 1 => {
            page.pieces(&[
                Piece::Text(MARGIN),
                Piece::Text("No module has these as PUBLIC: "),
            ]);
            let mut between = "";
            for name in &names {
                page.pieces(&[Piece::Text(between), Piece::Shown(name.as_slice())]);
                between = ", ";
            }
            page.pieces(&[Piece::Text(".\n")]);
        }
        Ok(_) => {}
        Err(_) => page.note(false),
    }
}

// The line of the first statement of a module: of the first word in it that begins neither a DECLARE nor a procedure.
fn first_statement(words: &[Word]) -> Option<u32> {
    let mut level = 0_u32;
    let mut is_begin = false;
    for (at, word) in words.iter().enumerate() {
        let second = words.get(at.saturating_add(2));
        match word.kind {
            Kind::Reserved(ReservedWord::Declare) => {}
            Kind::Reserved(ReservedWord::End) => level = level.saturating_sub(1),
            _ if is_begin && level == 1 && !is_procedure(second) => return Some(word.line),
            Kind::Reserved(ReservedWord::Do | ReservedWord::Procedure) => {
                level = level.saturating_add(1);
            }
            _ => {}
        }
        is_begin = word.kind == Kind::Mark(Mark::Semicolon);
    }
    None
}

// Whether a word is PROCEDURE.
fn is_procedure(word: Option<&Word>) -> bool {
    match word {
        Some(word) => word.kind == Kind::Reserved(ReservedWord::Procedure),
        None => false,
    }
}

// Shows the line of the first statement of a module.
fn show_statement(page: &mut Page, alloc: Global, file: &[u8], text: &[u8]) {
    let (_plain, words) = words_of(page, alloc, text);
    if let Some(line) = first_statement(words.as_slice()) {
        show_line_of(page, file, text, line);
    }
}

// Whether a text is a module with statements of its own.
fn has_statements(alloc: Global, text: &[u8]) -> bool {
    match read_source(alloc, text) {
        Ok(module) => !module.typed.main.body.statements.as_slice().is_empty(),
        Err(_) => false,
    }
}

/// Adds the sources whose modules have statements, and shows the first of each.
pub(crate) fn add_mains<'x>(page: &mut Page, alloc: Global, files: &'x [KeptFile]) {
    for file in files {
        if let Content::Bytes(text) = &file.content
            && has_statements(alloc, text.as_slice())
        {
            page.line(&[
                Piece::Shown(file.name.as_slice()),
                Piece::Text(" has statements"),
            ]);
            show_statement(page, alloc, file.name.as_slice(), text.as_slice());
        }
    }
}

// What was seen of a statement: the line on which the name stands first that is looked for, whether a word of it is wanted,
// and whether it is the heading of a procedure.
#[derive(Clone, Copy)]
struct Statement {
    line: Option<u32>,
    is_wanted: bool,
    is_procedure: bool,
}

impl Statement {
    // A statement before its first word.
    fn new() -> Statement {
        Statement {
            line: None,
            is_wanted: false,
            is_procedure: false,
        }
    }

    // Takes in a word of the statement.
    fn add(&mut self, word: Word, name: &[u8], wanted: Declarations) {
        if self.line.is_none() && is_same_name(word.text, name) {
            self.line = Some(word.line);
        }
        if let Kind::Reserved(reserved) = word.kind {
            self.is_wanted = self.is_wanted || wanted.has(reserved);
            self.is_procedure = self.is_procedure || reserved == ReservedWord::Procedure;
        }
    }

    // The line to show of the statement, if it is one that is wanted.
    fn shown_line(self) -> Option<u32> {
        if self.is_wanted { self.line } else { None }
    }
}

// Shows the lines of a source that declare a name: of each statement that is wanted the line on which the name stands first,
// and of a procedure, if wanted, the line of a DECLARE directly after its heading, where it is another line.
fn show_in(
    page: &mut Page,
    seen: &Seen,
    file: &KeptFile,
    text: &[u8],
    name: &[u8],
    wanted: Declarations,
) {
    let (_plain, words) = words_of(page, seen.alloc, text);
    let mut statement = Statement::new();
    let mut heading = None;
    for word in &words {
        if let Some(line) = heading
            && line != word.line
            && word.kind == Kind::Reserved(ReservedWord::Declare)
        {
            show_line_of(page, file.name.as_slice(), text, word.line);
        }
        heading = None;
        if word.kind == Kind::Mark(Mark::Semicolon) {
            if let Some(line) = statement.shown_line() {
                show_line_of(page, file.name.as_slice(), text, line);
                if statement.is_procedure && wanted.has_parameters() {
                    heading = Some(line);
                }
            }
            statement = Statement::new();
        } else {
            statement.add(*word, name, wanted);
        }
    }
}

/// Shows the lines of the sources that declare a name as it is wanted.
pub(crate) fn show_declarations(page: &mut Page, seen: &Seen, name: &[u8], wanted: Declarations) {
    for file in seen.files {
        if let Content::Bytes(text) = &file.content {
            show_in(page, seen, file, text.as_slice(), name, wanted);
        }
    }
}
