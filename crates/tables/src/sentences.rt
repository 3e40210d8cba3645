//! Whether the help of each command has the numbers that it answers with, each with the words that the fault itself has.

use crate::memory_files::MemoryFiles;
use crate::page::Page;
use command_line::ValueFault;
use explained_commands::run_command;
use host::{Failure, FileFault};
use link::LinkFault;
use locate::LocateFault;
use objmod::Name;
use sources::{Place, ProgramFault, ReadFault};
use std::alloc::Global;
use std::fmt;
use std::fmt::Write;
use tool::ToolFault;
use typing::Cause;

// The text before the words of a fault that has a line.
const PLACE: &str = "line 1: ";

// A part of help that has lines of faults.
enum Part {
    Words,
    Texts,
    Length,
    Code,
    Joins,
    Segments,
    Merges,
    Objects,
    Places,
    Images,
    Files,
    Value,
}

// A command, the words that ask for its help, and what that is to have.
struct Row {
    name: &'static str,
    words: &'static [&'static str],
    parts: &'static [Part],
}

static ROWS: [Row; 12] = [
    Row {
        name: "plm",
        words: &["plm", "--help"],
        parts: &[
            Part::Words,
            Part::Texts,
            Part::Length,
            Part::Code,
            Part::Joins,
            Part::Segments,
            Part::Merges,
            Part::Objects,
            Part::Places,
            Part::Images,
            Part::Files,
            Part::Value,
        ],
    },
    Row {
        name: "compile",
        words: &["plm", "compile", "--help"],
        parts: &[
            Part::Words,
            Part::Texts,
            Part::Length,
            Part::Code,
            Part::Files,
        ],
    },
    Row {
        name: "run",
        words: &["plm", "run", "--help"],
        parts: &OF_PROGRAMS,
    },
    Row {
        name: "interpret",
        words: &["plm", "interpret", "--help"],
        parts: &OF_PROGRAMS,
    },
    Row {
        name: "link",
        words: &["plm", "link", "--help"],
        parts: &[Part::Merges, Part::Objects, Part::Files],
    },
    Row {
        name: "locate",
        words: &["plm", "locate", "--help"],
        parts: &[
            Part::Words,
            Part::Texts,
            Part::Length,
            Part::Joins,
            Part::Objects,
            Part::Places,
            Part::Images,
            Part::Files,
            Part::Value,
        ],
    },
    Row {
        name: "hex",
        words: &["plm", "hex", "--help"],
        parts: &[
            Part::Objects,
            Part::Places,
            Part::Images,
            Part::Files,
            Part::Value,
        ],
    },
    Row {
        name: "list",
        words: &["plm", "list", "--help"],
        parts: &[
            Part::Words,
            Part::Texts,
            Part::Length,
            Part::Code,
            Part::Joins,
            Part::Segments,
            Part::Objects,
            Part::Places,
            Part::Images,
            Part::Files,
            Part::Value,
        ],
    },
    Row {
        name: "symbols",
        words: &["plm", "symbols", "--help"],
        parts: &OF_PROGRAMS,
    },
    Row {
        name: "execute",
        words: &["plm", "execute", "--help"],
        parts: &[
            Part::Merges,
            Part::Objects,
            Part::Places,
            Part::Files,
            Part::Value,
        ],
    },
    Row {
        name: "explain",
        words: &["plm", "explain", "--help"],
        parts: &[Part::Files, Part::Value],
    },
    Row {
        name: "convert",
        words: &["plm", "convert", "--help"],
        parts: &[Part::Words, Part::Length, Part::Files],
    },
];

// What the help of a command has that takes the sources of a program.
const OF_PROGRAMS: [Part; 8] = [
    Part::Words,
    Part::Texts,
    Part::Length,
    Part::Code,
    Part::Joins,
    Part::Segments,
    Part::Files,
    Part::Value,
];

const START: Place = Place { start: 0, line: 1 };

// The faults of words and of LITERALLY.
static WORDS: [ReadFault; 8] = [
    ReadFault::Words(words::Fault::Character { start: 0, line: 1 }),
    ReadFault::Words(words::Fault::Unclosed { start: 0, line: 1 }),
    ReadFault::Words(words::Fault::Number { start: 0, line: 1 }),
    ReadFault::Words(words::Fault::Name { start: 0, line: 1 }),
    ReadFault::Expansion(literally::Fault::Depth { start: 0, line: 1 }),
    ReadFault::Expansion(literally::Fault::Count { start: 0, line: 1 }),
    ReadFault::Expansion(literally::Fault::Quote { start: 0, line: 1 }),
    ReadFault::Expansion(literally::Fault::Again { start: 0, line: 1 }),
];

// The faults of grammar and of a module's storage.
static TEXTS: [ReadFault; 5] = [
    ReadFault::Syntax(syntax::Fault::Word { place: START }),
    ReadFault::Syntax(syntax::Fault::Depth { place: START }),
    ReadFault::Syntax(syntax::Fault::EndName { place: START }),
    ReadFault::Storage(layout::Fault::DataTooLarge),
    ReadFault::Storage(layout::Fault::ConstantsTooLarge),
];

// The causes of faults of names and types. A number that several causes share has words for all of them, and is here with one.
static CAUSES: [(Cause, Option<&str>); 10] = [
    (Cause::UnknownName, None),
    (Cause::DeclaredTwice, None),
    (
        Cause::SubscriptMismatch,
        Some("a use that does not go with what is named"),
    ),
    (
        Cause::MisplacedLinkage,
        Some("an attribute or a declaration that cannot stand here"),
    ),
    (
        Cause::StringNotNumber,
        Some("a constant or a list of constants that is not allowed here"),
    ),
    (Cause::ConstantWritten, None),
    (Cause::NoLocation, None),
    (Cause::TooLarge, None),
    (Cause::MisplacedLabel, None),
    (Cause::UnknownLabel, None),
];

// The faults of objects.
static OBJECTS: [objmod::Fault; 9] = [
    objmod::Fault::Truncated,
    objmod::Fault::WrongSum,
    objmod::Fault::WrongLength,
    objmod::Fault::UnknownType,
    objmod::Fault::OutOfOrder,
    objmod::Fault::WrongBody,
    objmod::Fault::ContentMisplaced,
    objmod::Fault::FixMisplaced,
    objmod::Fault::WrongAlignment,
];

// The faults of an object that is placed, whatever it is, and those of one that is no merge of a whole program.
const PLACES: [ToolFault; 4] = [
    ToolFault::Locate(LocateFault::SegmentsMeet),
    ToolFault::Locate(LocateFault::PassesMemory),
    ToolFault::Locate(LocateFault::HighByteBroken),
    ToolFault::Locate(LocateFault::PageBroken),
];

const IMAGES: [ToolFault; 2] = [
    ToolFault::Locate(LocateFault::ExternalLeft),
    ToolFault::Locate(LocateFault::NoStart),
];

// The help of a command, how many lines of faults were looked for in it, and how many of them it lacks.
#[derive(Drop)]
struct Help {
    alloc: Global,
    text: Vec<u8>,
    lines: u64,
    lacking: u64,
}

impl Help {
    // Looks for the line of a fault: two blanks, the number in eight columns, and the words without a place.
    fn seek<T: fmt::Display>(&mut self, number: &str, fault: &T) {
        let mut told = String::new(self.alloc);
        let mut line = String::new(self.alloc);
        let is_told = write!(told, "{fault}").is_ok();
        let words = told.as_str().strip_prefix(PLACE).unwrap_or(told.as_str());
        let is_written = write!(line, "\n  {number:<8}{words}\n").is_ok();
        let text = std::str::from_utf8(self.text.as_slice()).unwrap_or("");
        let has_line = text.contains(line.as_str());
        self.lines = self.lines.saturating_add(1);
        if !is_told || !is_written || !has_line {
            self.lacking = self.lacking.saturating_add(1);
        }
    }

    // Looks for the lines of faults of a source.
    fn seek_reads(&mut self, faults: &[ReadFault]) {
        for fault in faults {
            self.seek(fault.number(), fault);
        }
    }

    // Looks for the lines of faults of names and types.
    fn seek_causes(&mut self) {
        for (cause, words) in &CAUSES {
            let fault = typing::Fault {
                cause: *cause,
                place: START,
            };
            match words {
                Some(words) => self.seek(fault.number(), words),
                None => self.seek(fault.number(), &fault),
            }
        }
    }

    // Looks for the lines of faults of objects.
    fn seek_objects(&mut self) {
        for fault in &OBJECTS {
            self.seek(fault.number(), fault);
        }
    }

    // Looks for the lines of other faults.
    fn seek_all(&mut self, faults: &[ToolFault]) {
        for fault in faults {
            self.seek(fault.number(), fault);
        }
    }

    // Looks for the lines of faults of modules together, wherever they lie, and of the number of sources.
    fn seek_joins(&mut self, name: Name) {
        self.seek_all(&[
            ToolFault::Program(ProgramFault::Join(join::Fault::NoPublic { name })),
            ToolFault::Program(ProgramFault::Join(join::Fault::PublicTwice { name })),
            ToolFault::Program(ProgramFault::Join(join::Fault::DeclarationsDiffer { name })),
            ToolFault::Program(ProgramFault::Join(join::Fault::NotOneMain)),
            ToolFault::TooManySources,
        ]);
    }

    // Looks for the lines of faults of where modules lie.
    fn seek_segments(&mut self, name: Name) {
        self.seek_all(&[
            ToolFault::Program(ProgramFault::Placement(placing::Fault::SegmentTooLarge)),
            ToolFault::Program(ProgramFault::Placement(placing::Fault::PassesMemory)),
            ToolFault::Program(ProgramFault::Placement(placing::Fault::RangesOverlap)),
            ToolFault::Program(ProgramFault::Placement(placing::Fault::ObjectMisplaced { name })),
        ]);
    }

    // Looks for the lines of faults of a merge of objects.
    fn seek_merges(&mut self, name: Name) {
        self.seek_all(&[
            ToolFault::Link(LinkFault::DuplicatePublic { name }),
            ToolFault::Link(LinkFault::UnresolvedExternal { name }),
            ToolFault::Link(LinkFault::SegmentTooLong),
            ToolFault::Link(LinkFault::NotOneMain),
            ToolFault::Link(LinkFault::HighByteMoves),
        ]);
    }

    // Looks for the lines of a part.
    fn seek_part(&mut self, part: &Part, name: Name) {
        match part {
            Part::Words => self.seek_reads(&WORDS),
            Part::Texts => {
                self.seek_reads(&TEXTS);
                self.seek_causes();
            }
            Part::Length => self.seek_reads(&[ReadFault::TooLong]),
            Part::Code => {
                let fault = codegen8080::Fault::TooLong;
                self.seek(fault.number(), &fault);
            }
            Part::Joins => self.seek_joins(name),
            Part::Segments => self.seek_segments(name),
            Part::Merges => self.seek_merges(name),
            Part::Objects => self.seek_objects(),
            Part::Places => self.seek_all(&PLACES),
            Part::Images => self.seek_all(&IMAGES),
            Part::Files => {
                let out_of_memory: Failure<FileFault> = Failure::Memory;
                self.seek(FileFault.number(), &FileFault);
                self.seek("MEMORY", &out_of_memory);
            }
            Part::Value => {
                let fault = ValueFault { text: "X" };
                self.seek(fault.number(), &fault);
            }
        }
    }
}

// Prints how many lines of faults the help of a command is to have, and how many of them it lacks.
fn print_help(page: &mut Page, row: &Row, name: Name) {
    let alloc = page.alloc();
    let mut files = MemoryFiles::new(alloc, &[]);
    let mut err: Vec<u8> = Vec::new(alloc);
    let mut help = Help {
        alloc,
        text: Vec::new(alloc),
        lines: 0,
        lacking: 0,
    };
    let _ = run_command(alloc, row.words, &mut files, &mut help.text, &mut err);
    for part in row.parts {
        help.seek_part(part, name);
    }
    page.text("help of ");
    page.text(row.name);
    page.number(": ", help.lines);
    page.number(" lines of faults, ", help.lacking);
    page.text(" lacking\n");
}

/// Prints for the help of each command how many lines of faults it is to have, and how many of them it lacks.
pub fn print_sentences(page: &mut Page) {
    let Some(name) = Name::from_text(b"X") else {
        return page.note(false);
    };
    for row in &ROWS {
        print_help(page, row, name);
    }
}
