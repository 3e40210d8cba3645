//! Commands whose output fails before all was printed, and commands with faults that can't be told.

use crate::memory_files::{File, MemoryFiles};
use crate::objects::MERGED;
use crate::page::Page;
use crate::readers::ShortWriter;
use explained_commands::run_command;
use std::alloc::Global;

// A command, its words, the name of its file and the bytes of that, and what is printed.
struct Row {
    what: &'static str,
    words: &'static [&'static str],
    file: &'static str,
    bytes: &'static [u8],
    printed: &'static str,
}

const PROGRAM: &[u8] = b"M: DO; DECLARE A BYTE; A = 1; OUTPUT(0) = A; END M;";

// What is printed of the merge stands in `docs/commands.md`.
const ROWS: [Row; 8] = [
    Row {
        what: "plm --version",
        words: &["plm", "--version"],
        file: "",
        bytes: b"",
        printed: "plm 1.0\n",
    },
    Row {
        what: "plm locate m.obj",
        words: &["plm", "locate", "m.obj"],
        file: "m.obj",
        bytes: &MERGED,
        printed: "CODE 0100 9\nDATA 4000 0\nSTACK F000 1024\nSTART 0100\nPUBLIC S 0104\n",
    },
    Row {
        what: "plm locate --need m.plm",
        words: &["plm", "locate", "--need", "m.plm"],
        file: "m.plm",
        bytes: PROGRAM,
        printed: "NEED 12\n",
    },
    Row {
        what: "plm hex m.obj",
        words: &["plm", "hex", "m.obj"],
        file: "m.obj",
        bytes: &MERGED,
        printed: ":09010000CD0401763E08D304C9C8\n:00000001FF\n",
    },
    Row {
        what: "plm run m.plm",
        words: &["plm", "run", "m.plm"],
        file: "m.plm",
        bytes: PROGRAM,
        printed: "OUT 00 01\nHALT\n",
    },
    Row {
        what: "plm interpret m.plm",
        words: &["plm", "interpret", "m.plm"],
        file: "m.plm",
        bytes: PROGRAM,
        printed: "OUT 00 01\nHALT\n",
    },
    Row {
        what: "plm run --map m.plm",
        words: &["plm", "run", "--map", "m.plm"],
        file: "m.plm",
        bytes: PROGRAM,
        printed: "MAP M A 4000 1\nOUT 00 01\nHALT\n",
    },
    Row {
        what: "plm interpret --map m.plm",
        words: &["plm", "interpret", "--map", "m.plm"],
        file: "m.plm",
        bytes: PROGRAM,
        printed: "MAP M A 4000 1\nOUT 00 01\nHALT\n",
    },
];

// Commands with a fault: a file that is not there, an option that does not exist, and a text that is no value of its option.
const FAULTY: [&[&str]; 3] = [
    &["plm", "hex", "none.obj"],
    &["plm", "hex", "--none"],
    &["plm", "hex", "--code", "none", "none.obj"],
];

// Whether a command is refused with U3 if its output takes `room` bytes, and has printed these.
fn is_refused(alloc: Global, row: &Row, files: &[File], room: usize) -> bool {
    let mut files = MemoryFiles::new(alloc, files);
    let mut err: Vec<u8> = Vec::new(alloc);
    let taken = Vec::new(alloc);
    let mut out = ShortWriter { room, taken };
    let status = run_command(alloc, row.words, &mut files, &mut out, &mut err);
    status == 1
        && err.as_slice() == b"U3 - 0\n".as_slice()
        && row.printed.as_bytes().get(..room) == Some(out.taken.as_slice())
}

// Prints how often a command is refused, with each output that is too short.
fn print_row(page: &mut Page, row: &Row) {
    let mut file = File::new(page.alloc(), row.file);
    file.bytes.add(row.bytes);
    let files = [file];
    let mut refused = 0_u64;
    for room in 0..row.printed.len() {
        if is_refused(page.alloc(), row, &files, room) {
            refused = refused.saturating_add(1);
        }
    }
    page.text("output of ");
    page.text(row.what);
    page.number(": ", refused);
    page.number(" of ", row.printed.len() as u64);
    page.text(" shorter ones are refused\n");
}

// Prints the statuses of commands whose faults can't be told.
fn print_untold(page: &mut Page) {
    page.text("statuses of faults that can't be told:");
    for words in &FAULTY {
        let mut files = MemoryFiles::new(page.alloc(), &[]);
        let mut out: Vec<u8> = Vec::new(page.alloc());
        let taken = Vec::new(page.alloc());
        let mut err = ShortWriter { room: 0, taken };
        let status = run_command(page.alloc(), words, &mut files, &mut out, &mut err);
        page.number(" ", u64::from(status));
    }
    page.text("\n");
}

/// Prints how often commands whose output is too short are refused, and how commands with faults that can't be told end.
pub fn print_shorter(page: &mut Page) {
    for row in &ROWS {
        print_row(page, row);
    }
    print_untold(page);
}
