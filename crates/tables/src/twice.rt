//! Calls that are made twice, one right after the other: programs that are built and run, or built and interpreted, and object files that
//! are merged. With one allocation refused at most one answer is another, and says so: `tools/refuse_allocations` refuses each.

use crate::interpreting::{CALLS, word_of_end};
use crate::objects::CALLING;
use crate::page::Page;
use cpu8080::DecodeTable;
use host::Failure;
use link::{StreamFault, link_records};
use mem80::Memory;
use ports::Script;
use std::alloc::Global;
use tool::{Built, Plan, Source, ToolFault, build, print_run};

// Room for what is printed and for the merge, so that neither takes memory of its own while it is written.
const ROOM: usize = 64;

// No program takes as many steps.
const LIMIT: u64 = 10_000;

// What a program is, and its sources.
struct Program {
    what: &'static str,
    sources: &'static [Source<'static>],
}

const ONE_OUTPUT: Source<'static> = Source {
    name: "a.plm",
    text: b"M: DO; OUTPUT(1) = 42; END M;",
};

const CALLER: Source<'static> = Source {
    name: "a.plm",
    text: b"A: DO; SHOW: PROCEDURE (X) EXTERNAL; DECLARE X BYTE; END SHOW; CALL SHOW(7); END A;",
};

const CALLED: Source<'static> = Source {
    name: "b.plm",
    text: b"B: DO; SHOW: PROCEDURE (X) PUBLIC; DECLARE X BYTE; OUTPUT(4) = X + 1; END SHOW; END B;",
};

const SHARED: Source<'static> = Source {
    name: "a.plm",
    text: b"M: DO; F: PROCEDURE(N) BYTE; DECLARE N BYTE; IF N = 0 THEN RETURN 1; RETURN F(N - 1) * N; END F; OUTPUT(6) = F(3); END M;",
};

const REENTRANT: Source<'static> = Source {
    name: "a.plm",
    text: b"M: DO; F: PROCEDURE(N) BYTE REENTRANT; DECLARE N BYTE; IF N = 0 THEN RETURN 1; RETURN F(N - 1) * N; END F; OUTPUT(6) = F(3); END M;",
};

// Programs that are run.
const PROGRAMS: [Program; 5] = [
    Program {
        what: "one output",
        sources: &[ONE_OUTPUT],
    },
    Program {
        what: "a caller, and the module that it calls",
        sources: &[CALLER, CALLED],
    },
    Program {
        what: "the same, the other way round",
        sources: &[CALLED, CALLER],
    },
    Program {
        what: "a parameter that calls share",
        sources: &[SHARED],
    },
    Program {
        what: "a parameter of each call",
        sources: &[REENTRANT],
    },
];

const DIVIDES: &[u8] = b"M: DO; DECLARE A BYTE; A = 0; OUTPUT(0) = 1; OUTPUT(0) = 5 / A; END M;";

// The object B of `docs/formats.md`, which has the name S that A calls.
const HAS_S: [u8; 46] = [
    0x02, 0x09, 0x00, 0x01, 0x42, 0x00, 0x00, 0x01, 0x05, 0x00, 0x03, 0xA9, 0x16, 0x07, 0x00, 0x01,
    0x00, 0x00, 0x01, 0x53, 0x00, 0x8E, 0x06, 0x09, 0x00, 0x01, 0x00, 0x00, 0x3E, 0x08, 0xD3, 0x04,
    0xC9, 0x0A, 0x04, 0x05, 0x00, 0x00, 0x00, 0x00, 0x00, 0xF7, 0x0E, 0x01, 0x00, 0xF1,
];

// What a program prints that was built and is run.
fn printed_of(alloc: Global, built: &Built) -> Result<Vec<u8>, Failure<ToolFault>> {
    let Ok(memory) = Memory::new(alloc) else {
        return Err(Failure::Memory);
    };
    let Ok(table) = DecodeTable::new(alloc) else {
        return Err(Failure::Memory);
    };
    let Ok(mut text) = Vec::with_capacity(alloc, ROOM) else {
        return Err(Failure::Memory);
    };
    match print_run(
        built,
        memory,
        Script::new(alloc),
        Some(table),
        LIMIT,
        &[],
        &mut text,
    ) {
        Ok(_) => Ok(text),
        Err(_) => Err(Failure::Memory),
    }
}

// What a program prints that is built of sources and run.
fn printed(alloc: Global, sources: &[Source]) -> Result<Vec<u8>, Failure<ToolFault>> {
    let built = build(alloc, sources, &Plan::usual())?;
    printed_of(alloc, &built)
}

// Prints what a program prints that is run, on one line with a semicolon in place of each end.
fn print_program(page: &mut Page, program: &Program) {
    page.text(program.what);
    page.text(":");
    match printed(page.alloc(), program.sources) {
        Ok(text) => {
            for line in std::str::from_utf8(text.as_slice()).unwrap_or("").lines() {
                page.text(" ");
                page.text(line);
                page.text(";");
            }
            page.text("\n");
        }
        Err(Failure::Fault(fault)) => page.line(" ", fault.number()),
        Err(Failure::Memory) => page.line(" ", "MEMORY"),
    }
}

// Prints what a program does that is interpreted: its events, each with a semicolon after it.
fn print_meaning(page: &mut Page, what: &str, text: &[u8]) {
    let mut script = Script::new(page.alloc());
    let end = word_of_end(page.alloc(), text, &mut script);
    page.text(what);
    page.text(":");
    for event in script.events() {
        page.byte(if event.write { " OUT " } else { " IN " }, event.port);
        page.byte(" ", event.value);
        page.text(";");
    }
    page.line(" ", end);
}

// The merge of the objects A and B.
fn merged(alloc: Global) -> Result<Vec<u8>, Failure<StreamFault>> {
    let Ok(mut text) = Vec::with_capacity(alloc, ROOM) else {
        return Err(Failure::Memory);
    };
    link_records(alloc, &[CALLING.as_slice(), &HAS_S], &mut text)?;
    Ok(text)
}

// Prints that merge.
fn print_merge(page: &mut Page) {
    page.text("the merge of A and B:");
    match merged(page.alloc()) {
        Ok(text) => {
            page.bytes(text.as_slice());
            page.text("\n");
        }
        Err(Failure::Fault(_)) => page.line(" ", "refused"),
        Err(Failure::Memory) => page.line(" ", "MEMORY"),
    }
}

// Prints what the programs print that are run, twice.
fn print_programs(page: &mut Page) {
    for program in &PROGRAMS {
        print_program(page, program);
        print_program(page, program);
    }
}

/// Prints what each call answers, twice.
pub fn print_twice(page: &mut Page) {
    print_programs(page);
    for (what, text) in [
        ("a division by 0", DIVIDES),
        ("statements of each kind", CALLS),
    ] {
        print_meaning(page, what, text);
        print_meaning(page, what, text);
    }
    print_merge(page);
    print_merge(page);
}
