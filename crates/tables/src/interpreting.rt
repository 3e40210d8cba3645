//! Programs that are interpreted over ports with a read that fails, and a program of no sources.

use crate::events::print_events;
use crate::faulty::FaultyPorts;
use crate::page::Page;
use host::Failure;
use interpreter::{RunFault, SourceEnd, interpret};
use mem80::Memory;
use ports::Ports;
use std::alloc::Global;
use tool::{Plan, Source, ToolFault, build};

// How a source ends that is interpreted over these ports, or why it is no program.
fn interpreted<P: Ports>(
    alloc: Global,
    text: &[u8],
    ports: &mut P,
) -> Result<Result<SourceEnd, RunFault>, Failure<ToolFault>> {
    let sources = [Source {
        name: "a.plm",
        text,
    }];
    let built = build(alloc, sources.as_slice(), &Plan::usual())?;
    let Ok(memory) = Memory::new(alloc) else {
        return Err(Failure::Memory);
    };
    let mut budget = 100;
    let mut at = 0;
    Ok(interpret(
        alloc,
        built.program(),
        built.placement(),
        1024,
        memory,
        ports,
        &mut budget,
        &mut at,
    ))
}

/// How it ends, in a word.
pub fn word_of_end<P: Ports>(alloc: Global, text: &[u8], ports: &mut P) -> &'static str {
    match interpreted(alloc, text, ports) {
        Ok(Ok(SourceEnd::Ended)) => "ended",
        Ok(Ok(SourceEnd::Outside(_))) => "outside",
        Ok(Ok(_)) => "not ended",
        Ok(Err(RunFault::Input(_))) | Ok(Err(RunFault::Output(_))) => "a port failed",
        Ok(Err(RunFault::Memory)) | Err(Failure::Memory) => "out of memory",
        Err(Failure::Fault(_)) => "refused",
    }
}

/// A program with statements of each kind.
pub const CALLS: &[u8] =
    b"M: DO; DECLARE A(2) BYTE PUBLIC INITIAL (1, 'X'), K BYTE DATA (3), R STRUCTURE (B BYTE, C(2) ADDRESS), S LITERALLY 'A(0) + 1', \
P ADDRESS, X BASED P BYTE; F: PROCEDURE (N) BYTE REENTRANT; DECLARE (N, V) BYTE; V = N; IF N = 0 THEN RETURN 0; RETURN F(N - 1) + V; END F; \
G: PROCEDURE (Q) PUBLIC; DECLARE Q ADDRESS; P = Q; IF X THEN RETURN; HALT; END G; \
DO WHILE S < 3; A(0), R.C(1) = -(A(0) := S) * 2; CALL G(.(7, 'AB')); END; OUTPUT(0) = X; OUTPUT(0) = F(3) + HIGH(R.C(1)); GOTO L; HALT; \
L: DO CASE K - 3; OUTPUT(0) = A(0); HALT; END; END M;";

const READS_TWICE: &[u8] = b"M: DO; OUTPUT(5) = INPUT(1) - INPUT(1); END M;";

// Prints how this program ends on ports whose second read fails, and then once more from its beginning on.
fn print_port_fault(page: &mut Page) {
    let mut ports = FaultyPorts::with_two_inputs(page.alloc());
    for _ in 0..2 {
        let end = word_of_end(page.alloc(), READS_TWICE, &mut ports);
        page.text(end);
        page.number(", failures: ", ports.failed);
        page.text("\n");
        print_events(page, ports.script.events());
    }
}

/// Prints how the program ends, and what is said of a program of no sources.
pub fn print_programs(page: &mut Page) {
    print_port_fault(page);
    let answer = build(page.alloc(), &[], &Plan::usual());
    let word = match &answer {
        Ok(_) => "built",
        Err(Failure::Fault(fault)) => fault.number(),
        Err(Failure::Memory) => "MEMORY",
    };
    page.line("no sources: ", word);
}
