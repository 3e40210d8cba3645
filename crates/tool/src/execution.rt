//! Runs of built programs.

ghost use Rattle.std.specs.Prelude.{◌≡◌, IfOk, OnErr};
ghost use Rattle.meaning.specs.Run.{NeverOutside};
ghost use Rattle.isa8080.specs.Step.{initial_state};
ghost use Rattle.cpu8080.specs.Runs.{IsRun};
ghost use Rattle.printing.specs.Printing.{BeginsRun, PrintsRun};
ghost use Rattle.generation.specs.Agreement.{Agrees};
ghost use Rattle.generation.specs.MemoryAtEnd.{EndsAlike};
ghost use Rattle.sources.specs.Programs.{program_modules};
ghost use Rattle.tool.specs.Execution.{HasMemoryOf, IsFaithful, outcomes_of, source_of, started};
ghost use Rattle.tool.specs.Image.{machine_run};
ghost use Rattle.tool.specs.Printed.{PrintsEnded};

use crate::built::Built;
use cpu8080::{DecodeTable, End, Machine};
use failure::{Failure, WriteFault};
use mem80::Memory;
use ports::{Ports, Script};
use printing::print_machine;
use std::io::Write;

// A machine at its start, with a table of what it decodes where one is given.
fn machine_with<P: Ports>(
    memory: Memory,
    ports: P,
    start: u16,
    table: Option<DecodeTable>,
) -> Machine<P>
    ensures state { result.state ≡ initial_state memory (P.events ports) start }
    ensures script { result.script ≡ P.script ports }
    ensures failures { result.failures ≡ P.failures ports }
{
    match table {
        Some(table) => Machine::with_table(memory, ports, start, table),
        None => Machine::new(memory, ports, start),
    }
}

// A machine at its start: with the image of a program loaded into a memory, and these ports.
pub(crate) fn machine_of<P: Ports>(
    built: &Built,
    memory: Memory,
    ports: P,
    table: Option<DecodeTable>,
) -> Machine<P>
    ensures started { result ≡
        started built.now.image memory (P.script ports) (P.events ports) (P.failures ports) }
    ensures agrees { let source = source_of built.now memory (P.script ports) (P.events ports) in
        NeverOutside source
        → Agrees source (machine_run built.now.image memory (P.script ports) (P.events ports)) }
    ensures alike { NeverOutside (source_of built.now memory (P.script ports) (P.events ports))
        → EndsAlike (program_modules built.now.program) built.now.placement
        (outcomes_of built.now memory (P.script ports) (P.events ports))
        (machine_run built.now.image memory (P.script ports) (P.events ports)) }
{
    let image = built.image();
    let mut memory = memory;
    image.load(&mut memory);
    machine_with(memory, ports, image.start(), table)
}

// The same run, with a table of what the machine decodes where one is given.
fn executed<P: Ports>(
    built: &Built,
    memory: Memory,
    ports: P,
    table: Option<DecodeTable>,
    limit: u64,
) -> (End, Machine<P>)
    ensures run { IsRun limit
        (started built.now.image memory (P.script ports) (P.events ports) (P.failures ports))
        result.0 result.1 }
    ensures script { result.1.script ≡ P.script ports }
    ensures faithful { let source = source_of built.now memory (P.script ports) (P.events ports) in
        NeverOutside source → IsFaithful source result.0 result.1 }
    ensures memory { NeverOutside (source_of built.now memory (P.script ports) (P.events ports))
        → result.0 ≡ End.Halted
        → HasMemoryOf built.now memory (outcomes_of built.now memory (P.script ports) (P.events ports))
        result.1 }
{
    let mut machine = machine_of(built, memory, ports, table);
    let end = machine.run(limit);
    (end, machine)
}

/// Loads the image of a program into a memory, and runs it on an 8080 with these ports for at most `limit` steps. Where
/// the program never goes outside, the events are a beginning of those of its source, and a machine that halted has them
/// all, and the memory of its source where that ended.
pub fn execute<P: Ports>(built: &Built, memory: Memory, ports: P, limit: u64) -> (End, Machine<P>)
    ensures run { IsRun limit
        (started built.now.image memory (P.script ports) (P.events ports) (P.failures ports))
        result.0 result.1 }
    ensures script { result.1.script ≡ P.script ports }
    ensures faithful { let source = source_of built.now memory (P.script ports) (P.events ports) in
        NeverOutside source → IsFaithful source result.0 result.1 }
    ensures memory { NeverOutside (source_of built.now memory (P.script ports) (P.events ports))
        → result.0 ≡ End.Halted
        → HasMemoryOf built.now memory (outcomes_of built.now memory (P.script ports) (P.events ports))
        result.1 }
{
    executed(built, memory, ports, None, limit)
}

/// Runs the image of a program as `execute` does, on a machine that keeps what it decoded in a table.
pub fn execute_with<P: Ports>(
    built: &Built,
    memory: Memory,
    ports: P,
    table: DecodeTable,
    limit: u64,
) -> (End, Machine<P>)
    ensures run { IsRun limit
        (started built.now.image memory (P.script ports) (P.events ports) (P.failures ports))
        result.0 result.1 }
    ensures script { result.1.script ≡ P.script ports }
    ensures faithful { let source = source_of built.now memory (P.script ports) (P.events ports) in
        NeverOutside source → IsFaithful source result.0 result.1 }
    ensures memory { NeverOutside (source_of built.now memory (P.script ports) (P.events ports))
        → result.0 ≡ End.Halted
        → HasMemoryOf built.now memory (outcomes_of built.now memory (P.script ports) (P.events ports))
        result.1 }
{
    executed(built, memory, ports, Some(table), limit)
}

/// Loads the image of a program into a memory, and runs it on an 8080 with this script, and with a table of what it decodes
/// where one is given, for at most `limit` steps. It writes a line for each event that is not of a quiet port, those of some
/// steps at a time while it runs, and then the word that the run ends with. The answer is how the run ended, and the machine
/// at its end: a port failed just where that machine has counted it. After a failure the writer has a beginning of that text.
/// Where the program never goes outside, what is written of a machine that halted is just what a source that ended does, and
/// that machine has the memory of its source where that ended.
pub fn print_run<W: Write>(
    built: &Built,
    memory: Memory,
    script: Script,
    table: Option<DecodeTable>,
    limit: u64,
    quiet: &[u8],
    out: &mut W,
) -> Result<(End, Machine<Script>), Failure<WriteFault>>
    ensures ok { IfOk result (λ ran. PrintsRun quiet.now limit
        (started built.now.image memory script.script script.events script.failures)
        ran.0 ran.1 (W.contents out.old) (W.contents out.new)) }
    ensures err { OnErr result (BeginsRun quiet.now limit
        (started built.now.image memory script.script script.events script.failures)
        (W.contents out.old) (W.contents out.new)) }
    ensures faithful { let source = source_of built.now memory script.script script.events in
        NeverOutside source
        → IfOk result (λ ran. ran.0 ≡ End.Halted
        → PrintsEnded quiet.now source (W.contents out.old) (W.contents out.new)) }
    ensures memory { NeverOutside (source_of built.now memory script.script script.events)
        → IfOk result (λ ran. ran.0 ≡ End.Halted
        → HasMemoryOf built.now memory (outcomes_of built.now memory script.script script.events) ran.1) }
{
    let mut machine = machine_of(built, memory, script, table);
    let end = print_machine(&mut machine, limit, quiet, out)?;
    Ok((end, machine))
}
